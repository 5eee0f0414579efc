//! The events of a script that was read, under either actor, and their report.

ghost use Rattle.std.specs.Prelude.{◌≡◌, ◌≤◌, ◌+◌, [], IsTrue, is_some, length, true};
ghost use Rattle.std.specs.List.{list_all};
ghost use Rattle.cf_disk.specs.Disk.{HasFailed, size_of};
ghost use Rattle.cf_io.specs.Moves.{Rose};
ghost use Rattle.cf_journal.specs.Settled.{IsFitSize};
ghost use Rattle.cf_model.specs.Events.{is_of};
ghost use Rattle.cf_script.specs.Script.{IsScript};
ghost use Rattle.cf_world_plays.specs.Led.{HasRunOn};
ghost use Rattle.cf_world_plays.specs.Runs.{IsOfReport, IsPlayed, most_script};
ghost use Rattle.cf_world_plays.specs.Steps.{WritesBy, play_status, start_status};

use crate::play_errors::PlayError;
use crate::plays::play;
use crate::refusals::early;
use crate::worlds::World;
use cf_base::{CallError, Event, Status};
use cf_disk::Disk;
use cf_filter_events::Actor;
use cf_gen::Counts;
use cf_io::Sink;
use std::alloc::Global;

/// How the events of a script ended, and the disk and the actor that they leave.
#[derive(Drop)]
pub struct Played<D, A> {
    pub status: Status,
    pub disk: D,
    pub actor: A,
}

/// Makes a volume on the disk, does the events, and writes the report. A start that the device stops is DeviceFault.
pub fn report<K: Sink, D: Disk + Drop, A: Actor + Drop>(
    alloc: Global,
    text: &[u8],
    events: Vec<Event>,
    sink: &mut K,
    disk: D,
    actor: A,
) -> Played<D, A>
    requires short { length text.now ≤ most_script }
    requires script { IsScript A.acts.mode text.now events.items }
    requires of { IsTrue (list_all (is_of A.acts.mode) events.items) }
    requires fit { IsFitSize (size_of (D.state disk)) }
    ensures writes { WritesBy D.state A.acts disk actor text.now (K.held sink.old) (K.held sink.new) result.status result.disk result.actor }
    ensures only { IsPlayed result.status }
    ensures sink_fault { result.status ≡ Status.SinkFault → Rose (K.faults sink.old) (K.faults sink.new) }
    ensures device_fault { result.status ≡ Status.DeviceFault → HasFailed (D.state disk) (D.state result.disk) }
    ensures unwritten { result.status ≡ Status.DeviceFault → sink.new ≡ sink.old }
    ensures unstarted { result.status ≡ Status.DeviceFault → result.actor ≡ actor }
{
    match World::start(alloc, disk, actor) {
        Ok(world) => done(alloc, text, events, sink, world),
        Err((disk, actor, fail)) => {
            drop(events);
            Played {
                status: unstarted(fail),
                disk,
                actor,
            }
        }
    }
}

/// The status of a run whose start is stopped, which is by the device or by lack of memory alone.
pub fn unstarted(fail: CallError) -> Status
    ensures { result ≡ start_status fail }
{
    match fail {
        CallError::No(_code) => Status::DeviceFault,
        CallError::OutOfMemory => Status::OutOfMemory,
    }
}

// Does the events, and writes the report.
fn done<K: Sink, D: Disk + Drop, A: Actor + Drop>(
    alloc: Global,
    text: &[u8],
    events: Vec<Event>,
    sink: &mut K,
    mut world: World<D, A>,
) -> Played<D, A>
    requires short { length text.now ≤ most_script }
    requires script { IsScript A.acts.mode text.now events.items }
    requires of { IsTrue (list_all (is_of A.acts.mode) events.items) }
    requires whole { is_some world ≡ true }
    ensures writes { (disk : D) (first : A) → HasRunOn D.state A.acts disk first [] world → WritesBy D.state A.acts disk first text.now (K.held sink.old) (K.held sink.new) result.status result.disk result.actor }
    ensures only { IsOfReport result.status }
    ensures sink_fault { result.status ≡ Status.SinkFault → Rose (K.faults sink.old) (K.faults sink.new) }
{
    let _ = text;
    let mut counts = Counts::new();
    let played = play(alloc, &mut world, events, sink, &mut counts);
    let (disk, actor) = world.finish();
    Played {
        status: status_of(played),
        disk,
        actor,
    }
}

/// The status of a run whose events were done, or not.
pub fn status_of(played: Result<(), PlayError>) -> Status
    ensures { result ≡ play_status played }
{
    match played {
        Ok(()) => Status::Done,
        Err(fail) => early(fail),
    }
}
