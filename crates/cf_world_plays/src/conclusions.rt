//! The events of a script that was read, and what they leave, which is written in place of a report.

ghost use Rattle.std.specs.Prelude.{◌≡◌, ◌≢◌, ◌≤◌, [], IsTrue, List, is_some, length, true};
ghost use Rattle.std.specs.List.{list_all};
ghost use Rattle.cf_base.specs.declared.answers.Answer.{Answer as Answered};
ghost use Rattle.cf_base.specs.declared.events.Event.{Event as Done};
ghost use Rattle.cf_disk.specs.Disk.{HasFailed, size_of};
ghost use Rattle.cf_gen.specs.Summaries.{counts_of};
ghost use Rattle.cf_io.specs.Moves.{Rose};
ghost use Rattle.cf_journal.specs.Settled.{IsFitSize};
ghost use Rattle.cf_model.specs.Events.{is_of};
ghost use Rattle.cf_script.specs.Script.{IsScript};
ghost use Rattle.cf_world_plays.specs.Led.{HasRunOn};
ghost use Rattle.cf_world_plays.specs.Outputs.{ConcludesBy, IsEnding, PutsEnd, PutsText};
ghost use Rattle.cf_world_plays.specs.Runs.{IsPlayed, answers_of, most_script};
ghost use Rattle.cf_world_devices.specs.Ends.{IsBeforeWriting};
ghost use Rattle.cf_world_plays.specs.declared.outputs.Ending.TheVariants as endings;

use crate::images::put_image;
use crate::outputs::Ending;
use crate::plays::play;
use crate::refusals::early;
use crate::reports::{Played, unstarted};
use crate::worlds::World;
use cf_base::{Blob, Event, OutOfMemory, Status};
use cf_disk::Disk;
use cf_filter_events::Actor;
use cf_gen::Counts;
use cf_io::{NullSink, Sink};
use cf_world_devices::written;
use std::alloc::Global;

/// Makes a volume on the disk, does the events, and writes what they leave. A start that the device stops is DeviceFault, and so is a
/// device whose bytes cannot be read in the end. TooLong, with nothing written, where a report would be.
pub(crate) fn conclude<K: Sink, D: Disk + Drop, A: Actor + Drop>(
    alloc: Global,
    ending: Ending,
    text: &[u8],
    events: Vec<Event>,
    sink: &mut K,
    disk: D,
    actor: A,
) -> Played<D, A>
    requires short { length text.now ≤ most_script }
    requires script { IsScript A.acts.mode text.now events.items }
    requires of { IsTrue (list_all (is_of A.acts.mode) events.items) }
    requires fit { IsFitSize (size_of (D.state disk)) }
    ensures writes { ConcludesBy D.state A.acts ending disk actor text.now (K.held sink.old) (K.held sink.new) result.status result.disk result.actor }
    ensures only { IsPlayed result.status }
    ensures sink_fault { result.status ≡ Status.SinkFault → Rose (K.faults sink.old) (K.faults sink.new) }
    ensures device_fault { result.status ≡ Status.DeviceFault → ending ≢ endings.Image → HasFailed (D.state disk) (D.state result.disk) }
    ensures unwritten { result.status ≡ Status.DeviceFault → sink.new ≡ sink.old }
    ensures unstarted { result.status ≡ Status.DeviceFault → ending ≢ endings.Image → result.actor ≡ actor }
{
    match World::start(alloc, disk, actor) {
        Ok(world) => done(alloc, ending, text, events, sink, world),
        Err((disk, actor, fail)) => {
            drop(events);
            Played {
                status: unstarted(fail),
                disk,
                actor,
            }
        }
    }
}

// Does the events, and writes what they leave.
fn done<K: Sink, D: Disk + Drop, A: Actor + Drop>(
    alloc: Global,
    ending: Ending,
    text: &[u8],
    events: Vec<Event>,
    sink: &mut K,
    mut world: World<D, A>,
) -> Played<D, A>
    requires short { length text.now ≤ most_script }
    requires script { IsScript A.acts.mode text.now events.items }
    requires of { IsTrue (list_all (is_of A.acts.mode) events.items) }
    requires whole { is_some world ≡ true }
    ensures writes { (disk : D) (first : A) → HasRunOn D.state A.acts disk first [] world → ConcludesBy D.state A.acts ending disk first text.now (K.held sink.old) (K.held sink.new) result.status result.disk result.actor }
    ensures only { IsPlayed result.status }
    ensures sink_fault { result.status ≡ Status.SinkFault → Rose (K.faults sink.old) (K.faults sink.new) }
    ensures device_fault { result.status ≡ Status.DeviceFault → ending ≡ endings.Image }
    ensures unwritten { result.status ≡ Status.DeviceFault → sink.new ≡ sink.old }
{
    let _ = text;
    let mut counts = Counts::new();
    match play(alloc, &mut world, events, &mut NullSink, &mut counts) {
        Ok(()) => put(alloc, ending, sink, world, &counts),
        Err(fail) => {
            let (disk, actor) = world.finish();
            Played {
                status: early(fail),
                disk,
                actor,
            }
        }
    }
}

// Writes what a world leaves in which the events were done.
fn put<K: Sink, D: Disk + Drop, A: Actor + Drop>(
    alloc: Global,
    ending: Ending,
    sink: &mut K,
    world: World<D, A>,
    counts: &Counts,
) -> Played<D, A>
    requires whole { is_some world ≡ true }
    ensures writes { (disk : D) (first : A) (trace : List (Done × Answered)) → counts.now ≡ counts_of (answers_of trace) → HasRunOn D.state A.acts disk first trace world
        → PutsEnd D.state A.acts ending disk first trace (K.held sink.old) (K.held sink.new) result.status result.disk result.actor }
    ensures only { IsEnding ending result.status }
    ensures sink_fault { result.status ≡ Status.SinkFault → Rose (K.faults sink.old) (K.faults sink.new) }
    ensures unwritten { result.status ≡ Status.DeviceFault → sink.new ≡ sink.old }
{
    match ending {
        Ending::State => {
            let (disk, actor, text) = world.state(alloc);
            let status = put_text(sink, text);
            Played {
                status,
                disk,
                actor,
            }
        }
        Ending::Image => {
            let (mut disk, actor) = world.finish();
            let status = put_image(alloc, sink, &mut disk);
            Played {
                status,
                disk,
                actor,
            }
        }
        Ending::Summary => {
            let (disk, actor, blocks) = world.blocks();
            let status = put_text(sink, counts.text(alloc, blocks));
            Played {
                status,
                disk,
                actor,
            }
        }
    }
}

// Writes a text, if there was memory for it.
fn put_text<K: Sink>(sink: &mut K, text: Result<Blob, OutOfMemory>) -> Status
    ensures puts { PutsText text (K.held sink.old) (K.held sink.new) result }
    ensures sink_fault { result ≡ Status.SinkFault → Rose (K.faults sink.old) (K.faults sink.new) }
    ensures unwritten { IsBeforeWriting result → sink.new ≡ sink.old }
{
    match text {
        Ok(text) => {
            let status = written(sink, text.as_slice());
            drop(text);
            status
        }
        Err(OutOfMemory) => Status::OutOfMemory,
    }
}
