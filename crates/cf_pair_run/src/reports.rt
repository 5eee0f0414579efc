//! The events of a script that was read, and their report.

ghost use Rattle.std.specs.Prelude.{◌≡◌, ◌≤◌, ◌⊎◌, [], length};
ghost use Rattle.cf_disk.specs.Disk.{HasFailed, size_of};
ghost use Rattle.cf_io.specs.Moves.{Rose};
ghost use Rattle.cf_journal.specs.Settled.{IsFitSize};
ghost use Rattle.cf_pair_run.specs.Led.{HasRun};
ghost use Rattle.cf_pair_run.specs.Runs.{WritesOf};
ghost use Rattle.cf_pair_script.specs.PairScript.{IsScript};
ghost use Rattle.cf_world_plays.specs.Runs.{IsOfReport, IsPlayed, most_script};

use crate::plays::play;
use crate::runs::PairFinish;
use crate::worlds::PairWorld;
use cf_base::Status;
use cf_disk::Disk;
use cf_io::Sink;
use cf_pair_events::PairEvent;
use cf_remote::Remote;
use cf_world_plays::{status_of, unstarted};
use std::alloc::Global;

/// Makes a volume on each disk, does the events, and writes the report. A start that a device stops is DeviceFault.
pub(crate) fn report<K: Sink, D: Disk + Drop, R: Remote + Drop>(
    alloc: Global,
    text: &[u8],
    events: &[PairEvent],
    sink: &mut K,
    first: D,
    second: D,
    remote: R,
) -> PairFinish<D, R>
    requires short { length text.now ≤ most_script }
    requires script { IsScript text.now events.now }
    requires first { IsFitSize (size_of (D.state first)) }
    requires second { IsFitSize (size_of (D.state second)) }
    ensures writes { WritesOf D.state R.told first second remote text.now (K.held sink.old) (K.held sink.new) result.status result.first result.second result.remote }
    ensures only { IsPlayed result.status }
    ensures sink_fault { result.status ≡ Status.SinkFault → Rose (K.faults sink.old) (K.faults sink.new) }
    ensures device_fault { result.status ≡ Status.DeviceFault → HasFailed (D.state first) (D.state result.first) ⊎ HasFailed (D.state second) (D.state result.second) }
    ensures unwritten { result.status ≡ Status.DeviceFault → sink.new ≡ sink.old }
    ensures unstarted { result.status ≡ Status.DeviceFault → result.remote ≡ remote }
{
    match PairWorld::start(alloc, first, second, remote) {
        Ok(world) => done(alloc, text, events, sink, world),
        Err((first, second, remote, fail)) => PairFinish {
            status: unstarted(fail),
            first,
            second,
            remote,
        },
    }
}

// Does the events, and writes the report.
fn done<K: Sink, D: Disk + Drop, R: Remote + Drop>(
    alloc: Global,
    text: &[u8],
    events: &[PairEvent],
    sink: &mut K,
    world: PairWorld<D, R>,
) -> PairFinish<D, R>
    requires short { length text.now ≤ most_script }
    requires script { IsScript text.now events.now }
    ensures writes { (first second : D) (remote : R) → HasRun D.state R.told first second remote [] world → WritesOf D.state R.told first second remote text.now (K.held sink.old) (K.held sink.new) result.status result.first result.second result.remote }
    ensures only { IsOfReport result.status }
    ensures sink_fault { result.status ≡ Status.SinkFault → Rose (K.faults sink.old) (K.faults sink.new) }
{
    let _ = text;
    let (world, played) = play(alloc, world, events, sink);
    let (first, second, remote) = world.finish();
    PairFinish {
        status: status_of(played),
        first,
        second,
        remote,
    }
}
