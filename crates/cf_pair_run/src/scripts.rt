//! A script of two devices that is read and done.

ghost use Rattle.std.specs.Prelude.{◌≡◌, ◌≤◌, ◌⊎◌, ◌↔◌, IsTrue, List, length};
ghost use Rattle.cf_disk.specs.Disk.{HasFailed};
ghost use Rattle.cf_io.specs.Moves.{IsQuiet, Rose};
ghost use Rattle.cf_pair_events.specs.declared.events.PairEvent.{PairEvent as Event};
ghost use Rattle.cf_pair_run.specs.Runs.{AreFit, WritesOf};
ghost use Rattle.cf_pair_script.specs.PairScript.{IsScript};
ghost use Rattle.cf_world_plays.specs.Runs.{IsAfterReading, IsBeforeEvents, IsComplete, IsStarted, IsUnfit, most_script};
ghost use Rattle.cf_world_devices.specs.Ends.{IsBeforeDevice, IsBeforeWriting};
ghost use Rattle.cf_world_devices.specs.Sizes.{IsFit};

use crate::refusals::refuse;
use crate::reports::report;
use crate::runs::PairFinish;
use cf_base::Status;
use cf_disk::Disk;
use cf_io::Sink;
use cf_pair_events::PairEvent;
use cf_pair_script::read;
use cf_remote::Remote;
use cf_world_devices::is_fit;
use std::alloc::Global;

/// Reads the script, does its events, and writes the report.
pub(crate) fn scripted<K: Sink, D: Disk + Drop, R: Remote + Drop>(
    alloc: Global,
    text: &[u8],
    sink: &mut K,
    first: D,
    second: D,
    remote: R,
) -> PairFinish<D, R>
    requires short { length text.now ≤ most_script }
    ensures writes { WritesOf D.state R.told first second remote text.now (K.held sink.old) (K.held sink.new) result.status result.first result.second result.remote }
    ensures only { IsAfterReading result.status }
    ensures sink_fault { result.status ≡ Status.SinkFault → Rose (K.faults sink.old) (K.faults sink.new) }
    ensures bad { result.status ≡ Status.BadScript → (events : List Event) → IsScript text.now events → ⊥ }
    ensures device { result.status ≡ Status.BadDevice → AreFit (D.state first) (D.state second) → ⊥ }
    ensures unfit { (AreFit (D.state first) (D.state second) → ⊥) → (events : List Event) → IsScript text.now events → IsUnfit result.status }
    ensures device_fault { result.status ≡ Status.DeviceFault → HasFailed (D.state first) (D.state result.first) ⊎ HasFailed (D.state second) (D.state result.second) }
    ensures unwritten { IsBeforeWriting result.status → sink.new ≡ sink.old }
    ensures unused { IsBeforeDevice result.status → (result.first ≡ first) × (result.second ≡ second) }
    ensures remote { IsBeforeEvents result.status → result.remote ≡ remote }
    ensures complete { IsQuiet (K.faults sink.old) (K.faults sink.new) → AreFit (D.state first) (D.state second) → (events : List Event) → IsScript text.now events → IsComplete result.status }
{
    match read(alloc, text) {
        Ok(events) => started(alloc, text, events.as_slice(), sink, first, second, remote),
        Err(fail) => PairFinish {
            status: refuse(alloc, text, fail, sink),
            first,
            second,
            remote,
        },
    }
}

fn are_fit(first: u64, second: u64) -> bool
    ensures { IsTrue result ↔ (IsFit first × IsFit second) }
{
    is_fit(first) && is_fit(second)
}

// Begins with the events, where both devices are fit.
fn started<K: Sink, D: Disk + Drop, R: Remote + Drop>(
    alloc: Global,
    text: &[u8],
    events: &[PairEvent],
    sink: &mut K,
    first: D,
    second: D,
    remote: R,
) -> PairFinish<D, R>
    requires short { length text.now ≤ most_script }
    requires script { IsScript text.now events.now }
    ensures writes { WritesOf D.state R.told first second remote text.now (K.held sink.old) (K.held sink.new) result.status result.first result.second result.remote }
    ensures only { IsStarted result.status }
    ensures sink_fault { result.status ≡ Status.SinkFault → Rose (K.faults sink.old) (K.faults sink.new) }
    ensures device { result.status ≡ Status.BadDevice → AreFit (D.state first) (D.state second) → ⊥ }
    ensures unfit { (AreFit (D.state first) (D.state second) → ⊥) → result.status ≡ Status.BadDevice }
    ensures device_fault { result.status ≡ Status.DeviceFault → HasFailed (D.state first) (D.state result.first) ⊎ HasFailed (D.state second) (D.state result.second) }
    ensures unwritten { IsBeforeWriting result.status → sink.new ≡ sink.old }
    ensures unused { IsBeforeDevice result.status → (result.first ≡ first) × (result.second ≡ second) }
    ensures remote { IsBeforeEvents result.status → result.remote ≡ remote }
{
    if are_fit(first.size(), second.size()) {
        return report(alloc, text, events, sink, first, second, remote);
    }
    PairFinish {
        status: Status::BadDevice,
        first,
        second,
        remote,
    }
}
