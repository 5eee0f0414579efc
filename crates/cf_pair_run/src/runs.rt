//! The top call.

ghost use Rattle.std.specs.Prelude.{◌≡◌, ◌≢◌, ◌⊎◌, ℕ, List, []};
ghost use Rattle.cf_disk.specs.Disk.{HasFailed};
ghost use Rattle.cf_io.specs.Moves.{IsQuiet, IsWhole, Rose};
ghost use Rattle.cf_pair_run.specs.Runs.{AreFit, OfText};
ghost use Rattle.cf_world_plays.specs.Runs.{IsBeforeEvents};
ghost use Rattle.cf_world_devices.specs.Ends.{IsBeforeDevice, IsBeforeWriting};

use crate::scripts::scripted;
use cf_base::Status;
use cf_disk::Disk;
use cf_io::{Sink, Source, read_all};
use cf_remote::Remote;
use cf_world_plays::{MOST_SCRIPT_BYTES, unscripted};
use std::alloc::Global;

/// How a run ended, and the devices' disks and the remote that it leaves.
#[derive(Drop)]
pub struct PairFinish<D, R> {
    pub status: Status,
    pub first: D,
    pub second: D,
    pub remote: R,
}

/// Reads the script of two devices from the source, does its events on both disks and the remote, and writes the report to the sink.
/// There are no words, else the status is Usage. A script has at most 16,777,216 bytes, and a report 67,108,864.
pub fn run_pair<S: Source, K: Sink, D: Disk + Drop, R: Remote + Drop>(
    alloc: Global,
    words: &[String],
    source: &mut S,
    sink: &mut K,
    first: D,
    second: D,
    remote: R,
) -> PairFinish<D, R>
    // There are no words, and of the text all holds that `OfText` says: what was written, by the status, and when each status comes. Or
    // there are words, and nothing was touched.
    ensures text { (words.now ≡ []) × ((text : List ℕ) × IsWhole (S.left source.old) text
        × OfText D.state R.told first second remote text (K.held sink.old) (K.held sink.new) (sink.new ≡ sink.old) (IsQuiet (S.faults source.old) (S.faults source.new) × IsQuiet (K.faults sink.old) (K.faults sink.new)) result.status result.first result.second result.remote)
        ⊎ ((words.now ≢ []) × (result.status ≡ Status.Usage) × (source.new ≡ source.old) × (sink.new ≡ sink.old) × (result.first ≡ first) × (result.second ≡ second) × (result.remote ≡ remote)) }

    // The cause of each status, of whatever text.
    ensures usage { result.status ≡ Status.Usage → words.now ≡ [] → ⊥ }
    ensures source_fault { result.status ≡ Status.SourceFault → Rose (S.faults source.old) (S.faults source.new) }
    ensures sink_fault { result.status ≡ Status.SinkFault → Rose (K.faults sink.old) (K.faults sink.new) }
    ensures device { result.status ≡ Status.BadDevice → AreFit (D.state first) (D.state second) → ⊥ }
    ensures device_fault { result.status ≡ Status.DeviceFault → HasFailed (D.state first) (D.state result.first) ⊎ HasFailed (D.state second) (D.state result.second) }

    // What is not touched.
    ensures remote { IsBeforeEvents result.status → result.remote ≡ remote }
    ensures unwritten { IsBeforeWriting result.status → sink.new ≡ sink.old }
    ensures unused { IsBeforeDevice result.status → (result.first ≡ first) × (result.second ≡ second) }
{
    if words.is_empty() {
        return sourced(alloc, source, sink, first, second, remote);
    }
    PairFinish {
        status: Status::Usage,
        first,
        second,
        remote,
    }
}

/// Reads the source, does its script, and writes the report.
fn sourced<S: Source, K: Sink, D: Disk + Drop, R: Remote + Drop>(
    alloc: Global,
    source: &mut S,
    sink: &mut K,
    first: D,
    second: D,
    remote: R,
) -> PairFinish<D, R>
    ensures text { (text : List ℕ) × IsWhole (S.left source.old) text
        × OfText D.state R.told first second remote text (K.held sink.old) (K.held sink.new) (sink.new ≡ sink.old) (IsQuiet (S.faults source.old) (S.faults source.new) × IsQuiet (K.faults sink.old) (K.faults sink.new)) result.status result.first result.second result.remote }
    ensures only { result.status ≢ Status.Usage }
    ensures source_fault { result.status ≡ Status.SourceFault → Rose (S.faults source.old) (S.faults source.new) }
    ensures sink_fault { result.status ≡ Status.SinkFault → Rose (K.faults sink.old) (K.faults sink.new) }
    ensures device { result.status ≡ Status.BadDevice → AreFit (D.state first) (D.state second) → ⊥ }
    ensures device_fault { result.status ≡ Status.DeviceFault → HasFailed (D.state first) (D.state result.first) ⊎ HasFailed (D.state second) (D.state result.second) }
    ensures remote { IsBeforeEvents result.status → result.remote ≡ remote }
    ensures unwritten { IsBeforeWriting result.status → sink.new ≡ sink.old }
    ensures unused { IsBeforeDevice result.status → (result.first ≡ first) × (result.second ≡ second) }
{
    match read_all(alloc, source, MOST_SCRIPT_BYTES) {
        Ok(text) => scripted(alloc, &text, sink, first, second, remote),
        Err(fail) => PairFinish {
            status: unscripted(fail),
            first,
            second,
            remote,
        },
    }
}
