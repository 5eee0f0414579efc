//! A script that is read from a source.

ghost use Rattle.std.specs.Prelude.{◌≡◌, ◌≢◌, List, None, ℕ};
ghost use Rattle.cf_base.specs.declared.policies.Mode.TheVariants as modes;
ghost use Rattle.cf_disk.specs.Disk.{HasFailed, size_of};
ghost use Rattle.cf_io.specs.Moves.{IsQuiet, IsWhole, Rose};
ghost use Rattle.cf_world_devices.specs.Ends.{IsBeforeDevice, IsBeforeWriting};
ghost use Rattle.cf_world_devices.specs.Sizes.{IsFit};
ghost use Rattle.cf_world_plays.specs.Outputs.{OfText};
ghost use Rattle.cf_world_plays.specs.Runs.{IsBeforeEvents};
ghost use Rattle.cf_world_plays.specs.declared.outputs.Ending.TheVariants as endings;
ghost use Rattle.cf_world_plays.specs.declared.outputs.Output.TheVariants as outputs;

use crate::finishes::Finish;
use crate::scripts::scripted;
use cf_base::{Mode, Status};
use cf_disk::Disk;
use cf_io::{Sink, Source, read_all};
use cf_remote::Remote;
use cf_world_plays::{MOST_SCRIPT_BYTES, Output, unscripted};
use std::alloc::Global;

/// Reads the source, does its script, and writes what is asked for.
pub(crate) fn sourced<S: Source, K: Sink, D: Disk + Drop, R: Remote + Drop>(
    alloc: Global,
    mode: Mode,
    output: Output,
    source: &mut S,
    sink: &mut K,
    disk: D,
    remote: R,
) -> Finish<D, R>
    requires report { mode ≡ modes.Filter → output ≡ outputs.Report }
    ensures text { (text : List ℕ) × IsWhole (S.left source.old) text × OfText D.state R.told output mode disk remote text (K.held sink.old) (K.held sink.new) (sink.new ≡ sink.old) (IsQuiet (S.faults source.old) (S.faults source.new) × IsQuiet (K.faults sink.old) (K.faults sink.new)) result.status result.disk result.remote }
    ensures remote { IsBeforeEvents result.status → output ≢ outputs.Ending endings.Image → result.remote ≡ remote }
    ensures filter { mode ≡ modes.Filter → result.remote ≡ remote }
    ensures only { result.status ≢ Status.Usage }
    ensures source_fault { result.status ≡ Status.SourceFault → Rose (S.faults source.old) (S.faults source.new) }
    ensures sink_fault { result.status ≡ Status.SinkFault → Rose (K.faults sink.old) (K.faults sink.new) }
    ensures device { result.status ≡ Status.BadDevice → IsFit (size_of (D.state disk)) → ⊥ }
    ensures device_fault { result.status ≡ Status.DeviceFault → output ≢ outputs.Ending endings.Image → HasFailed (D.state disk) (D.state result.disk) }
    ensures unwritten { IsBeforeWriting result.status → sink.new ≡ sink.old }
    ensures unused { IsBeforeDevice result.status → result.disk ≡ disk }
    ensures unexplained { result.explanation ≡ None }
{
    match read_all(alloc, source, MOST_SCRIPT_BYTES) {
        Ok(text) => scripted(alloc, mode, output, &text, sink, disk, remote),
        Err(fail) => Finish {
            status: unscripted(fail),
            disk,
            remote,
            explanation: None,
        },
    }
}
