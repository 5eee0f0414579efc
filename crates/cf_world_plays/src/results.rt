//! What is asked for of a script: its report, or what it leaves.

ghost use Rattle.std.specs.Prelude.{◌≡◌, ◌≢◌, ◌≤◌, IsTrue, length};
ghost use Rattle.std.specs.List.{list_all};
ghost use Rattle.cf_base.specs.declared.statuses.Status.TheVariants as status;
ghost use Rattle.cf_disk.specs.Disk.{HasFailed, size_of};
ghost use Rattle.cf_io.specs.Moves.{Rose};
ghost use Rattle.cf_journal.specs.Settled.{IsFitSize};
ghost use Rattle.cf_model.specs.Events.{is_of};
ghost use Rattle.cf_script.specs.Script.{IsScript};
ghost use Rattle.cf_world_plays.specs.Outputs.{WritesAsBy};
ghost use Rattle.cf_world_plays.specs.Runs.{IsPlayed, most_script};
ghost use Rattle.cf_world_plays.specs.declared.outputs.Ending.TheVariants as endings;
ghost use Rattle.cf_world_plays.specs.declared.outputs.Output.TheVariants as outputs;

use crate::conclusions::conclude;
use crate::outputs::Output;
use crate::reports::{Played, report};
use cf_base::Event;
use cf_disk::Disk;
use cf_filter_events::Actor;
use cf_io::Sink;
use std::alloc::Global;

/// Makes a volume on the disk, does the events, and writes what is asked for: the report, or what is there behind the last event. Disk and
/// actor come back as the events left them.
///
/// `Done` where all was written. `DeviceFault` where the device stopped the start, or the reads of its image behind the last event: then
/// nothing was written. `SinkFault` where the sink failed, `TooLong` where the report has too many bytes, and `OutOfMemory`.
pub fn put_out<K: Sink, D: Disk + Drop, A: Actor + Drop>(
    alloc: Global,
    output: Output,
    text: &[u8],
    events: Vec<Event>,
    sink: &mut K,
    disk: D,
    actor: A,
) -> Played<D, A>
    requires short { length text.now ≤ most_script }
    requires script { IsScript A.acts.mode text.now events.items }
    requires of { IsTrue (list_all (is_of A.acts.mode) events.items) }
    requires fit { IsFitSize (size_of (D.state disk)) }
    ensures writes { WritesAsBy D.state A.acts output disk actor text.now (K.held sink.old) (K.held sink.new) result.status result.disk result.actor }
    ensures only { IsPlayed result.status }
    ensures sink_fault { result.status ≡ status.SinkFault → Rose (K.faults sink.old) (K.faults sink.new) }
    ensures device_fault { result.status ≡ status.DeviceFault → output ≢ outputs.Ending endings.Image → HasFailed (D.state disk) (D.state result.disk) }
    ensures unwritten { result.status ≡ status.DeviceFault → sink.new ≡ sink.old }
    ensures unstarted { result.status ≡ status.DeviceFault → output ≢ outputs.Ending endings.Image → result.actor ≡ actor }
{
    match output {
        Output::Report => report(alloc, text, events, sink, disk, actor),
        Output::Ending(ending) => conclude(alloc, ending, text, events, sink, disk, actor),
    }
}
