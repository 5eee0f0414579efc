//! A script that is read and done, by the command that it is for.

ghost use Rattle.std.specs.Prelude.{◌≡◌, ◌≢◌, ◌≤◌, ◌+◌, List, None, length};
ghost use Rattle.cf_base.specs.declared.events.Event.{Event};
ghost use Rattle.cf_base.specs.declared.policies.Mode.TheVariants as modes;
ghost use Rattle.cf_disk.specs.Disk.{HasFailed, size_of};
ghost use Rattle.cf_io.specs.Moves.{IsQuiet, Rose};
ghost use Rattle.cf_journal.specs.Settled.{IsFitSize};
ghost use Rattle.cf_script.specs.Script.{IsScript};
ghost use Rattle.cf_world_plays.specs.Outputs.{WritesAs};
ghost use Rattle.cf_world_plays.specs.Runs.{IsAfterReading, IsBeforeEvents, IsComplete, IsPlayed, IsStarted, IsUnfit, WritesOf, most_script};
ghost use Rattle.cf_world_devices.specs.Ends.{IsBeforeDevice, IsBeforeWriting};
ghost use Rattle.cf_world_devices.specs.Sizes.{IsFit};
ghost use Rattle.cf_world_plays.specs.declared.outputs.Ending.TheVariants as endings;
ghost use Rattle.cf_world_plays.specs.declared.outputs.Output.TheVariants as outputs;

use crate::finishes::Finish;
use cf_base::{Event, Mode, Status};
use cf_disk::Disk;
use cf_engine::SyncActor;
use cf_io::Sink;
use cf_remote::Remote;
use cf_script::read;
use cf_world_devices::is_fit;
use cf_world_filter::ScriptActor;
use cf_world_plays::{Output, put_out, refuse, report};
use std::alloc::Global;

/// Reads the script, does its events, and writes what is asked for: of `filter` the report.
pub(crate) fn scripted<K: Sink, D: Disk + Drop, R: Remote + Drop>(
    alloc: Global,
    mode: Mode,
    output: Output,
    text: &[u8],
    sink: &mut K,
    disk: D,
    remote: R,
) -> Finish<D, R>
    requires short { length text.now ≤ most_script }
    requires report { mode ≡ modes.Filter → output ≡ outputs.Report }
    ensures writes { WritesAs D.state R.told output mode disk remote text.now (K.held sink.old) (K.held sink.new) result.status result.disk result.remote }
    ensures only { IsAfterReading result.status }
    ensures sink_fault { result.status ≡ Status.SinkFault → Rose (K.faults sink.old) (K.faults sink.new) }
    ensures bad { result.status ≡ Status.BadScript → (events : List Event) → IsScript mode text.now events → ⊥ }
    ensures device { result.status ≡ Status.BadDevice → IsFit (size_of (D.state disk)) → ⊥ }
    ensures unfit { (IsFit (size_of (D.state disk)) → ⊥) → (events : List Event) → IsScript mode text.now events → IsUnfit result.status }
    ensures device_fault { result.status ≡ Status.DeviceFault → output ≢ outputs.Ending endings.Image → HasFailed (D.state disk) (D.state result.disk) }
    ensures unwritten { IsBeforeWriting result.status → sink.new ≡ sink.old }
    ensures unused { IsBeforeDevice result.status → result.disk ≡ disk }
    ensures remote { IsBeforeEvents result.status → output ≢ outputs.Ending endings.Image → result.remote ≡ remote }
    ensures filter { mode ≡ modes.Filter → result.remote ≡ remote }
    ensures complete { IsQuiet (K.faults sink.old) (K.faults sink.new) → IsFit (size_of (D.state disk)) → (events : List Event) → IsScript mode text.now events → IsComplete result.status }
    ensures unexplained { result.explanation ≡ None }
{
    match read(alloc, text, mode) {
        Ok(events) => started(alloc, mode, output, text, events, sink, disk, remote),
        Err(fail) => Finish {
            status: refuse(alloc, mode, text, fail, sink),
            disk,
            remote,
            explanation: None,
        },
    }
}

// Begins with the events, where the device is fit.
fn started<K: Sink, D: Disk + Drop, R: Remote + Drop>(
    alloc: Global,
    mode: Mode,
    output: Output,
    text: &[u8],
    events: Vec<Event>,
    sink: &mut K,
    disk: D,
    remote: R,
) -> Finish<D, R>
    requires short { length text.now ≤ most_script }
    requires script { IsScript mode text.now events.items }
    requires report { mode ≡ modes.Filter → output ≡ outputs.Report }
    ensures writes { WritesAs D.state R.told output mode disk remote text.now (K.held sink.old) (K.held sink.new) result.status result.disk result.remote }
    ensures only { IsStarted result.status }
    ensures sink_fault { result.status ≡ Status.SinkFault → Rose (K.faults sink.old) (K.faults sink.new) }
    ensures device { result.status ≡ Status.BadDevice → IsFit (size_of (D.state disk)) → ⊥ }
    ensures unfit { (IsFit (size_of (D.state disk)) → ⊥) → result.status ≡ Status.BadDevice }
    ensures device_fault { result.status ≡ Status.DeviceFault → output ≢ outputs.Ending endings.Image → HasFailed (D.state disk) (D.state result.disk) }
    ensures unwritten { IsBeforeWriting result.status → sink.new ≡ sink.old }
    ensures unused { IsBeforeDevice result.status → result.disk ≡ disk }
    ensures remote { IsBeforeEvents result.status → output ≢ outputs.Ending endings.Image → result.remote ≡ remote }
    ensures filter { mode ≡ modes.Filter → result.remote ≡ remote }
    ensures unexplained { result.explanation ≡ None }
{
    if !is_fit(disk.size()) {
        drop(events);
        return Finish {
            status: Status::BadDevice,
            disk,
            remote,
            explanation: None,
        };
    }
    match mode {
        Mode::Replay => replayed(alloc, output, text, events, sink, disk, remote),
        Mode::Filter => filtered(alloc, text, events, sink, disk, remote),
    }
}

// Does the events with a sync engine, which has the remote.
fn replayed<K: Sink, D: Disk + Drop, R: Remote + Drop>(
    alloc: Global,
    output: Output,
    text: &[u8],
    events: Vec<Event>,
    sink: &mut K,
    disk: D,
    remote: R,
) -> Finish<D, R>
    requires short { length text.now ≤ most_script }
    requires script { IsScript modes.Replay text.now events.items }
    requires fit { IsFitSize (size_of (D.state disk)) }
    ensures writes { WritesAs D.state R.told output modes.Replay disk remote text.now (K.held sink.old) (K.held sink.new) result.status result.disk result.remote }
    ensures only { IsPlayed result.status }
    ensures sink_fault { result.status ≡ Status.SinkFault → Rose (K.faults sink.old) (K.faults sink.new) }
    ensures device_fault { result.status ≡ Status.DeviceFault → output ≢ outputs.Ending endings.Image → HasFailed (D.state disk) (D.state result.disk) }
    ensures unwritten { result.status ≡ Status.DeviceFault → sink.new ≡ sink.old }
    ensures unstarted { result.status ≡ Status.DeviceFault → output ≢ outputs.Ending endings.Image → result.remote ≡ remote }
    ensures unexplained { result.explanation ≡ None }
{
    let actor = SyncActor::new(alloc, remote);
    let played = put_out(alloc, output, text, events, sink, disk, actor);
    Finish {
        status: played.status,
        disk: played.disk,
        remote: played.actor.into_remote(),
        explanation: None,
    }
}

// Does the events with the provider that the script plans, which asks the remote nothing.
fn filtered<K: Sink, D: Disk + Drop, R: Remote + Drop>(
    alloc: Global,
    text: &[u8],
    events: Vec<Event>,
    sink: &mut K,
    disk: D,
    remote: R,
) -> Finish<D, R>
    requires short { length text.now ≤ most_script }
    requires script { IsScript modes.Filter text.now events.items }
    requires fit { IsFitSize (size_of (D.state disk)) }
    ensures writes { WritesOf D.state R.told modes.Filter disk remote text.now (K.held sink.old) (K.held sink.new) result.status result.disk result.remote }
    ensures only { IsPlayed result.status }
    ensures sink_fault { result.status ≡ Status.SinkFault → Rose (K.faults sink.old) (K.faults sink.new) }
    ensures device_fault { result.status ≡ Status.DeviceFault → HasFailed (D.state disk) (D.state result.disk) }
    ensures unwritten { result.status ≡ Status.DeviceFault → sink.new ≡ sink.old }
    ensures filter { result.remote ≡ remote }
    ensures unexplained { result.explanation ≡ None }
{
    let played = report(alloc, text, events, sink, disk, ScriptActor::new(alloc));
    Finish {
        status: played.status,
        disk: played.disk,
        remote,
        explanation: None,
    }
}
