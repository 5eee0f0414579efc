//! The top call.

ghost use Rattle.std.specs.Prelude.{◌≡◌, ◌≢◌, ◌⊎◌, ℕ, List, None, string_bytes, map};
ghost use Rattle.cf_base.specs.declared.policies.Mode.TheVariants as modes;
ghost use Rattle.cf_disk.specs.Disk.{HasFailed, size_of};
ghost use Rattle.cf_gen.specs.Scripts.{made_script};
ghost use Rattle.cf_io.specs.Moves.{Rose, IsQuiet, IsWhole};
ghost use Rattle.cf_cli.specs.Accounts.{AreTaken, Names};
ghost use Rattle.cf_cli.specs.declared.commands.Command.{Command as Meant};
ghost use Rattle.cf_cli.specs.declared.commands.Command.TheVariants as meant;
ghost use Rattle.cf_world.specs.Checks.{OfCheck};
ghost use Rattle.cf_world.specs.Commands.{OfCommand, words_status};
ghost use Rattle.cf_world_devices.specs.Migrations.{OfDevice};
ghost use Rattle.cf_world_plays.specs.Outputs.{OfText};
ghost use Rattle.cf_world_plays.specs.Runs.{IsBeforeEvents};
ghost use Rattle.cf_world_devices.specs.Ends.{IsBeforeDevice, IsBeforeWriting};
ghost use Rattle.cf_world_devices.specs.Sizes.{IsFit};
ghost use Rattle.cf_world_plays.specs.declared.outputs.Ending.TheVariants as endings;
ghost use Rattle.cf_world_plays.specs.declared.outputs.Output.TheVariants as outputs;

use crate::checks::{Checked, check_report};
use crate::finishes::Finish;
use crate::scripts::scripted;
use crate::sources::sourced;
use cf_base::{Mode, Status};
use cf_cli::{Command, WordsError, command_of};
use cf_disk::Disk;
use cf_gen::{gen_script, made_script_is_short, made_script_spells};
use cf_io::{Sink, Source};
use cf_remote::Remote;
use cf_world_devices::{judge, migrate};
use cf_world_plays::{Ending, Output};
use std::alloc::Global;

/// Does what the words after the program's name say. `replay` and `filter` read a script from the source, do its events on the disk and
/// the remote, and write the report to the sink; in `filter` the remote is not used. `state` and `image` do the script of `replay`, and
/// write the state that it leaves, or the bytes of the disk after a power cut. `gen` does a script that it makes, and writes a summary.
/// `migrate` reads the bytes of a device, and writes them in format 2; `scrub` judges them. `check` reads a script of `replay` with the
/// report that was recorded of it, and judges the report. What is promised of the remote is promised of one that was asked nothing yet,
/// where it reports how often it was asked.
pub fn run<S: Source, K: Sink, D: Disk + Drop, R: Remote + Drop>(
    alloc: Global,
    words: &[String],
    source: &mut S,
    sink: &mut K,
    disk: D,
    remote: R,
) -> Finish<D, R>
    // The words name a command, of which all holds that `OfCommand` says: what was written, by the status, and when each status comes.
    // Or the words are no command, or memory ran out while they were read; then nothing was touched.
    ensures words { ((c : Meant) × Names (map string_bytes words.now) c
        × OfCommand D.state R.told c disk remote (source.new ≡ source.old) (S.left source.old) (K.held sink.old) (K.held sink.new) (sink.new ≡ sink.old) (IsQuiet (S.faults source.old) (S.faults source.new) × IsQuiet (K.faults sink.old) (K.faults sink.new)) result.status result.disk result.remote)
        ⊎ (((result.status ≡ Status.Usage) ⊎ (result.status ≡ Status.OutOfMemory)) × (source.new ≡ source.old) × (sink.new ≡ sink.old) × (result.disk ≡ disk) × (result.remote ≡ remote)) }
    ensures usage { result.status ≡ Status.Usage → AreTaken (map string_bytes words.now) → ⊥ }
    ensures refused { (AreTaken (map string_bytes words.now) → ⊥) → (result.status ≡ Status.Usage) ⊎ (result.status ≡ Status.OutOfMemory) }

    // The cause of each status, of whatever text.
    ensures source_fault { result.status ≡ Status.SourceFault → Rose (S.faults source.old) (S.faults source.new) }
    ensures sink_fault { result.status ≡ Status.SinkFault → Rose (K.faults sink.old) (K.faults sink.new) }
    ensures device { result.status ≡ Status.BadDevice → IsFit (size_of (D.state disk)) → ⊥ }
    ensures device_fault { result.status ≡ Status.DeviceFault → (Names (map string_bytes words.now) meant.Image → ⊥) → HasFailed (D.state disk) (D.state result.disk) }

    // What is not touched.
    ensures remote { IsBeforeEvents result.status → (Names (map string_bytes words.now) meant.Image → ⊥) → result.remote ≡ remote }
    ensures unread { result.status ≡ Status.Usage → source.new ≡ source.old }
    ensures unwritten { IsBeforeWriting result.status → sink.new ≡ sink.old }
    ensures unused { IsBeforeDevice result.status → result.disk ≡ disk }
    ensures unexplained { result.status ≢ Status.Unlawful → result.explanation ≡ None }
{
    match command_of(alloc, words) {
        Ok(command) => commanded(alloc, command, source, sink, disk, remote),
        Err(fail) => Finish {
            status: unread(fail),
            disk,
            remote,
            explanation: None,
        },
    }
}

/// Does a command.
fn commanded<S: Source, K: Sink, D: Disk + Drop, R: Remote + Drop>(
    alloc: Global,
    command: Command,
    source: &mut S,
    sink: &mut K,
    disk: D,
    remote: R,
) -> Finish<D, R>
    ensures does { OfCommand D.state R.told command disk remote (source.new ≡ source.old) (S.left source.old) (K.held sink.old) (K.held sink.new) (sink.new ≡ sink.old) (IsQuiet (S.faults source.old) (S.faults source.new) × IsQuiet (K.faults sink.old) (K.faults sink.new)) result.status result.disk result.remote }
    ensures only { result.status ≢ Status.Usage }
    ensures source_fault { result.status ≡ Status.SourceFault → Rose (S.faults source.old) (S.faults source.new) }
    ensures sink_fault { result.status ≡ Status.SinkFault → Rose (K.faults sink.old) (K.faults sink.new) }
    ensures device { result.status ≡ Status.BadDevice → IsFit (size_of (D.state disk)) → ⊥ }
    ensures device_fault { result.status ≡ Status.DeviceFault → command ≢ meant.Image → HasFailed (D.state disk) (D.state result.disk) }
    ensures remote { IsBeforeEvents result.status → command ≢ meant.Image → result.remote ≡ remote }
    ensures unwritten { IsBeforeWriting result.status → sink.new ≡ sink.old }
    ensures unused { IsBeforeDevice result.status → result.disk ≡ disk }
    ensures unexplained { result.status ≢ Status.Unlawful → result.explanation ≡ None }
{
    match command {
        Command::Replay => sourced(
            alloc,
            Mode::Replay,
            Output::Report,
            source,
            sink,
            disk,
            remote,
        ),
        Command::Filter => sourced(
            alloc,
            Mode::Filter,
            Output::Report,
            source,
            sink,
            disk,
            remote,
        ),
        Command::State => left(alloc, Ending::State, source, sink, disk, remote),
        Command::Image => left(alloc, Ending::Image, source, sink, disk, remote),
        Command::Gen(number) => made(alloc, number, sink, disk, remote),
        Command::Migrate => migrated(alloc, source, sink, disk, remote),
        Command::Scrub => {
            let status = judge(alloc, source, sink);
            Finish {
                status,
                disk,
                remote,
                explanation: None,
            }
        }
        Command::Check => judged(alloc, source, sink, disk, remote),
    }
}

/// Migrates the device whose bytes the source has.
fn migrated<S: Source, K: Sink, D: Disk, R: Remote>(
    alloc: Global,
    source: &mut S,
    sink: &mut K,
    mut disk: D,
    remote: R,
) -> Finish<D, R>
    ensures bytes { (bytes : List ℕ) × IsWhole (S.left source.old) bytes × OfDevice (D.state disk) (D.state result.disk) bytes (K.held sink.old) (K.held sink.new) (IsQuiet (S.faults source.old) (S.faults source.new) × IsQuiet (K.faults sink.old) (K.faults sink.new)) result.status }
    ensures remote { result.remote ≡ remote }
    ensures only { result.status ≢ Status.Usage }
    ensures source_fault { result.status ≡ Status.SourceFault → Rose (S.faults source.old) (S.faults source.new) }
    ensures sink_fault { result.status ≡ Status.SinkFault → Rose (K.faults sink.old) (K.faults sink.new) }
    ensures device { result.status ≡ Status.BadDevice → IsFit (size_of (D.state disk)) → ⊥ }
    ensures device_fault { result.status ≡ Status.DeviceFault → HasFailed (D.state disk) (D.state result.disk) }
    ensures unwritten { IsBeforeWriting result.status → sink.new ≡ sink.old }
    ensures unused { IsBeforeDevice result.status → result.disk ≡ disk }
    ensures unexplained { result.explanation ≡ None }
{
    let status = migrate(alloc, source, sink, &mut disk);
    Finish {
        status,
        disk,
        remote,
        explanation: None,
    }
}

/// Judges the report that the source has behind its script.
fn judged<S: Source, K: Sink, D: Disk, R: Remote>(
    alloc: Global,
    source: &mut S,
    sink: &mut K,
    disk: D,
    remote: R,
) -> Finish<D, R>
    ensures text { (text : List ℕ) × IsWhole (S.left source.old) text × OfCheck text (K.held sink.old) (K.held sink.new) (sink.new ≡ sink.old) (IsQuiet (S.faults source.old) (S.faults source.new) × IsQuiet (K.faults sink.old) (K.faults sink.new)) result.status }
    ensures disk { result.disk ≡ disk }
    ensures remote { result.remote ≡ remote }
    ensures only { result.status ≢ Status.Usage }
    ensures source_fault { result.status ≡ Status.SourceFault → Rose (S.faults source.old) (S.faults source.new) }
    ensures sink_fault { result.status ≡ Status.SinkFault → Rose (K.faults sink.old) (K.faults sink.new) }
    ensures unwritten { IsBeforeWriting result.status → sink.new ≡ sink.old }
    ensures unexplained { result.status ≢ Status.Unlawful → result.explanation ≡ None }
{
    let Checked {
        status,
        explanation,
    } = check_report(alloc, source, sink);
    Finish {
        status,
        disk,
        remote,
        explanation,
    }
}

/// Makes the script of a number, does it, and writes its summary.
fn made<K: Sink, D: Disk + Drop, R: Remote + Drop>(
    alloc: Global,
    number: u32,
    sink: &mut K,
    disk: D,
    remote: R,
) -> Finish<D, R>
    ensures text { (n : ℕ) → OfText D.state R.told (outputs.Ending endings.Summary) modes.Replay disk remote (made_script number) (K.held sink.old) (K.held sink.new) (sink.new ≡ sink.old) (IsQuiet n n × IsQuiet (K.faults sink.old) (K.faults sink.new)) result.status result.disk result.remote }
    ensures only { (result.status ≢ Status.Usage) × (result.status ≢ Status.SourceFault) }
    ensures sink_fault { result.status ≡ Status.SinkFault → Rose (K.faults sink.old) (K.faults sink.new) }
    ensures device { result.status ≡ Status.BadDevice → IsFit (size_of (D.state disk)) → ⊥ }
    ensures device_fault { result.status ≡ Status.DeviceFault → HasFailed (D.state disk) (D.state result.disk) }
    ensures remote { IsBeforeEvents result.status → result.remote ≡ remote }
    ensures unwritten { IsBeforeWriting result.status → sink.new ≡ sink.old }
    ensures unused { IsBeforeDevice result.status → result.disk ≡ disk }
    ensures unexplained { result.explanation ≡ None }
{
    made_script_spells();
    made_script_is_short();
    match gen_script(alloc, number) {
        Ok(text) => {
            let output = Output::Ending(Ending::Summary);
            let finish = scripted(
                alloc,
                Mode::Replay,
                output,
                text.as_slice(),
                sink,
                disk,
                remote,
            );
            drop(text);
            finish
        }
        Err(_error) => Finish {
            status: Status::OutOfMemory,
            disk,
            remote,
            explanation: None,
        },
    }
}

fn unread(fail: WordsError) -> Status
    ensures { result ≡ words_status fail }
{
    match fail {
        WordsError::Usage => Status::Usage,
        WordsError::OutOfMemory => Status::OutOfMemory,
    }
}

/// Reads the script of `replay` from the source, and writes what it leaves.
fn left<S: Source, K: Sink, D: Disk + Drop, R: Remote + Drop>(
    alloc: Global,
    ending: Ending,
    source: &mut S,
    sink: &mut K,
    disk: D,
    remote: R,
) -> Finish<D, R>
    ensures text { (text : List ℕ) × IsWhole (S.left source.old) text × OfText D.state R.told (outputs.Ending ending) modes.Replay disk remote text (K.held sink.old) (K.held sink.new) (sink.new ≡ sink.old) (IsQuiet (S.faults source.old) (S.faults source.new) × IsQuiet (K.faults sink.old) (K.faults sink.new)) result.status result.disk result.remote }
    ensures only { result.status ≢ Status.Usage }
    ensures source_fault { result.status ≡ Status.SourceFault → Rose (S.faults source.old) (S.faults source.new) }
    ensures sink_fault { result.status ≡ Status.SinkFault → Rose (K.faults sink.old) (K.faults sink.new) }
    ensures device { result.status ≡ Status.BadDevice → IsFit (size_of (D.state disk)) → ⊥ }
    ensures device_fault { result.status ≡ Status.DeviceFault → outputs.Ending ending ≢ outputs.Ending endings.Image → HasFailed (D.state disk) (D.state result.disk) }
    ensures remote { IsBeforeEvents result.status → outputs.Ending ending ≢ outputs.Ending endings.Image → result.remote ≡ remote }
    ensures unwritten { IsBeforeWriting result.status → sink.new ≡ sink.old }
    ensures unused { IsBeforeDevice result.status → result.disk ≡ disk }
    ensures unexplained { result.explanation ≡ None }
{
    sourced(
        alloc,
        Mode::Replay,
        Output::Ending(ending),
        source,
        sink,
        disk,
        remote,
    )
}
