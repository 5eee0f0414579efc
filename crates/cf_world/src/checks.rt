//! A recorded report, judged.

ghost use Rattle.std.specs.Prelude.{◌≡◌, ◌≢◌, ◌⊎◌, ◌≤◌, ◌<◌, ◌^◌, IfOk, List, None, length, string_bytes, ℕ};
ghost use Rattle.cf_base.specs.declared.events.Event.{Event as Done};
ghost use Rattle.cf_base.specs.declared.statuses.Status.TheVariants as ends;
ghost use Rattle.cf_io.specs.Moves.{IsQuiet, IsWhole, Rose};
ghost use Rattle.cf_world.specs.Checks.{CheckWrites, IsRecording, OfCheck, most_checked, unmarked_line, verdict_line, verdict_status};
ghost use Rattle.cf_world.specs.Judged.{PutsLine, PutsVerdict};
ghost use Rattle.cf_world_devices.specs.Ends.{IsBeforeWriting};

use crate::explanations::explain;
use crate::recordings::{next_number, parts};
use cf_base::{Event, Mode, OutOfMemory, Status};
use cf_check_model::Verdict;
use cf_check_world::{Difference, Judgement, check};
use cf_io::{Sink, Source, read_all};
use cf_script::{ScriptError, read};
use cf_world_devices::written;
use cf_world_plays::{early, refuse, unscripted, write_fail};
use std::alloc::{AllocError, Global};

/// The most bytes of a script with its report.
const MOST_CHECKED: usize = 83_886_090;

/// The clusters of the device whose report is judged.
const CLUSTERS: u32 = 15_616;

/// How a check ended, and what a person reads of a report that is unlawful.
#[derive(Drop)]
pub(crate) struct Checked {
    pub(crate) status: Status,
    pub(crate) explanation: Option<String>,
}

// A check that ended so, and is not explained.
fn plain(status: Status) -> Checked
    ensures status { result.status ≡ status }
    ensures plain { result.explanation ≡ None }
{
    Checked {
        status,
        explanation: None,
    }
}

/// Reads a script and its report from the source, judges the report, and writes the verdict.
pub(crate) fn check_report<S: Source, K: Sink>(
    alloc: Global,
    source: &mut S,
    sink: &mut K,
) -> Checked
    ensures text { (text : List ℕ) × IsWhole (S.left source.old) text
        × OfCheck text (K.held sink.old) (K.held sink.new) (sink.new ≡ sink.old) (IsQuiet (S.faults source.old) (S.faults source.new) × IsQuiet (K.faults sink.old) (K.faults sink.new)) result.status }
    ensures only { result.status ≢ ends.Usage }
    ensures source_fault { result.status ≡ ends.SourceFault → Rose (S.faults source.old) (S.faults source.new) }
    ensures sink_fault { result.status ≡ ends.SinkFault → Rose (K.faults sink.old) (K.faults sink.new) }
    ensures unwritten { IsBeforeWriting result.status → sink.new ≡ sink.old }
    ensures unexplained { result.status ≢ ends.Unlawful → result.explanation ≡ None }
{
    match read_all(alloc, source, MOST_CHECKED) {
        Ok(text) => {
            let checked = judge_text(alloc, &text, sink);
            drop(text);
            checked
        }
        Err(fail) => plain(unscripted(fail)),
    }
}

// Judges the report in a text, and writes the verdict.
fn judge_text<K: Sink>(alloc: Global, text: &[u8], sink: &mut K) -> Checked
    requires { length text.now ≤ most_checked }
    ensures writes { CheckWrites text.now (K.held sink.old) (K.held sink.new) result.status }
    ensures bad { result.status ≡ ends.BadScript → (events : List Done) (report : List ℕ) → IsRecording text.now events report → ⊥ }
    ensures read { result.status ≢ ends.SourceFault }
    ensures sink_fault { result.status ≡ ends.SinkFault → Rose (K.faults sink.old) (K.faults sink.new) }
    ensures unexplained { result.status ≢ ends.Unlawful → result.explanation ≡ None }
{
    let Some((script, report)) = parts(text) else {
        return plain(unmarked(alloc, text, sink));
    };
    match read(alloc, script, Mode::Replay) {
        Ok(events) => {
            let checked = judge_report(alloc, script, events.as_slice(), report, sink);
            drop(events);
            checked
        }
        Err(fail) => plain(refuse(alloc, Mode::Replay, script, fail, sink)),
    }
}

// A text without a report is bad behind its last line.
fn unmarked<K: Sink>(alloc: Global, text: &[u8], sink: &mut K) -> Status
    requires { length text.now ≤ most_checked }
    ensures writes { PutsLine (unmarked_line text.now) ends.BadScript (K.held sink.old) (K.held sink.new) result }
    ensures sink_fault { result ≡ ends.SinkFault → Rose (K.faults sink.old) (K.faults sink.new) }
{
    match write_fail(alloc, ScriptError::Syntax(next_number(text)), sink) {
        Ok(()) => Status::BadScript,
        Err(fail) => early(fail),
    }
}

// Judges the report of these events, which the script spells, and writes the verdict.
fn judge_report<K: Sink>(
    alloc: Global,
    script: &[u8],
    events: &[Event],
    report: &[u8],
    sink: &mut K,
) -> Checked
    requires events { length events.now < 2 ^ 32 }
    requires report { length report.now < 2 ^ 31 }
    ensures puts { PutsVerdict events.now report.now (K.held sink.old) (K.held sink.new) result.status }
    ensures sink_fault { result.status ≡ ends.SinkFault → Rose (K.faults sink.old) (K.faults sink.new) }
    ensures unexplained { result.status ≢ ends.Unlawful → result.explanation ≡ None }
{
    match check(alloc, events, report, CLUSTERS) {
        Ok(
            Judgement {
                verdict,
                difference,
            },
        ) => {
            let status = put(alloc, verdict, sink);
            let explanation = explained(alloc, status, script, report, difference);
            Checked {
                status,
                explanation,
            }
        }
        Err(OutOfMemory) => plain(Status::OutOfMemory),
    }
}

// What is read of a report that was said to be unlawful. None where there is no memory for it.
fn explained(
    alloc: Global,
    status: Status,
    script: &[u8],
    report: &[u8],
    difference: Option<Difference>,
) -> Option<String>
    ensures { status ≢ ends.Unlawful → result ≡ None }
{
    let explanation = match (status, &difference) {
        (Status::Unlawful, Some(difference)) => explain(alloc, script, report, difference).ok(),
        _ => None,
    };
    drop(difference);
    explanation
}

// Writes the line of a verdict.
fn put<K: Sink>(alloc: Global, verdict: Verdict, sink: &mut K) -> Status
    ensures puts { PutsLine (verdict_line verdict) (verdict_status verdict) (K.held sink.old) (K.held sink.new) result }
    ensures sink_fault { result ≡ ends.SinkFault → Rose (K.faults sink.old) (K.faults sink.new) }
{
    let (line, said) = line_of(alloc, verdict);
    match line {
        Ok(line) => {
            let status = ended(said, written(sink, line.as_str().as_bytes()));
            drop(line);
            status
        }
        Err(_error) => Status::OutOfMemory,
    }
}

// The line of a verdict, and the status that reports it.
fn line_of(alloc: Global, verdict: Verdict) -> (Result<String, AllocError>, Status)
    ensures line { IfOk result.0 (λ t. string_bytes t ≡ verdict_line verdict) }
    ensures status { result.1 ≡ verdict_status verdict }
{
    match verdict {
        Verdict::Lawful => (String::from_str(alloc, "lawful\n"), Status::Done),
        Verdict::Unlawful(event) => (format!(in alloc; "unlawful {event}\n"), Status::Unlawful),
        Verdict::Undecided(event) => (format!(in alloc; "undecided {event}\n"), Status::Undecided),
    }
}

// The status of a verdict whose line was written, or not.
fn ended(said: Status, written: Status) -> Status
    requires { (written ≡ ends.Done) ⊎ (written ≡ ends.SinkFault) }
    ensures done { written ≡ ends.Done → result ≡ said }
    ensures fault { written ≡ ends.SinkFault → result ≡ ends.SinkFault }
{
    match written {
        Status::Done => said,
        status => status,
    }
}
