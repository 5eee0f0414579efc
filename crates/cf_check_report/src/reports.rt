//! A whole report.

ghost use Rattle.std.specs.Prelude.{◌≡◌, ◌≤◌, ◌<◌, ◌+◌, ◌^◌, IfOk, drop, length};
ghost use Rattle.cf_check_judge.specs.Judge.{at_end};
ghost use Rattle.cf_check_model.specs.Judging.{IsVerdict};
ghost use Rattle.cf_model.specs.Words.{is_empty};

use crate::devices::Device;
use crate::differences::{Difference, Judgement};
use crate::judgements::{Judge, Judged};
use crate::restarts::next_count;
use cf_base::{Blob, Event, OutOfMemory};
use cf_check_compare::after;
use cf_check_model::Verdict;
use std::alloc::Global;

// Where the rest of a report begins in it.
fn place(report: &[u8], rest: &[u8]) -> usize {
    report.len().saturating_sub(rest.len())
}

// The events behind the one at this index.
fn behind(events: &[Event], index: usize) -> &[Event]
    requires { index < length events.now }
    ensures { result.now ≡ drop (index + 1) events.now }
{
    &events[index + 1..]
}

// A verdict without a difference.
fn plain(verdict: Verdict) -> Judgement
    ensures { result.verdict ≡ verdict }
{
    Judgement {
        verdict,
        difference: None,
    }
}

// The report is unlawful at this event, of which these lines were expected.
fn unlawful(event: u32, place: usize, expected: Blob) -> Judgement
    ensures { result.verdict ≡ Verdict.Unlawful event }
{
    Judgement {
        verdict: Verdict::Unlawful(event),
        difference: Some(Difference {
            event,
            place,
            expected,
        }),
    }
}

// What is said once all events are done.
fn at_end(rest: &[u8], done: u32, place: usize, expected: Blob) -> Judgement
    ensures { result.verdict ≡ at_end (is_empty rest.now) done }
{
    if rest.is_empty() {
        drop(expected);
        plain(Verdict::Lawful)
    } else {
        unlawful(done, place, expected)
    }
}

/// Judges a report of these events, of a device with so many clusters, at most 65,536, in which nothing has happened, and a remote that is empty
/// at the start. The verdict is the only one that is right. Fails as out of memory where there is no memory, or the device gives an answer of
/// more than 2,147,483,647 bytes.
pub fn judge<D: Device + Drop>(
    alloc: Global,
    clusters: u32,
    events: &[Event],
    report: &[u8],
) -> Result<Judgement, OutOfMemory>
    requires clusters { clusters ≤ 65536 }
    requires events { length events.now < 2 ^ 32 }
    requires report { length report.now < 2 ^ 31 }
    ensures { IfOk result (λ j. IsVerdict events.now report.now clusters j.verdict) }
{
    let device = D::start(alloc, clusters, next_count(events, report))?;
    let expected = Blob::from_vec(Vec::new(alloc));
    let mut judge = Judge { device, expected };
    let mut rest = report;
    let mut done: u32 = 0;
    for (index, event) in events.iter().enumerate() {
        let (next, judged) = judge.judge(alloc, event, behind(events, index), rest);
        judge = next;
        match judged {
            Ok(Judged::GoesOn(len)) => {
                rest = after(rest, len);
                done += 1;
            }
            Ok(Judged::Wrong) => {
                let expected = judge.into_expected();
                return Ok(unlawful(done + 1, place(report, rest), expected));
            }
            Ok(Judged::Open) => {
                drop(judge);
                return Ok(plain(Verdict::Undecided(done + 1)));
            }
            Err(fail) => {
                drop(judge);
                return Err(fail);
            }
        }
    }
    let expected = judge.into_expected();
    Ok(at_end(rest, done, place(report, rest), expected))
}
