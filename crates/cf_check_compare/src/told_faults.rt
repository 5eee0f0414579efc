//! Which requests failed at the remote, by the lines of a report.

ghost use Rattle.std.specs.Prelude.{◌≡◌, ◌∷◌, ◌==◌, [], IfOk, map, position};
ghost use Rattle.cf_check_compare.specs.Told.{goes_on, tellings_before_result};
ghost use Rattle.cf_check_judge.specs.Judge.{is_fault_next, is_reply_word, is_request_line, telling_of, tellings_for};
ghost use Rattle.cf_check_model.specs.Reports.{lines_of};

use crate::lines::{RESULT, after, begins, next_line};
use cf_base::{EngineEvent, Event, OutOfMemory};
use std::alloc::Global;

/// The result of an event of another device whose request failed.
pub(crate) const PEER_FAULT: &[u8] = b"= refused RemoteFault\n";

const FAULT: &[u8] = b"- fault ";

const SENT: &[u8] = b"- sent ";

/// Which of the requests of an event failed, in order, by the report from the event's answer on. An event of another device makes one
/// request at most, which failed where the answer is RemoteFault. Under an inline link each request that was sent comes to the remote at once,
/// and it failed where the next line says so. Fails as out of memory where there is no memory for the list.
pub fn tellings(alloc: Global, event: &Event, rest: &[u8]) -> Result<Vec<bool>, OutOfMemory>
    ensures { IfOk result (λ v. map telling_of v.items ≡ tellings_for event.now rest.now) }
{
    match event {
        Event::Peer(_) => one(alloc, begins(PEER_FAULT, rest)),
        Event::Engine(EngineEvent::Arrive { .. }) => one(alloc, is_fault_next(rest)),
        _ => by_lines(alloc, rest),
    }
}

fn one(alloc: Global, fails: bool) -> Result<Vec<bool>, OutOfMemory>
    ensures { IfOk result (λ v. v.items ≡ fails ∷ []) }
{
    let mut told = Vec::new(alloc);
    told.push(fails)?;
    Ok(told)
}

// By the lines before the next result.
fn by_lines(alloc: Global, rest: &[u8]) -> Result<Vec<bool>, OutOfMemory>
    ensures { IfOk result (λ v. map telling_of v.items ≡ tellings_before_result rest.now) }
{
    let mut told = Vec::new(alloc);
    let mut left = rest;
    while goes_on(left) {
        let (line, more) = next_line(left);
        if is_request(line) {
            told.push(is_fault_next(more))?;
        }
        left = more;
    }
    Ok(told)
}

// Whether a line is left that is none of a result.
fn goes_on(left: &[u8]) -> bool
    ensures { result ≡ goes_on left.now }
{
    !left.is_empty() && !begins(RESULT, left)
}

// Whether the next line says that a request failed.
fn is_fault_next(rest: &[u8]) -> bool
    ensures { result ≡ is_fault_next (lines_of rest.now) }
{
    begins(FAULT, rest)
}

fn first_space(text: &[u8]) -> Option<usize>
    ensures { result ≡ position (λ b. b == 32) text.now }
{
    text.iter().position(|b| *b == b' ')
}

// A reply has the word `reply` after its number, and a request another one.
fn is_reply_word(number: &[u8]) -> bool
    ensures { result ≡ is_reply_word number.now }
{
    match first_space(number) {
        Some(end) => begins(b" reply ", after(number, end)),
        None => false,
    }
}

fn is_request(line: &[u8]) -> bool
    ensures { result ≡ is_request_line line.now }
{
    begins(SENT, line) && !is_reply_word(after(line, SENT.len()))
}
