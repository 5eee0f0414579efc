//! An answer and how the report goes on.

ghost use Rattle.std.specs.Prelude.{◌≡◌, ◌||◌, ◌&&◌, IfOk, not};
ghost use Rattle.cf_check_compare.specs.Alone.{asks_none};
ghost use Rattle.cf_check_compare.specs.Passed.{IsCompared, IsComparison, IsTextOf, meets_peer, plainly};
ghost use Rattle.cf_check_text.specs.Clean.{is_clean};
ghost use Rattle.cf_check_traces.specs.Tests.{differs_plainly, is_device, is_request, meets_lines};

use crate::answers::{is_clean, is_device, is_fault};
use crate::events::asks_none;
use crate::lines::{after, begins, next_line};
use crate::told_faults::PEER_FAULT;
use cf_base::{Answer, Event, Frame, Notice, OutOfMemory, PeerEvent};
use cf_report::text;
use std::alloc::Global;

/// The most bytes of an answer that is compared.
const MOST_ANSWER: usize = 2_147_483_647;

/// How a report goes on beside an answer.
#[derive(Clone, Copy)]
pub enum Comparison {
    /// With the answer, which has so many bytes.
    GoesOn(usize),
    /// With other bytes.
    Differs,
    /// The answer fails a test that each answer passes which is given by what the report tells of the remote.
    Lost,
}

fn is_request(frame: &Frame) -> bool
    ensures { result ≡ is_request frame.now }
{
    match frame {
        Frame::Request(_) => true,
        Frame::Reply { .. } => false,
    }
}

// Whether a report that does not go on with the line does not go on with the other way that the remote may have taken.
fn differs_plainly(notice: &Notice, rest: &[u8]) -> bool
    ensures { result ≡ differs_plainly notice.now rest.now }
{
    match notice {
        Notice::Fault { message: _ } => !begins(b"- sent ", rest) && !begins(b"- lost ", rest),
        Notice::Message(sent) => is_request(&sent.frame) || !begins(b"- fault ", rest),
        _ => true,
    }
}

// Whether the lines of an answer meet what the report tells of requests that failed. The text of the answer begins with these lines.
fn meets_lines(notices: &[Notice], expected: &[u8], rest: &[u8]) -> bool
    requires { IsTextOf notices.now expected.now }
    ensures { result ≡ meets_lines notices.now rest.now }
{
    let mut lines = expected;
    let mut left = rest;
    for notice in notices {
        let (line, more) = next_line(lines);
        if !begins(line, left) {
            return differs_plainly(notice, left);
        }
        lines = more;
        left = after(left, line.len());
    }
    true
}

// Whether the result meets what the report tells of another device's request.
fn meets_peer(event: &Event, answer: &Answer, rest: &[u8]) -> bool
    ensures { result ≡ meets_peer event.now answer.now rest.now }
{
    match event {
        Event::Peer(event) => meets_fault(event, answer, rest),
        _ => true,
    }
}

fn meets_fault(event: &PeerEvent, answer: &Answer, rest: &[u8]) -> bool
    ensures { result ≡ (plainly answer.now rest.now || asks_none event.now) }
{
    is_plain(answer, rest) || asks_none(event)
}

// The answer has no lines, and is RemoteFault exactly where the report says so.
fn is_plain(answer: &Answer, rest: &[u8]) -> bool
    ensures { result ≡ plainly answer.now rest.now }
{
    answer.notes.as_slice().is_empty() && is_fault(&answer.shown) == begins(PEER_FAULT, rest)
}

// Whether the result of a clean answer meets what the report tells.
fn meets_result(event: &Event, answer: &Answer, rest: &[u8]) -> bool
    ensures { result ≡ (not (is_device answer.now.shown) && is_clean answer.now && meets_peer event.now answer.now rest.now) }
{
    !is_device(&answer.shown) && is_clean(answer) && meets_peer(event, answer, rest)
}

/// How the report goes on beside an answer to the event. Where it does not fail, it says Lost exactly where the answer fails a test that each
/// answer passes which is given by what the report tells of the remote. Fails as out of memory where there is no memory for the text of the
/// answer, or it has more than 2,147,483,647 bytes.
pub fn compare(
    alloc: Global,
    event: &Event,
    answer: &Answer,
    rest: &[u8],
) -> Result<Comparison, OutOfMemory>
    ensures { IfOk result (IsComparison event.now answer.now rest.now) }
{
    if !meets_result(event, answer, rest) {
        return Ok(Comparison::Lost);
    }
    let expected = text(alloc, answer)?;
    let compared = compared(answer.notes.as_slice(), expected.as_slice(), rest);
    drop(expected);
    compared
}

fn compared(notices: &[Notice], expected: &[u8], rest: &[u8]) -> Result<Comparison, OutOfMemory>
    requires { IsTextOf notices.now expected.now }
    ensures { IfOk result (IsCompared notices.now expected.now rest.now) }
{
    if !meets_lines(notices, expected, rest) {
        Ok(Comparison::Lost)
    } else if expected.len() > MOST_ANSWER {
        Err(OutOfMemory)
    } else if begins(expected, rest) {
        Ok(Comparison::GoesOn(expected.len()))
    } else {
        Ok(Comparison::Differs)
    }
}
