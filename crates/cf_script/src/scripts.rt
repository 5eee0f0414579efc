//! Scripts.

ghost use Rattle.std.specs.Prelude.{◌≡◌, ◌+◌, ◌<◌, ◌^◌, ◌==◌, List, ◌∷◌, length, position, IfOk, IfErr, MatchResult, IsTrue};
ghost use Rattle.std.specs.List.{list_all};
ghost use Rattle.cf_base.specs.declared.events.Event.{Event};
ghost use Rattle.cf_script.specs.Script.{IsScript, lines_of, is_event_line};
ghost use Rattle.cf_script.specs.Fits.{is_of};
ghost use Rattle.cf_script.specs.FailEvents.{IsCause};

use crate::lines::event_of_line;
use crate::script_errors::ScriptError;
use cf_base::{Event, Mode};
use std::alloc::Global;

/// The most events that a script has.
pub const MOST_EVENTS: usize = 100_000;

fn line_end(text: &[u8]) -> Option<usize>
    ensures { result ≡ position (λ b. b == 10) text.now }
{
    text.iter().position(|b| *b == b'\n')
}

/// The first line of a text that is not empty, without its end, and what stands after it.
pub fn next_line(text: &[u8]) -> (&[u8], &[u8])
    requires { 0 < length text.now }
    ensures line { lines_of text.now ≡ result.0.now ∷ lines_of result.1.now }
    ensures shorter { length result.1.now < length text.now }
{
    match line_end(text) {
        Some(end) => (&text[..end], &text[end + 1..]),
        None => (text, &[]),
    }
}

/// Whether a line has an event: it is neither empty nor a comment.
pub fn is_event_line(line: &[u8]) -> bool
    ensures { result ≡ is_event_line line.now }
{
    match line {
        [] => false,
        [first, ..] => *first != b'#',
    }
}

fn read_lines(alloc: Global, text: &[u8], mode: Mode) -> Result<Vec<Event>, ScriptError>
    requires { length text.now < 2 ^ 32 }
    ensures ok { IfOk result (λ events. IsScript mode text.now events.items) }
    ensures cause { IfErr result (IsCause mode (lines_of text.now)) }
{
    let mut events = Vec::new(alloc);
    let mut rest = text;
    let mut number: u32 = 0;
    while !rest.is_empty() {
        let (line, after) = next_line(rest);
        number += 1;
        rest = after;
        if is_event_line(line) {
            let event = match event_of_line(alloc, mode, line) {
                Ok(Some(event)) => event,
                Ok(None) => return Err(ScriptError::Syntax(number)),
                Err(_) => return Err(ScriptError::OutOfMemory),
            };
            if events.len() == MOST_EVENTS {
                drop(event);
                return Err(ScriptError::TooManyEvents(number));
            }
            events.push(event)?;
        }
    }
    Ok(events)
}

/// The events of a script, in order. The text has less than 4 GiB.
///
/// Refused as Syntax or TooManyEvents with the number of the first line that is bad or has one event too many, and as OutOfMemory.
pub fn read(alloc: Global, text: &[u8], mode: Mode) -> Result<Vec<Event>, ScriptError>
    requires { length text.now < 2 ^ 32 }
    ensures ok { IfOk result (λ events. IsScript mode text.now events.items) }
    ensures of { IfOk result (λ events. IsTrue (list_all (is_of mode) events.items)) }
    ensures cause { IfErr result (IsCause mode (lines_of text.now)) }
    ensures complete { (events : List Event) → IsScript mode text.now events → MatchResult result (λ read. read.items ≡ events) (λ fail. fail ≡ ScriptError.OutOfMemory) }
{
    read_lines(alloc, text, mode)
}
