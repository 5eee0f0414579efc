//! Scripts of two devices.

ghost use Rattle.std.specs.Prelude.{◌≡◌, ◌<◌, ◌^◌, List, length, IfOk, IfErr, MatchResult};
ghost use Rattle.cf_pair_events.specs.declared.events.PairEvent.{PairEvent};
ghost use Rattle.cf_pair_script.specs.Causes.{IsCause};
ghost use Rattle.cf_pair_script.specs.PairScript.{IsScript};
ghost use Rattle.cf_script.specs.Script.{lines_of};
ghost use Rattle.cf_script.specs.declared.script_errors.ScriptError.TheVariants as fails;

use crate::lines::event_of_line;
use cf_base::Sequence;
use cf_pair_events::PairEvent;
use cf_script::{MOST_EVENTS, ScriptError, is_event_line, next_line};
use std::alloc::Global;

fn read_lines(alloc: Global, text: &[u8]) -> Result<Vec<PairEvent>, ScriptError>
    requires { length text.now < 2 ^ 32 }
    ensures ok { IfOk result (λ events. IsScript text.now events.items) }
    ensures cause { IfErr result (IsCause (lines_of text.now)) }
{
    let mut events = Vec::new(alloc);
    let mut rest = text;
    let mut number: u32 = 0;
    while !rest.is_empty() {
        let (line, after) = next_line(rest);
        number += 1;
        rest = after;
        if is_event_line(line) {
            let Some(event) = event_of_line(alloc, line)? else {
                return Err(ScriptError::Syntax(number));
            };
            if events.len() == MOST_EVENTS {
                drop(event);
                return Err(ScriptError::TooManyEvents(number));
            }
            events.push(event)?;
        }
    }
    Ok(events)
}

/// The events of a script of two devices, in order. The text has less than 4 GiB.
///
/// Refused as Syntax or TooManyEvents with the number of the first line that is bad or has one event too many, and as OutOfMemory.
pub fn read(alloc: Global, text: &[u8]) -> Result<Sequence<PairEvent>, ScriptError>
    requires { length text.now < 2 ^ 32 }
    ensures ok { IfOk result (λ events. IsScript text.now events) }
    ensures cause { IfErr result (IsCause (lines_of text.now)) }
    ensures complete { (events : List PairEvent) → IsScript text.now events → MatchResult result (λ read. read ≡ events) (λ fail. fail ≡ fails.OutOfMemory) }
{
    let events = read_lines(alloc, text)?;
    Ok(Sequence::from_vec(events))
}
