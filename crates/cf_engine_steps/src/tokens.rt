//! Tokens of uploads, and rounds of feeds.

ghost use Rattle.cf_engine_steps.specs.Answering.{Answers, Any, Reads};
ghost use Rattle.cf_engine_steps.specs.Readings.{token_left};
ghost use Rattle.cf_engine_steps.specs.States.{whole};
ghost use Rattle.cf_model.specs.Passes.{try_round};
ghost use Rattle.cf_model.specs.Pushes.{try_token};

use crate::engines::Engine;
use crate::skips::leave_out;
use cf_base::{CallError, Code, Key, Token};
use cf_engine_host::EngineHost;
use cf_remote::Remote;

/// The token that the next upload gets. None where the epoch has given 2^32 - 1.
pub fn next_token<S: EngineHost, R: Remote>(s: &S, e: &Engine<R>) -> Option<Token>
    ensures { Reads (whole S.sense R.told) Any token_left (s.now, e.now) result }
{
    match e.volatile().tokens().checked_add(1) {
        Some(number) => Some(Token(Key {
            epoch: s.epoch(),
            number,
        })),
        None => None,
    }
}

/// Draws a token, or leaves it out as Exhausted where none is left. Whether one was drawn. It never meets the device. Out of memory
/// leaves at most the line of a skip without its count.
pub fn try_token<S: EngineHost, R: Remote>(s: &mut S, e: &mut Engine<R>) -> Result<bool, CallError>
    ensures { Answers (whole S.sense R.told) Any try_token (s.old, e.old) result (s.new, e.new) }
{
    if e.draw_token() {
        return Ok(true);
    }
    leave_out(s, e, Code::Exhausted)
}

/// Draws a round, from which on only the reply to its feed counts, or leaves it out as Exhausted where none is left. Whether one was
/// drawn. It never meets the device. Out of memory leaves at most the line of a skip without its count.
pub fn try_round<S: EngineHost, R: Remote>(s: &mut S, e: &mut Engine<R>) -> Result<bool, CallError>
    ensures { Answers (whole S.sense R.told) Any try_round (s.old, e.old) result (s.new, e.new) }
{
    if e.draw_round() {
        return Ok(true);
    }
    leave_out(s, e, Code::Exhausted)
}
