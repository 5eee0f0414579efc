//! Operations on asks, as the engine does them outside a callback.

ghost use Rattle.std.specs.Prelude.{◌≡◌};
ghost use Rattle.cf_base.specs.declared.answers.Shown.TheVariants as shown;
ghost use Rattle.cf_engine_messages.specs.Refusals.{refusal_of};
ghost use Rattle.cf_engine_steps.specs.Answering.{Answers, Any};
ghost use Rattle.cf_engine_steps.specs.States.{whole};
ghost use Rattle.cf_model.specs.Arrows.{seq};
ghost use Rattle.cf_model.specs.Fetching.{after_transfer, do_op, refuse_for, take_bytes};
ghost use Rattle.cf_model.specs.Operations.{execute};
ghost use Rattle.cf_model.specs.State.{in_filter};

use cf_base::{Blob, CallError, Code, Key, Operation, Shown, Span};
use cf_engine_host::EngineHost;
use cf_engine_steps::{Engine, skip};
use cf_filter_calls::execute;
use cf_remote::Remote;

/// Why an operation was refused.
pub(crate) fn refusal_of(shown: &Shown) -> Option<Code>
    ensures { result ≡ refusal_of shown.now }
{
    match shown {
        Shown::Refused(code) => Some(*code),
        _ => None,
    }
}

/// An operation, whatever it is answered.
pub(crate) fn do_op<S: EngineHost, R: Remote>(
    s: &mut S,
    e: &mut Engine<R>,
    op: &Operation,
) -> Result<(), CallError>
    ensures { Answers (whole S.sense R.told) Any (do_op op.now) (s.old, e.old) result (s.new, e.new) }
{
    let _ = &e;
    let shown = execute(s, op)?;
    drop(shown);
    Ok(())
}

// The step is left out, and no bytes come for the span.
fn refuse_for<S: EngineHost, R: Remote>(
    s: &mut S,
    e: &mut Engine<R>,
    key: Key,
    span: Span,
    code: Code,
) -> Result<(), CallError>
    ensures { Answers (whole S.sense R.told) Any (refuse_for key span code) (s.old, e.old) result (s.new, e.new) }
{
    skip(s, e, code)?;
    let refuse = Operation::Refuse {
        key,
        span,
        status: code.number(),
    };
    do_op(s, e, &refuse)
}

// What follows bytes that were refused.
fn after_transfer<S: EngineHost, R: Remote>(
    s: &mut S,
    e: &mut Engine<R>,
    key: Key,
    span: Span,
    code: Code,
) -> Result<(), CallError>
    ensures { Answers (whole S.sense R.told) Any (after_transfer key span (shown.Refused code)) (s.old, e.old) result (s.new, e.new) }
{
    match code {
        Code::Full => refuse_for(s, e, key, span, code),
        Code::TableFull => refuse_for(s, e, key, span, code),
        Code::TooManyAsks => skip(s, e, code),
        Code::Exhausted => skip(s, e, code),
        _ => Ok(()),
    }
}

// Bytes of the ask with this key.
fn transfer<S: EngineHost, R: Remote>(
    s: &mut S,
    e: &mut Engine<R>,
    key: Key,
    span: Span,
    transfer: &Operation,
) -> Result<(), CallError>
    ensures { Answers (whole S.sense R.told) Any (seq (in_filter (execute transfer.now)) (after_transfer key span)) (s.old, e.old) result (s.new, e.new) }
{
    let shown = execute(s, transfer)?;
    let refused = refusal_of(&shown);
    drop(shown);
    match refused {
        Some(code) => after_transfer(s, e, key, span, code),
        None => Ok(()),
    }
}

/// Bytes: a Transfer. One that finds no room is followed by a Refuse of the same span with that code's number; where too many asks would
/// be live, or no number is left, the step is left out and the ask stays live.
pub fn take_bytes<S: EngineHost, R: Remote>(
    s: &mut S,
    e: &mut Engine<R>,
    key: Key,
    start: u32,
    bytes: Blob,
) -> Result<(), CallError>
    ensures { Answers (whole S.sense R.told) Any (take_bytes key start bytes) (s.old, e.old) result (s.new, e.new) }
{
    let at = start as u64;
    let span = Span {
        start: at,
        len: bytes.as_slice().len() as u64,
    };
    let op = Operation::Transfer { key, at, bytes };
    let done = transfer(s, e, key, span, &op);
    drop(op);
    done
}
