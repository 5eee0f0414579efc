//! Calls that are given as values. Who makes them on a type of its own shows once, and not at each call, that the type does the
//! steps.

ghost use Rattle.cf_filter_calls.specs.Parts.{asking_part, plain_part, question_part};
ghost use Rattle.cf_filter_steps.specs.Answering.{Answers, Any};

use crate::call_values::{AskingCall, PlainCall, Question};
use crate::commits::flush;
use crate::creations::create;
use crate::dehydrations::dehydrate;
use crate::handles::{cancel, close, connect, open_file};
use crate::item_facts::{info, ranges};
use crate::marks::{keep_full, set_in_sync};
use crate::moves::rename;
use crate::pins::set_pin;
use crate::placeholders::{convert, revert, unmark, update};
use crate::policies::{df, set_policy, used};
use crate::removals::delete;
use crate::ticks::tick;
use crate::waits::{get, hydrate, list, read};
use crate::writes::{set_size, write};
use cf_base::{CallError, Shown};
use cf_filter_steps::Steps;

/// Makes a call that asks a provider nothing, by its function. Refused as that says.
pub fn make<S: Steps>(s: &mut S, call: PlainCall<'_>) -> Result<Shown, CallError>
    ensures { Answers S.sense Any (plain_part call.entry) s.old result s.new }
{
    match call {
        PlainCall::OpenFile { path } => open_file(s, path),
        PlainCall::Flush => flush(s),
        PlainCall::SetPolicy { mode, policy } => set_policy(s, mode, policy),
        PlainCall::Connect { on } => connect(s, on),
        PlainCall::Create { path, what } => create(s, path, what),
        PlainCall::Convert { path, identity } => convert(s, path, identity),
        PlainCall::Revert { path } => revert(s, path),
        PlainCall::Update {
            path,
            identity,
            size,
        } => update(s, path, identity, size),
        PlainCall::Unmark { path } => unmark(s, path),
        PlainCall::Delete { mode, path } => delete(s, mode, path),
        PlainCall::Rename { from, to } => rename(s, from, to),
        PlainCall::SetPin { path, pin, reach } => set_pin(s, path, pin, reach),
    }
}

/// Makes a call that may ask a provider, by its function. Refused as that says. Its callbacks are still to be called.
pub fn ask<S: Steps>(s: &mut S, call: AskingCall<'_>) -> Result<Shown, CallError>
    ensures { Answers S.sense Any (asking_part call.entry) s.old result s.new }
{
    match call {
        AskingCall::Close { handle } => close(s, handle),
        AskingCall::Cancel { wait } => cancel(s, wait),
        AskingCall::Tick { ticks } => tick(s, ticks),
        AskingCall::Read { handle, span } => read(s, handle, span),
        AskingCall::Get { path, span } => get(s, path, span),
        AskingCall::List { path } => list(s, path),
        AskingCall::Hydrate { path } => hydrate(s, path),
        AskingCall::Dehydrate { path, range } => dehydrate(s, path, range),
        AskingCall::Write { handle, at, bytes } => write(s, handle, at, bytes),
        AskingCall::SetSize { handle, size } => set_size(s, handle, size),
        AskingCall::SetInSync { path, number } => set_in_sync(s, path, number),
        AskingCall::KeepFull { path, on } => keep_full(s, path, on),
    }
}

/// Answers a call that changes nothing, by its function. Refused as that says.
pub fn answer<S: Steps>(s: &S, question: Question<'_>) -> Result<Shown, CallError>
    ensures { Answers S.sense Any (question_part question.entry) s.now result s.now }
{
    match question {
        Question::Info { path } => info(s, path),
        Question::Ranges { path, class } => ranges(s, path, class),
        Question::Used { path } => used(s, path),
        Question::Df => df(s),
    }
}
