//! Consent of a provider to a dehydration, or none.

ghost use Rattle.std.specs.Prelude.{List, IfOk, false, true};
ghost use Rattle.cf_base.specs.declared.answers.AuxRecord.{AuxRecord};
ghost use Rattle.cf_base.specs.declared.ids.Key.{Key};
ghost use Rattle.cf_base.specs.declared.operations.Operation.TheVariants as operation;
ghost use Rattle.cf_filter_calls.specs.Consenting.{IsConsent, MayConsent, MayLeave, consented, emptied_then, finished_by, finished_now, lacks_places, used_beside};
ghost use Rattle.cf_filter_calls.specs.Operating.{IsLiveFor};
ghost use Rattle.cf_model.specs.Books.{Book};
ghost use Rattle.cf_model.specs.Operations.{ack_dehydrate, second_verdict};
ghost use Rattle.cf_model.specs.Requests.{Live};
ghost use Rattle.cf_filter_steps.specs.Answering.{Answers, Any, Reads};

use crate::dehydrations::judge;
use crate::items::lacks_place;
use crate::transfers::is_near;
use cf_ask_rule::Act;
use cf_base::{Ask, CallError, Cause, Change, Code, OutOfMemory, Shown};
use cf_filter_steps::{Steps, make_changes, settle};
use std::slice;

// Whether a handle is open on the ask's file, or a wait on it is live other than the ask's own.
fn is_used_beside<S: Steps>(s: &S, ask: &Ask) -> bool
    ensures { (a : Live) → Reads S.sense (IsConsent ask.now a) (used_beside a) s.now result }
{
    if s.is_open(ask.item) {
        return true;
    }
    s.requests().busy_beside(ask.item, ask.key)
}

// The verdict, taken again.
fn judge_again<S: Steps>(s: &S, ask: &Ask) -> Option<Code>
    ensures { (a : Live) → Reads S.sense (IsConsent ask.now a) (second_verdict a) s.now result }
{
    let used = is_used_beside(s, ask);
    judge(s, ask.item, ask.span.start, ask.span.len, used)
}

// Whether more numbers are given than there are, without a change.
fn lacks_places<S: Steps>(s: &S) -> Result<bool, OutOfMemory>
    ensures { IfOk result (λ b. Reads S.sense Any lacks_places s.now b) }
{
    let room = s.room(&[])?;
    Ok(room.no_numbers)
}

/// The ask is answered, and its waits end so.
pub(crate) fn finish_now<S: Steps>(s: &mut S, ask: &Ask, cause: Cause) -> Result<Shown, CallError>
    ensures { Answers S.sense Any (finished_now ask.now cause) s.old result s.new }
{
    let key = ask.key;
    settle(s, ask.item, Act::Finishes { key, cause })?;
    Ok(Shown::Done)
}

/// The same. Refused as Exhausted where more numbers are given than there are.
pub(crate) fn finish<S: Steps>(s: &mut S, ask: &Ask, cause: Cause) -> Result<Shown, CallError>
    ensures { Answers S.sense Any (finished_by ask.now cause) s.old result s.new }
{
    let full = lacks_places(s)?;
    if full {
        Ok(Shown::Refused(Code::Exhausted))
    } else {
        finish_now(s, ask, cause)
    }
}

// The bytes leave, and the wait ends with that.
fn empty_then<S: Steps>(s: &mut S, ask: &Ask) -> Result<Shown, CallError>
    ensures { Answers S.sense (MayLeave ask.now) (emptied_then ask.now) s.old result s.new }
{
    let change = Change::Emptied {
        item: ask.item,
        start: ask.span.start,
        len: ask.span.len,
    };
    let made = make_changes(s, slice::from_ref(&change));
    drop(change);
    match made {
        Ok(_) => finish_now(s, ask, Cause::Emptied),
        Err(fail) => Err(fail),
    }
}

// Consent to what the verdict allows. The span is one of a file, and so it is near.
fn consent<S: Steps>(s: &mut S, ask: &Ask) -> Result<Shown, CallError>
    ensures { (a : Live) → Answers S.sense (MayConsent ask.now a) (consented ask.now) s.old result s.new }
{
    if !is_near(ask.span) {
        return Err(CallError::OutOfMemory);
    }
    if lacks_place(s) {
        return Ok(Shown::Refused(Code::Exhausted));
    }
    empty_then(s, ask)
}

fn consent_by<S: Steps>(s: &mut S, ask: &Ask) -> Result<Shown, CallError>
    ensures { (key : Key) (f : Book → Book) (records : List AuxRecord) (a : Live) → Answers S.sense (IsLiveFor f (operation.AckDehydrate key true) ask.now records a) (ack_dehydrate a true) s.old result s.new }
{
    match judge_again(s, ask) {
        Some(code) => finish(s, ask, Cause::Refused(code)),
        None => consent(s, ask),
    }
}

fn decline<S: Steps>(s: &mut S, ask: &Ask) -> Result<Shown, CallError>
    ensures { (key : Key) (f : Book → Book) (records : List AuxRecord) (a : Live) → Answers S.sense (IsLiveFor f (operation.AckDehydrate key false) ask.now records a) (ack_dehydrate a false) s.old result s.new }
{
    finish(s, ask, Cause::Failed(1))
}

/// The provider consents to a dehydrate ask, or does not. With consent the verdict is taken again, but for the ask's own
/// wait: where it allows the range its bytes leave, else the wait ends with that refusal. Refused as Exhausted.
pub(crate) fn ack_dehydrate<S: Steps>(s: &mut S, ask: &Ask, good: bool) -> Result<Shown, CallError>
    ensures { (key : Key) (f : Book → Book) (records : List AuxRecord) (a : Live) → Answers S.sense (IsLiveFor f (operation.AckDehydrate key good) ask.now records a) (ack_dehydrate a good) s.old result s.new }
{
    if good {
        consent_by(s, ask)
    } else {
        decline(s, ask)
    }
}
