//! A mark or a keep flag, after which a wait may miss more bytes, and so may make asks.

ghost use Rattle.std.specs.Prelude.{◌≡◌, IfOk};
ghost use Rattle.cf_filter_calls.specs.Asking.{Asks, Flagging, IsAsking, LooksWith, MayAskBy, asking_code, asking_refusal, with_step};
ghost use Rattle.cf_filter_calls.specs.Planned.{by_keep, by_mark};
ghost use Rattle.cf_model.specs.Calls.{number_of};
ghost use Rattle.cf_model.specs.Items.{Item};
ghost use Rattle.cf_model.specs.Operations.{done};
ghost use Rattle.cf_model.specs.Placements.{asking, keep_full, keep_item, mark, mark_item};
ghost use Rattle.cf_base.specs.declared.ids.ItemId.{ItemId};
ghost use Rattle.cf_waits.specs.Steps.{IsPlanned};
ghost use Rattle.cf_filter_steps.specs.Answering.{Answers, Any, IsAt, Reads};
ghost use Rattle.cf_filter_steps.specs.Finding.{Plans};

use crate::items::{number_at, refused_by};
use cf_ask_rule::Act;
use cf_base::{CallError, Change, Code, ItemId, OutOfMemory, Sequence, Shown, Usn};
use cf_filter_steps::{Steps, change_copied, find_at, look, look_after, settle_by};
use cf_item_rules::{plan_keep, plan_mark};
use cf_waits::Step;

// The step on the item after the change, which is one or none.
fn look_with<S: Steps>(s: &S, id: ItemId, changes: &[Change]) -> Result<Step, OutOfMemory>
    ensures planned { IfOk result (λ p. IsPlanned p (S.waiting s.now)) }
    ensures looks { IfOk result (λ p. LooksWith S.sense id changes.now p s.now) }
{
    match changes.first() {
        Some(change) => look_after(s, id, change, Act::Nothing),
        None => look(s, id, Act::Nothing),
    }
}

fn asking_code(many: bool, none: bool) -> Option<Code>
    ensures { result ≡ asking_code many none }
{
    if many {
        return Some(Code::TooManyAsks);
    }
    if none {
        return Some(Code::Exhausted);
    }
    None
}

// Why the change is not made: TooManyAsks, Exhausted.
fn refuse_asking<S: Steps>(
    s: &S,
    changes: &[Change],
    step: &Step,
) -> Result<Option<Code>, OutOfMemory>
    ensures { IfOk result (λ why. (id : ItemId) → Reads S.sense (IsAsking id changes.now step.now) (asking_refusal id changes.now) s.now why) }
{
    let room = s.room(changes)?;
    let many = s.requests().has_too_many_asks(step);
    let none = s.requests().has_no_numbers(step);
    Ok(asking_code(many, room.no_numbers || none))
}

// Makes the change, and does the step that was worked out for what is after it.
fn make_with<S: Steps>(s: &mut S, changes: &[Change], step: Step) -> Result<(), CallError>
    requires { IsPlanned step (S.waiting s.old) }
    ensures { (id : ItemId) → Answers S.sense (MayAskBy id changes.now step) (with_step id changes.now) s.old result s.new }
{
    match changes.first() {
        Some(change) => match change_copied(s, change) {
            Ok(_) => settle_by(s, step),
            Err(fail) => {
                drop(step);
                Err(fail)
            }
        },
        None => {
            drop(step);
            Ok(())
        }
    }
}

// The change and the step after it, or why they are refused.
fn ask_on<S: Steps>(s: &mut S, id: ItemId, changes: &[Change]) -> Result<Option<Code>, CallError>
    ensures { Asks S.sense id changes.now s.old result s.new }
{
    let step = look_with(s, id, changes)?;
    match refuse_asking(s, changes, &step) {
        Ok(Some(code)) => {
            drop(step);
            Ok(Some(code))
        }
        Ok(None) => {
            make_with(s, changes, step)?;
            Ok(None)
        }
        Err(_) => {
            drop(step);
            Err(CallError::OutOfMemory)
        }
    }
}

fn mark_with<S: Steps>(s: &mut S, id: ItemId, changes: &[Change]) -> Result<Shown, CallError>
    ensures { Answers S.sense (Flagging id changes.now) (asking id (number_of id) changes.now) s.old result s.new }
{
    match ask_on(s, id, changes)? {
        Some(code) => Ok(Shown::Refused(code)),
        None => Ok(Shown::Number(number_at(s, id))),
    }
}

fn mark_plan<S: Steps>(s: &S, id: ItemId, number: Usn) -> Result<Sequence<Change>, CallError>
    ensures { Plans S.sense id (by_mark number) s.now result }
{
    match s.rows().get(id) {
        Some(row) => plan_mark(s.alloc(), row, number),
        None => Err(CallError::No(Code::NotFound)),
    }
}

fn mark_item<S: Steps>(s: &mut S, id: ItemId, number: Usn) -> Result<Shown, CallError>
    ensures { (i : Item) → Answers S.sense (IsAt id i) (mark_item number i) s.old result s.new }
{
    match mark_plan(s, id, number) {
        Ok(changes) => mark_with(s, id, changes.as_slice()),
        Err(fail) => refused_by(fail),
    }
}

/// A placeholder is in sync (CfSetInSyncState), where this is its number; 0.0 is any. Gives its number. Refused as the
/// look-up, NotPlaceholder, UsnMismatch with its number, TooManyAsks, Exhausted.
pub fn set_in_sync<S: Steps>(s: &mut S, path: &str, number: Usn) -> Result<Shown, CallError>
    ensures { Answers S.sense Any (mark path.now number) s.old result s.new }
{
    match find_at(s, path) {
        Ok(id) => mark_item(s, id, number),
        Err(code) => Ok(Shown::Refused(code)),
    }
}

fn keep_with<S: Steps>(s: &mut S, id: ItemId, changes: &[Change]) -> Result<Shown, CallError>
    ensures { Answers S.sense (Flagging id changes.now) (asking id done changes.now) s.old result s.new }
{
    match ask_on(s, id, changes)? {
        Some(code) => Ok(Shown::Refused(code)),
        None => Ok(Shown::Done),
    }
}

fn keep_plan<S: Steps>(s: &S, id: ItemId, on: bool) -> Result<Sequence<Change>, CallError>
    ensures { Plans S.sense id (by_keep on) s.now result }
{
    match s.rows().get(id) {
        Some(row) => plan_keep(s.alloc(), row, on),
        None => Err(CallError::No(Code::NotFound)),
    }
}

fn keep_item<S: Steps>(s: &mut S, id: ItemId, on: bool) -> Result<Shown, CallError>
    ensures { (i : Item) → Answers S.sense (IsAt id i) (keep_item on i) s.old result s.new }
{
    match keep_plan(s, id, on) {
        Ok(changes) => keep_with(s, id, changes.as_slice()),
        Err(fail) => refused_by(fail),
    }
}

/// Whether a placeholder file is kept full, so that each read of it needs all of it. Refused as the look-up, IsDirectory,
/// NotPlaceholder, TooManyAsks, Exhausted.
pub fn keep_full<S: Steps>(s: &mut S, path: &str, on: bool) -> Result<Shown, CallError>
    ensures { Answers S.sense Any (keep_full path.now on) s.old result s.new }
{
    match find_at(s, path) {
        Ok(id) => keep_item(s, id, on),
        Err(code) => Ok(Shown::Refused(code)),
    }
}
