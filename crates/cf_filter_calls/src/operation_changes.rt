//! A change of an operation, and the step after it.

ghost use Rattle.std.specs.Prelude.{◌≡◌, ◌&&◌, ◌||◌, IfOk};
ghost use Rattle.cf_ask_rule.specs.Deeds.{deed_of};
ghost use Rattle.cf_base.specs.declared.ids.ItemId.{ItemId};
ghost use Rattle.cf_filter_calls.specs.Operating.{IsOperable, IsOperableBy, MayChangeBy, change_code, change_refusal, changed_then, operated};
ghost use Rattle.cf_model.specs.Requests.{Deed};
ghost use Rattle.cf_waits.specs.Steps.{IsPlanned};
ghost use Rattle.cf_filter_steps.specs.Answering.{Answers, Reads};

use cf_ask_rule::Act;
use cf_base::{CallError, Change, Code, ItemId, OutOfMemory, Shown};
use cf_filter_steps::{Room, Steps, look_after, settle_by};
use cf_waits::Step;
use std::slice;

fn change_code(room: Room, counts: bool, many: bool, none: bool) -> Option<Code>
    ensures { result ≡ change_code room.no_table room.no_blocks (counts && many) (room.no_numbers || none) }
{
    if room.no_table {
        return Some(Code::TableFull);
    }
    if room.no_blocks {
        return Some(Code::Full);
    }
    if counts && many {
        return Some(Code::TooManyAsks);
    }
    if room.no_numbers || none {
        return Some(Code::Exhausted);
    }
    None
}

// Why the change is not made: TableFull, Full, TooManyAsks where that counts, Exhausted.
fn refuse_change<S: Steps>(
    s: &S,
    change: &Change,
    step: &Step,
    counts: bool,
) -> Result<Option<Code>, OutOfMemory>
    ensures { IfOk result (λ why. (item : ItemId) (d : Deed) → Reads S.sense (IsOperableBy item change.now d step.now) (change_refusal counts item change.now d) s.now why) }
{
    let room = s.room(slice::from_ref(change))?;
    let many = s.requests().has_too_many_asks(step);
    let none = s.requests().has_no_numbers(step);
    Ok(change_code(room, counts, many, none))
}

// Makes the change, and does the step that was worked out for what is after it.
fn change_then<S: Steps>(s: &mut S, change: Change, step: Step) -> Result<Shown, CallError>
    requires { IsPlanned step (S.waiting s.old) }
    ensures { (item : ItemId) (d : Deed) → Answers S.sense (MayChangeBy item change d step) (changed_then item change d) s.old result s.new }
{
    match s.change(change) {
        Ok(_) => {
            settle_by(s, step)?;
            Ok(Shown::Done)
        }
        Err(fail) => {
            drop(step);
            Err(fail)
        }
    }
}

/// Makes a change that gives or takes bytes, and does the step after it, or tells why not: TableFull, Full, TooManyAsks
/// where that counts, Exhausted.
pub(crate) fn operate<S: Steps>(
    s: &mut S,
    item: ItemId,
    change: Change,
    act: Act,
    counts: bool,
) -> Result<Shown, CallError>
    ensures { Answers S.sense (IsOperable item change) (operated counts item change (deed_of act)) s.old result s.new }
{
    let Ok(step) = look_after(s, item, &change, act) else {
        drop(change);
        return Err(CallError::OutOfMemory);
    };
    match refuse_change(s, &change, &step, counts) {
        Ok(Some(code)) => {
            drop(change);
            drop(step);
            Ok(Shown::Refused(code))
        }
        Ok(None) => change_then(s, change, step),
        Err(_) => {
            drop(change);
            drop(step);
            Err(CallError::OutOfMemory)
        }
    }
}
