//! Changes that a call makes, one after the other.

ghost use Rattle.std.specs.Prelude.{◌≡◌, IfOk, OnOk, [], ◌∷◌};
ghost use Rattle.cf_base.specs.declared.codes.Code.TheVariants as code;
ghost use Rattle.cf_model.specs.Changes.{change as one_change, changes as all_changes};
ghost use Rattle.cf_model.specs.Words.{first_of};
ghost use Rattle.cf_filter_steps.specs.Answering.{Answers, Reads};
ghost use Rattle.cf_filter_steps.specs.Making.{Made};
ghost use Rattle.cf_filter_steps.specs.Readings.{room_refusal};
ghost use Rattle.cf_filter_steps.specs.Suiting.{Ready, ReadyAll, Suiting};

use crate::rooms::Room;
use crate::steps::Steps;
use cf_base::{CallError, Change, Code, OutOfMemory};

/// Makes a change that suits and finds room, from a copy of it, and tells it.
pub fn change_copied<S: Steps>(s: &mut S, change: &Change) -> Result<(), CallError>
    ensures does { Answers S.sense (Ready change.now) (one_change change.now) s.old result s.new }
    ensures same { OnOk result (S.waiting s.new ≡ S.waiting s.old) }
{
    let change = change.copy()?;
    s.change(change)
}

/// Makes changes that suit and find room, each in turn.
pub fn make_changes<S: Steps>(s: &mut S, changes: &[Change]) -> Result<(), CallError>
    ensures { Answers S.sense (ReadyAll changes.now) (all_changes changes.now) s.old result s.new }
{
    for change in changes {
        change_copied(s, change)?;
    }
    Ok(())
}

/// Why changes that suit find no room, in order: Exhausted, TableFull, Full.
pub fn refuse_room<S: Steps>(s: &S, changes: &[Change]) -> Result<Option<Code>, OutOfMemory>
    ensures { IfOk result (λ why. Reads S.sense (Suiting changes.now) (room_refusal changes.now) s.now why) }
{
    let room = s.room(changes)?;
    Ok(first_refusal(room))
}

fn first_refusal(room: Room) -> Option<Code>
    ensures { result ≡ first_of ((room.no_numbers, code.Exhausted) ∷ (room.no_table, code.TableFull) ∷ (room.no_blocks, code.Full) ∷ []) }
{
    if room.no_numbers {
        return Some(Code::Exhausted);
    }
    if room.no_table {
        return Some(Code::TableFull);
    }
    if room.no_blocks {
        return Some(Code::Full);
    }
    None
}

/// Makes changes that suit, or tells why they find no room: Exhausted, TableFull, Full. Then it makes none.
pub fn change_all<S: Steps>(s: &mut S, changes: &[Change]) -> Result<Option<Code>, CallError>
    ensures { Made S.sense changes.now s.old result s.new }
{
    if let Some(code) = refuse_room(s, changes)? {
        return Ok(Some(code));
    }
    make_changes(s, changes)?;
    Ok(None)
}
