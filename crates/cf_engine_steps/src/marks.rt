//! Marks.

ghost use Rattle.std.specs.Prelude.{◌≡◌, ◌&&◌, IfOk, not};
ghost use Rattle.cf_base.specs.declared.changes.Change.TheVariants as change;
ghost use Rattle.cf_engine_steps.specs.Answering.{Answers, Any};
ghost use Rattle.cf_engine_steps.specs.Marks.{is_markable_at, number_at};
ghost use Rattle.cf_engine_steps.specs.States.{whole};
ghost use Rattle.cf_filter_steps.specs.Answering.{Any as AnyFilter, Reads as FilterReads};
ghost use Rattle.cf_model.specs.Numbers.{same_usn};
ghost use Rattle.cf_model.specs.Skips.{try_change, try_mark, try_mark_now};

use crate::changes::try_change;
use crate::engines::Engine;
use crate::targets::{NO_RID, stands_at_seen, target_of};
use cf_base::{CallError, Change, ItemId, OutOfMemory, Usn};
use cf_engine_host::EngineHost;
use cf_filter_steps::Steps;
use cf_remote::Remote;
use cf_table::{NO_USN, Row, same_usn};

/// Marks an item as in sync at this number, with its line, or leaves that out where it finds no room. Whether it was marked. An item
/// that is not there, or that is no placeholder, is never to be marked: then it is out of memory, and all is as before. A stop of the
/// device leaves what that of a change leaves.
pub fn mark<S: EngineHost, R: Remote>(
    s: &mut S,
    e: &mut Engine<R>,
    item: ItemId,
    number: Usn,
) -> Result<bool, CallError>
    ensures { Answers (whole S.sense R.told) Any (try_change (change.Mark item number)) (s.old, e.old) result (s.new, e.new) }
{
    let change = Change::Mark { item, number };
    try_change(s, e, &change)
}

// Whether the item has the number, is not in sync, and has no local writes that the base has not taken in.
fn is_settled(row: &Row, number: Usn) -> bool
    ensures { result ≡ (same_usn row.now.number number && not row.now.in_sync && not row.now.dirty) }
{
    same_usn(row.number, number) && !row.in_sync && !row.dirty
}

fn is_markable<S: EngineHost>(s: &S, item: ItemId, number: Usn) -> Result<bool, OutOfMemory>
    ensures { IfOk result (FilterReads S.sense AnyFilter (is_markable_at item number) s.now) }
{
    let Some(row) = s.rows().get(item) else {
        return Ok(false);
    };
    if !is_settled(row, number) {
        return Ok(false);
    }
    let target = target_of(row)?;
    if target.0 == NO_RID.0 {
        return Ok(false);
    }
    stands_at_seen(s, row)
}

/// Marks an item as in sync at this number where it has the number, is not in sync, has no local writes that the base has not taken in, has
/// a target, and stands at the path at which it was seen; elsewhere nothing is done. False where the mark was left out. What it reads of
/// an identity that no engine gave is out of memory, and all is as before. A stop of the device leaves what that of a change leaves.
pub fn try_mark<S: EngineHost, R: Remote>(
    s: &mut S,
    e: &mut Engine<R>,
    item: ItemId,
    number: Usn,
) -> Result<bool, CallError>
    ensures { Answers (whole S.sense R.told) Any (try_mark item number) (s.old, e.old) result (s.new, e.new) }
{
    let may = is_markable(s, item, number)?;
    if may {
        mark(s, e, item, number)
    } else {
        Ok(true)
    }
}

// The number that an item has, 0.0 for one that is gone.
fn number_of<S: Steps>(s: &S, item: ItemId) -> Usn
    ensures { FilterReads S.sense AnyFilter (number_at item) s.now result }
{
    match s.rows().get(item) {
        Some(row) => row.number,
        None => NO_USN,
    }
}

/// Marks an item as in sync at the number that it has, as `try_mark`.
pub fn try_mark_now<S: EngineHost, R: Remote>(
    s: &mut S,
    e: &mut Engine<R>,
    item: ItemId,
) -> Result<bool, CallError>
    ensures { Answers (whole S.sense R.told) Any (try_mark_now item) (s.old, e.old) result (s.new, e.new) }
{
    let number = number_of(s, item);
    try_mark(s, e, item, number)
}
