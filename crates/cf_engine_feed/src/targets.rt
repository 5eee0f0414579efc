//! The local items by the item of the remote that each is.

ghost use Rattle.std.specs.Prelude.{◌≡◌, IfOk, List, None, OnOk, option_copied};
ghost use Rattle.cf_engine_feed.specs.Indexes.{IsIndex, target_at};
ghost use Rattle.cf_engine_feed.specs.Targets.{IsFirst, IsFirstBy, IsFirstSaid, Refreshes, is_parent_of, open_id};
ghost use Rattle.cf_model.specs.Identities.{has_target, target_of};
ghost use Rattle.cf_model.specs.Items.{Item};
ghost use Rattle.cf_model.specs.Words.{part};
ghost use Rattle.cf_table.specs.Means.{Means};
ghost use Rattle.cf_table.specs.Tables.{MeansAll};
ghost use Rattle.cf_tree.specs.Trees.{RiseFrom};

use crate::indexes::{SEVERAL, Targets};
use cf_base::{ItemId, OutOfMemory, Rid};
use cf_engine_steps::target_of;
use cf_table::{Row, Rows};

fn has_target(row: &Row, rid: Rid) -> Result<bool, OutOfMemory>
    ensures { IfOk result (λ b. (i : Item) → Means row.now i → b ≡ has_target i rid) }
{
    let target = target_of(row)?;
    Ok(0 < rid.0 && target.0 == rid.0)
}

fn is_parent_of(row: &Row, rid: Rid) -> Result<bool, OutOfMemory>
    ensures { IfOk result (λ b. (i : Item) → Means row.now i → b ≡ is_parent_of rid i) }
{
    let same = has_target(row, rid)?;
    Ok(same && row.dir && row.populated)
}

/// The first item by id that the item of the remote is, row by row. It takes time by the rows, and no memory: it is out of memory only where
/// no engine gave an identity.
pub fn walk_item(rows: &[Row], rid: Rid) -> Result<Option<ItemId>, OutOfMemory>
    ensures { IfOk result (IsFirst (λ i. has_target i rid) rows.now) }
{
    for row in rows {
        if has_target(row, rid)? {
            return Ok(Some(row.id));
        }
    }
    Ok(None)
}

// The first directory by id that the item of the remote is, and whose entries have come, row by row.
fn walk_parent(rows: &[Row], rid: Rid) -> Result<Option<ItemId>, OutOfMemory>
    ensures { IfOk result (IsFirst (is_parent_of rid) rows.now) }
{
    for row in rows {
        if is_parent_of(row, rid)? {
            return Ok(Some(row.id));
        }
    }
    Ok(None)
}

// The item of an entry of the index, or of several.
fn item_by(rows: &Rows, rid: Rid, id: u64) -> Result<Option<ItemId>, OutOfMemory>
    ensures { IfOk result (IsFirstSaid (λ i. has_target i rid) rid rows.now.rows id) }
{
    if id == SEVERAL {
        let item = walk_item(rows.as_slice(), rid)?;
        return Ok(item);
    }
    Ok(Some(ItemId(id)))
}

/// The first item by id that the item of the remote is. It takes steps as the logarithm of the items, where one alone is it.
pub(crate) fn find_item(
    targets: &Targets,
    rows: &Rows,
    rid: Rid,
) -> Result<Option<ItemId>, OutOfMemory>
    ensures { IfOk result (IsFirstBy (λ i. has_target i rid) targets.now rows.now.rows) }
{
    if rid.0 == 0 {
        return Ok(None);
    }
    match targets.get(rid.0) {
        None => Ok(None),
        Some(id) => {
            let item = item_by(rows, rid, id)?;
            Ok(item)
        }
    }
}

// The item, where it is a directory whose entries have come.
fn if_open(row: Option<&Row>) -> Option<ItemId>
    ensures { result ≡ part open_id None (option_copied row.entry) }
{
    let row = row?;
    if row.dir && row.populated {
        Some(row.id)
    } else {
        None
    }
}

// The directory of an entry of the index, or of several.
fn parent_by(rows: &Rows, rid: Rid, id: u64) -> Result<Option<ItemId>, OutOfMemory>
    ensures { IfOk result (IsFirstSaid (is_parent_of rid) rid rows.now.rows id) }
{
    if id == SEVERAL {
        let item = walk_parent(rows.as_slice(), rid)?;
        return Ok(item);
    }
    Ok(if_open(rows.get(ItemId(id))))
}

/// The first directory by id that the item of the remote is, and whose entries have come. It takes time as `find_item`.
pub(crate) fn find_parent(
    targets: &Targets,
    rows: &Rows,
    rid: Rid,
) -> Result<Option<ItemId>, OutOfMemory>
    ensures { IfOk result (IsFirstBy (is_parent_of rid) targets.now rows.now.rows) }
{
    if rid.0 == 0 {
        return Ok(None);
    }
    match targets.get(rid.0) {
        None => Ok(None),
        Some(id) => {
            let item = parent_by(rows, rid, id)?;
            Ok(item)
        }
    }
}

/// The item of the remote that the item with this id is, 0 for none.
pub(crate) fn target_at(rows: &Rows, item: ItemId) -> Result<u64, OutOfMemory>
    ensures { IfOk result (λ rid. (items : List Item) → MeansAll rows.now.rows items → rid ≡ target_at items item) }
{
    match rows.get(item) {
        Some(row) => {
            let rid = target_of(row)?;
            Ok(rid.0)
        }
        None => Ok(0),
    }
}

/// Enters the items of all rows into an index of none.
pub(crate) fn fill(rows: &[Row], targets: &mut Targets) -> Result<(), OutOfMemory>
    ensures { OnOk result ((items : List Item) → MeansAll rows.now items → RiseFrom 1 items → IsIndex targets.old (λ d. 0) → IsIndex targets.new (target_at items)) }
{
    for row in rows {
        let rid = target_of(row)?;
        targets.enter(row.id, rid.0)?;
    }
    Ok(())
}

/// The item, which was this one of the remote before, is another one by now, and all others are what they were.
pub(crate) fn refresh(
    rows: &Rows,
    targets: &mut Targets,
    item: ItemId,
    before: u64,
) -> Result<(), OutOfMemory>
    ensures { OnOk result (Refreshes item before rows.now.rows targets.old targets.new) }
{
    let after = target_at(rows, item)?;
    targets.change(item, before, after)?;
    Ok(())
}
