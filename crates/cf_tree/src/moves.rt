//! Whether an item may move.

ghost use Rattle.std.specs.Prelude.{◌≡◌, ◌+◌, ◌≤◌, ◌==◌, ◌∷◌, [], List, Some, IfOk, find, nat_lt, not};
ghost use Rattle.cf_model.specs.Items.{Item, item_of};
ghost use Rattle.cf_model.specs.LookUp.{depth_at, height_at, move_refused};
ghost use Rattle.cf_model.specs.Words.{is_empty, says};
ghost use Rattle.cf_table.specs.Tables.{id_of, is_child_row, MeansAll};
ghost use Rattle.cf_tree.specs.Answers.{IsChecked};
ghost use Rattle.cf_tree.specs.Levels.{level_at};
ghost use Rattle.cf_tree.specs.Trees.{IsTree};

use crate::levels::level_at;
use crate::lines::{depth_of, line_of};
use crate::names::MOST_NAMES;
use cf_base::{CallError, Code, ItemId, Name, OutOfMemory};
use cf_table::{ROOT, Rows};
use std::alloc::Global;

// Whether items stand so many names below this one.
fn reaches(alloc: Global, rows: &Rows, id: ItemId, names: usize) -> Result<bool, OutOfMemory>
    ensures { IfOk result (λ b. b ≡ not (is_empty (level_at names rows.now.rows (id ∷ [])))) }
{
    let level = level_at(alloc, rows, id, names)?;
    Ok(!level.is_empty())
}

// Whether more than 32 names would lead to the item or to one below it, where `above` lead to the new directory. What is
// below is looked at only where the item comes deeper than it stands. Nothing counts as below the root, which never moves.
fn reaches_too_deep(
    alloc: Global,
    rows: &Rows,
    id: ItemId,
    above: usize,
) -> Result<bool, OutOfMemory>
    requires { above ≤ 32 }
    ensures { IfOk result (λ b. (items : List Item) (i : Item) → MeansAll rows.now.rows items → IsTree items → item_of items id ≡ Some i → b ≡ nat_lt 32 (above + 1 + height_at items id)) }
{
    if id == ROOT {
        return Ok(above >= MOST_NAMES);
    }
    if above < line_of(rows, id, id, MOST_NAMES).depth {
        return Ok(false);
    }
    reaches(alloc, rows, id, MOST_NAMES - above)
}

/// Whether more than 32 names would lead to the item, which is there, or to one below it, if it stood in the directory. It takes
/// time by the depths, and by what is below the item only where it comes deeper than it stands; there alone it takes memory.
pub fn is_too_deep(
    alloc: Global,
    rows: &Rows,
    id: ItemId,
    parent: ItemId,
) -> Result<bool, OutOfMemory>
    ensures { IfOk result (λ b. (items : List Item) (i : Item) → MeansAll rows.now.rows items → IsTree items → item_of items id ≡ Some i → b ≡ nat_lt 32 (depth_at items parent + 1 + height_at items id)) }
{
    reaches_too_deep(alloc, rows, id, depth_of(rows, parent))
}

// Whether another item of the directory has the name.
fn is_taken(rows: &Rows, id: ItemId, parent: ItemId, name: &Name) -> bool
    ensures { result ≡ says (λ v. not (v.0 == id.0)) (id_of (find (is_child_row parent name.now) rows.now.rows)) }
{
    match rows.child(parent, name.as_slice()) {
        Some(other) => other != id,
        None => false,
    }
}

/// Whether the item may move into the directory under the name. Refused as IntoItself where the directory is the item or
/// below it, then as TooDeep where more than 32 names would lead to the item or to one below it, then as Exists where
/// another item of the directory has the name. It takes time by the depths, and by what is below the item only where it
/// comes deeper than it stands; there alone it takes memory.
pub fn check_move(
    alloc: Global,
    rows: &Rows,
    id: ItemId,
    parent: ItemId,
    name: &Name,
) -> Result<(), CallError>
    ensures { (items : List Item) (i : Item) → MeansAll rows.now.rows items → IsTree items → item_of items id ≡ Some i → IsChecked result (move_refused items id parent name.now) }
{
    if parent == id {
        return Err(CallError::No(Code::IntoItself));
    }
    let above = line_of(rows, parent, id, MOST_NAMES);
    if above.passes {
        return Err(CallError::No(Code::IntoItself));
    }
    if reaches_too_deep(alloc, rows, id, above.depth)? {
        return Err(CallError::No(Code::TooDeep));
    }
    if is_taken(rows, id, parent, name) {
        return Err(CallError::No(Code::Exists));
    }
    Ok(())
}
