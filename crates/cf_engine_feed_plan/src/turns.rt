//! The turn of an entry.

ghost use Rattle.std.specs.Prelude.{◌≡◌, ◌&&◌, IfOk, List, Option, not, option_copied};
ghost use Rattle.cf_model.specs.Items.{Item};
ghost use Rattle.cf_model.specs.State.{State};
ghost use Rattle.cf_engine_feed_plan.specs.Lists.{changed_turn, gone_turn, has_child, known_turn, turn_steps, unknown_turn};
ghost use Rattle.cf_engine_feed_plan.specs.Premises.{FoundAs, IsHere, IsOf, IsProper, Knows};
ghost use Rattle.cf_engine_feed_plan.specs.Turns.{IsTurn};
ghost use Rattle.cf_table.specs.Means.{Means};
ghost use Rattle.cf_table.specs.Tables.{MeansAll};
ghost use Rattle.cf_tree.specs.Trees.{IsTree};

use crate::changed_entries::{changed, is_newer};
use crate::entry_steps::Turn;
use crate::gone_entries::{gone, has_child};
use crate::known::Known;
use crate::new_entries::new_entry;
use cf_base::{Entry, ItemId, OutOfMemory, Policy};
use cf_table::{Row, Rows};
use std::alloc::Global;

// An entry whose item is not here.
fn unknown_turn(
    alloc: Global,
    rows: &Rows,
    policy: &Policy,
    entry: &Entry,
    parent: Option<&Row>,
) -> Result<Turn, OutOfMemory>
    ensures { IfOk result (λ v. (items : List Item) (p : Option Item) → MeansAll rows.now.rows items → IsTree items → FoundAs (option_copied parent.entry) p → v ≡ unknown_turn policy.now rows.now.next items entry.now p) }
{
    let Some(parent) = parent else {
        return Ok(Turn::Nothing);
    };
    if !entry.live {
        return Ok(Turn::Nothing);
    }
    let steps = new_entry(alloc, rows, policy, entry, parent.id)?;
    Ok(Turn::Do(steps))
}

// Whether the entry comes again after the live ones.
fn is_later(rows: &Rows, entry: &Entry, row: &Row) -> Result<bool, OutOfMemory>
    ensures { IfOk result (λ b. (items : List Item) (i : Item) → MeansAll rows.now.rows items → Means row.now i → b ≡ (not entry.now.live && (i.directory && has_child items i.id))) }
{
    if entry.live || !row.dir {
        return Ok(false);
    }
    has_child(rows, row.id)
}

// An item in use is left as it is.
fn gone_turn(
    alloc: Global,
    rows: &Rows,
    in_use: bool,
    last: bool,
    entry: &Entry,
    row: &Row,
) -> Result<Turn, OutOfMemory>
    ensures { IfOk result (λ v. (items : List Item) (i : Item) → MeansAll rows.now.rows items → Means row.now i → v ≡ gone_turn last in_use items entry.now i) }
{
    if in_use {
        return Ok(Turn::Postponed);
    }
    let later = is_later(rows, entry, row)?;
    if !last && later {
        return Ok(Turn::Later);
    }
    let steps = gone(alloc, rows, row)?;
    Ok(Turn::Do(steps))
}

// A newer version of an item in use is postponed whole.
fn changed_turn(
    alloc: Global,
    rows: &Rows,
    known: &Known,
    entry: &Entry,
    row: &Row,
    parent: &Row,
) -> Result<Turn, OutOfMemory>
    ensures { IfOk result (λ v. (items : List Item) (i p : Item) → MeansAll rows.now.rows items → IsTree items → Means row.now i → Means parent.now p → v ≡ changed_turn known.now.in_use items (option_copied known.now.seen) entry.now i p) }
{
    if is_newer(row, entry) && known.in_use {
        return Ok(Turn::Postponed);
    }
    let steps = changed(alloc, rows, entry, known.seen, row, parent)?;
    Ok(Turn::Do(steps))
}

// An entry whose item is here.
fn known_turn(
    alloc: Global,
    rows: &Rows,
    known: &Known,
    last: bool,
    entry: &Entry,
    row: &Row,
    parent: Option<&Row>,
) -> Result<Turn, OutOfMemory>
    ensures { IfOk result (λ v. (items : List Item) (i : Item) (p : Option Item) → MeansAll rows.now.rows items → IsTree items → Means row.now i → FoundAs (option_copied parent.entry) p → v ≡ known_turn last known.now.in_use items (option_copied known.now.seen) entry.now i p) }
{
    let Some(parent) = parent else {
        return gone_turn(alloc, rows, known.in_use, last, entry, row);
    };
    if !entry.live {
        return gone_turn(alloc, rows, known.in_use, last, entry, row);
    }
    changed_turn(alloc, rows, known, entry, row, parent)
}

// The row of an item, where there is an item.
fn row_of(rows: &Rows, id: Option<ItemId>) -> Option<&Row>
    ensures { (items : List Item) (o : Option Item) → MeansAll rows.now.rows items → IsHere items id o → FoundAs (option_copied result) o }
{
    match id {
        None => None,
        Some(id) => rows.get(id),
    }
}

fn turn_by_rows(
    alloc: Global,
    rows: &Rows,
    policy: &Policy,
    known: &Known,
    entry: &Entry,
    last: bool,
) -> Result<Turn, OutOfMemory>
    ensures { IfOk result (λ v. (items : List Item) (o p : Option Item) → MeansAll rows.now.rows items → IsTree items → IsHere items known.now.item o → IsHere items known.now.parent p → v ≡ turn_steps policy.now rows.now.next last known.now.in_use items (option_copied known.now.seen) entry.now o p) }
{
    let parent = row_of(rows, known.parent);
    match row_of(rows, known.item) {
        None => {
            let turn = unknown_turn(alloc, rows, policy, entry, parent)?;
            Ok(turn)
        }
        Some(row) => {
            let turn = known_turn(alloc, rows, known, last, entry, row, parent)?;
            Ok(turn)
        }
    }
}

/// The steps of one entry of a feed, on the rows as they are at its turn. `last` says that it is the second turn of a dead directory,
/// after the live entries. What is said holds of an entry that is not of its own parent, as `fits` lets none pass.
///
/// - An entry is of no case where it is not known and is dead, or has no parent here: `Nothing`.
/// - Postponed: an item in use is gone, or has a newer version.
/// - Later: a dead directory is not empty, and this is its first turn.
/// - Gone, where it is dead or its parent is not here: an empty directory or a clean file is removed, any other item is no item of
///   the remote any more.
/// - New: a directory that is no item of the remote is adopted; else whoever stands at the name is moved off, and the item is made.
/// - Changed: where the entry's path is not the one seen, whoever stands at the name is moved off, the parent comes to the root where
///   the item would come under itself, and the item moves there. A newer version takes the place of the file's bytes; local
///   writes go on in a copy.
///
/// It takes time by the depth of the parent, the children of a directory that is gone, and the conflict names that are taken. Bytes
/// that are no name, which no entry and no item has, are answered as out of memory.
pub fn steps(
    alloc: Global,
    rows: &Rows,
    policy: &Policy,
    known: &Known,
    entry: &Entry,
    last: bool,
) -> Result<Turn, OutOfMemory>
    ensures { IfOk result (λ v. (s : State) → IsProper entry.now → IsOf rows.now policy.now s → Knows known.now.item known.now.parent (option_copied known.now.seen) known.now.in_use entry.now s → IsTurn last entry.now s v) }
{
    let turn = turn_by_rows(alloc, rows, policy, known, entry, last)?;
    Ok(turn)
}
