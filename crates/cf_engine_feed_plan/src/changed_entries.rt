//! The steps of an entry that is changed: it is live and known, and its parent is here.

ghost use Rattle.std.specs.Prelude.{◌≡◌, ◌==◌, ◌&&◌, ◌++◌, IfOk, OnOk, List, Option, Some, option_copied};
ghost use Rattle.cf_base.specs.declared.changes.Change.{Change};
ghost use Rattle.cf_model.specs.ConflictNames.{conflict_name};
ghost use Rattle.cf_model.specs.Feeds.{is_newer, is_path_of, name_in_root, stands_in};
ghost use Rattle.cf_model.specs.Items.{Item};
ghost use Rattle.cf_model.specs.Words.{says};
ghost use Rattle.cf_engine_feed_plan.specs.Lists.{changed_steps, copied_off, copy_of, enter, lift, move_steps, take_steps};
ghost use Rattle.cf_table.specs.Means.{Means};
ghost use Rattle.cf_table.specs.Tables.{MeansAll};
ghost use Rattle.cf_tree.specs.Trees.{IsTree};

use crate::ancestors::is_under;
use crate::entry_steps::Step;
use crate::gone_entries::push_change;
use crate::identities::{entry_identity, is_older};
use crate::names::{name_of, off};
use crate::new_entries::seen_entry;
use cf_base::{Change, Entry, ItemId, Name, OutOfMemory, SeenPath, Sequence};
use cf_table::{ROOT, Row, Rows};
use cf_tree::conflict_name;
use std::alloc::Global;

// The name that an item gets in the root: its own, or its conflict name where a child of the root has that.
fn name_in_root(alloc: Global, rows: &Rows, row: &Row) -> Result<Name, OutOfMemory>
    ensures { IfOk result (λ n. (items : List Item) (p : Item) → MeansAll rows.now.rows items → Means row.now p → n ≡ name_in_root items p) }
{
    let name = name_of(alloc, row.name.as_slice())?;
    match rows.child(ROOT, name.as_slice()) {
        None => Ok(name),
        Some(_) => {
            let other = conflict_name(alloc, rows, ROOT, &name)?;
            Ok(other)
        }
    }
}

// The move of the parent to the root, where the item would come under itself.
fn lift(alloc: Global, rows: &Rows, row: &Row, parent: &Row) -> Result<Option<Change>, OutOfMemory>
    ensures { IfOk result (λ o. (items : List Item) (i p : Item) → MeansAll rows.now.rows items → IsTree items → Means row.now i → Means parent.now p → o ≡ lift items i p) }
{
    if !is_under(rows, parent.id, row.id) {
        return Ok(None);
    }
    Ok(Some(Change::Move {
        item: parent.id,
        parent: ROOT,
        name: name_in_root(alloc, rows, parent)?,
    }))
}

fn stands_in(row: &Row, parent: &Row, name: &Name) -> bool
    ensures { (i p : Item) → Means row.now i → Means parent.now p → result ≡ stands_in p name.now i }
{
    row.parent == parent.id && row.name.as_slice() == name.as_slice()
}

// The move of the item, unless it stands there.
fn enter(row: &Row, parent: &Row, entry: &Entry, name: &Name) -> Result<Option<Change>, OutOfMemory>
    requires { name.now ≡ entry.now.name }
    ensures { IfOk result (λ o. (i p : Item) → Means row.now i → Means parent.now p → o ≡ enter entry.now i p) }
{
    let _ = entry;
    if stands_in(row, parent, name) {
        return Ok(None);
    }
    Ok(Some(Change::Move {
        item: row.id,
        parent: parent.id,
        name: name.copy()?,
    }))
}

fn push_moves(
    alloc: Global,
    rows: &Rows,
    entry: &Entry,
    row: &Row,
    parent: &Row,
    steps: &mut Sequence<Step>,
) -> Result<(), OutOfMemory>
    ensures { OnOk result ((items : List Item) (i p : Item) → MeansAll rows.now.rows items → IsTree items → Means row.now i → Means parent.now p → steps.new ≡ steps.old ++ move_steps items entry.now i p) }
{
    let name = name_of(alloc, entry.name.as_slice())?;
    let other = off(alloc, rows, parent.id, &name, row.id)?;
    let lifted = lift(alloc, rows, row, parent)?;
    let entered = enter(row, parent, entry, &name)?;
    let seen = seen_entry(alloc, row.id, entry)?;
    push_change(steps, other)?;
    push_change(steps, lifted)?;
    push_change(steps, entered)?;
    steps.push(Step::Seen(seen))
}

/// Whether the entry has a newer version of the file.
pub(crate) fn is_newer(row: &Row, entry: &Entry) -> bool
    ensures { (i : Item) → Means row.now i → result ≡ is_newer i entry.now }
{
    !row.dir && is_older(&row.identity, entry.version.0)
}

fn push_take(
    alloc: Global,
    entry: &Entry,
    row: &Row,
    steps: &mut Sequence<Step>,
) -> Result<(), OutOfMemory>
    ensures { OnOk result ((i : Item) → Means row.now i → steps.new ≡ steps.old ++ take_steps entry.now i) }
{
    if !is_newer(row, entry) {
        return Ok(());
    }
    let take = Change::Take {
        item: row.id,
        identity: entry_identity(alloc, entry)?,
        size: entry.len as u64,
    };
    if row.dirty {
        steps.push(Step::CopyOff(row.id))?;
    }
    steps.push(Step::Apply(take))
}

fn is_seen_so(seen: Option<&SeenPath>, entry: &Entry) -> bool
    ensures { result ≡ says (is_path_of entry.now) (option_copied seen.entry) }
{
    match seen {
        None => false,
        Some(path) => path.parent == entry.parent && path.name.as_slice() == entry.name.as_slice(),
    }
}

/// The item moves to the entry's place, where the entry's path is not the one seen, and a newer version takes the place of the
/// file's bytes.
pub(crate) fn changed(
    alloc: Global,
    rows: &Rows,
    entry: &Entry,
    seen: Option<&SeenPath>,
    row: &Row,
    parent: &Row,
) -> Result<Sequence<Step>, OutOfMemory>
    ensures { IfOk result (λ v. (items : List Item) (i p : Item) → MeansAll rows.now.rows items → IsTree items → Means row.now i → Means parent.now p → v ≡ changed_steps items (option_copied seen.entry) entry.now i p) }
{
    let mut steps = Sequence::new(alloc);
    if !is_seen_so(seen, entry) {
        push_moves(alloc, rows, entry, row, parent, &mut steps)?;
    }
    push_take(alloc, entry, row, &mut steps)?;
    steps.push(Step::Mark(row.id))?;
    Ok(steps)
}

fn copied_off(alloc: Global, rows: &Rows, row: &Row) -> Result<Change, OutOfMemory>
    ensures { IfOk result (λ c. (items : List Item) (i : Item) → MeansAll rows.now.rows items → Means row.now i → c ≡ copied_off rows.now.next items i) }
{
    let name = name_of(alloc, row.name.as_slice())?;
    let free = conflict_name(alloc, rows, row.parent, &name)?;
    Ok(Change::Copy {
        item: rows.next(),
        from: row.id,
        parent: row.parent,
        name: free,
    })
}

/// The change of a step `CopyOff`, on the rows as they are at its turn: a copy of the file under the next id, in the file's
/// directory, under its conflict name there. None where there is no such item. Bytes that are no name, which no item has, are
/// answered as out of memory.
pub fn copy_off(alloc: Global, rows: &Rows, item: ItemId) -> Result<Option<Change>, OutOfMemory>
    ensures { IfOk result (λ o. (items : List Item) → MeansAll rows.now.rows items → o ≡ copy_of rows.now.next items item) }
{
    match rows.get(item) {
        None => Ok(None),
        Some(row) => {
            let change = copied_off(alloc, rows, row)?;
            Ok(Some(change))
        }
    }
}
