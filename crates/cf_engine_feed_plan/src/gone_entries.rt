//! The steps of an entry that is gone: it is dead, or its parent is not here.

ghost use Rattle.std.specs.Prelude.{◌≡◌, ◌++◌, List, IfOk, OnOk, not, unwrap_or};
ghost use Rattle.cf_model.specs.Items.{Item};
ghost use Rattle.cf_model.specs.Words.{is_empty};
ghost use Rattle.cf_engine_feed_plan.specs.Lists.{applied, gone_steps, has_child, is_removable, untarget_steps};
ghost use Rattle.cf_table.specs.Means.{Means};
ghost use Rattle.cf_table.specs.Tables.{child_rows, ids_of, MeansAll, rows_by_name};

use crate::entry_steps::Step;
use crate::identities::untargeted;
use cf_base::{Change, ItemId, OutOfMemory, Sequence};
use cf_table::{NO_USN, Row, Rows};
use std::alloc::Global;

/// Adds a change to the steps, where there is one.
pub(crate) fn push_change(
    steps: &mut Sequence<Step>,
    change: Option<Change>,
) -> Result<(), OutOfMemory>
    ensures { OnOk result (steps.new ≡ steps.old ++ applied change) }
{
    match change {
        None => Ok(()),
        Some(change) => steps.push(Step::Apply(change)),
    }
}

fn has_child_row(rows: &Rows, id: ItemId) -> Result<bool, OutOfMemory>
    ensures { IfOk result (λ b. b ≡ not (is_empty (ids_of (rows_by_name (child_rows rows.now.rows id))))) }
{
    let children = rows.children(id)?;
    Ok(!children.is_empty())
}

/// Whether any item stands in the directory.
pub(crate) fn has_child(rows: &Rows, id: ItemId) -> Result<bool, OutOfMemory>
    ensures { IfOk result (λ b. (items : List Item) → MeansAll rows.now.rows items → b ≡ has_child items id) }
{
    let child = has_child_row(rows, id)?;
    Ok(child)
}

// A base of none counts as length 0.
fn base_len(row: &Row) -> u64
    ensures { result ≡ unwrap_or row.now.base 0 }
{
    match row.base {
        Some(len) => len as u64,
        None => 0,
    }
}

// The item is no item of the remote any more.
fn untarget(alloc: Global, row: &Row) -> Result<Sequence<Step>, OutOfMemory>
    ensures { IfOk result (λ v. (i : Item) → Means row.now i → v ≡ untarget_steps i) }
{
    let item = row.id;
    let mut steps = Sequence::new(alloc);
    if row.in_sync {
        steps.push(Step::Apply(Change::Clear { item }))?;
    }
    let identity = untargeted(alloc, &row.identity)?;
    let change = Change::Rebase {
        item,
        identity,
        len: base_len(row),
        at: NO_USN,
    };
    steps.push(Step::Apply(change))?;
    Ok(steps)
}

// An empty directory, or a clean file.
fn is_removable(rows: &Rows, row: &Row) -> Result<bool, OutOfMemory>
    ensures { IfOk result (λ b. (items : List Item) (i : Item) → MeansAll rows.now.rows items → Means row.now i → b ≡ is_removable items i) }
{
    if row.dir {
        let child = has_child(rows, row.id)?;
        return Ok(!child);
    }
    Ok(!row.dirty)
}

/// The item is removed where that loses nothing; else it is no item of the remote any more.
pub(crate) fn gone(alloc: Global, rows: &Rows, row: &Row) -> Result<Sequence<Step>, OutOfMemory>
    ensures { IfOk result (λ v. (items : List Item) (i : Item) → MeansAll rows.now.rows items → Means row.now i → v ≡ gone_steps items i) }
{
    let removable = is_removable(rows, row)?;
    if removable {
        let mut steps = Sequence::new(alloc);
        steps.push(Step::Apply(Change::Remove { item: row.id }))?;
        return Ok(steps);
    }
    untarget(alloc, row)
}
