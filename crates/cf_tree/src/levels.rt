//! The items below another, level by level.

ghost use Rattle.std.specs.Prelude.{◌≡◌, ◌∷◌, [], nat_lt, IfOk, OnOk};
ghost use Rattle.cf_model.specs.Words.{sorted};
ghost use Rattle.cf_tree.specs.Levels.{children_in, level_at, level_below, levels_in};

use cf_base::{ItemId, OutOfMemory};
use cf_table::Rows;
use std::alloc::Global;

fn alone(alloc: Global, id: ItemId) -> Result<Vec<ItemId>, OutOfMemory>
    ensures { IfOk result (λ v. v.items ≡ id ∷ []) }
{
    let mut ids = Vec::new(alloc);
    ids.push(id)?;
    Ok(ids)
}

fn children_of(alloc: Global, rows: &Rows, level: &[ItemId]) -> Result<Vec<ItemId>, OutOfMemory>
    ensures { IfOk result (λ v. v.items ≡ children_in rows.now.rows level.now) }
{
    let mut all = Vec::new(alloc);
    for item in level {
        let children = rows.children(*item)?;
        all.extend_from_slice(children.as_slice())?;
    }
    Ok(all)
}

fn sort(ids: &mut Vec<ItemId>) -> Result<(), OutOfMemory>
    ensures { OnOk result (ids.new.items ≡ sorted (λ a b. nat_lt a.0 b.0) ids.old.items) }
{
    ids.sort_by_key(|id| id.0)?;
    Ok(())
}

// The children of these items, by id.
fn level_below(alloc: Global, rows: &Rows, level: &[ItemId]) -> Result<Vec<ItemId>, OutOfMemory>
    ensures { IfOk result (λ v. v.items ≡ level_below rows.now.rows level.now) }
{
    let mut below = children_of(alloc, rows, level)?;
    sort(&mut below)?;
    Ok(below)
}

/// The items that stand so many names below this one, by id.
pub(crate) fn level_at(
    alloc: Global,
    rows: &Rows,
    top: ItemId,
    names: usize,
) -> Result<Vec<ItemId>, OutOfMemory>
    ensures { IfOk result (λ v. v.items ≡ level_at names rows.now.rows (top ∷ [])) }
{
    let mut level = alone(alloc, top)?;
    for _ in 0..names {
        level = level_below(alloc, rows, level.as_slice())?;
    }
    Ok(level)
}

/// The item, the items that stand one name below it, and so on, so many levels, each by id.
pub(crate) fn levels_in(
    alloc: Global,
    rows: &Rows,
    top: ItemId,
    count: usize,
) -> Result<Vec<ItemId>, OutOfMemory>
    ensures { IfOk result (λ v. v.items ≡ levels_in count rows.now.rows (top ∷ [])) }
{
    let mut all = Vec::new(alloc);
    let mut level = alone(alloc, top)?;
    for _ in 0..count {
        all.extend_from_slice(level.as_slice())?;
        level = level_below(alloc, rows, level.as_slice())?;
    }
    Ok(all)
}
