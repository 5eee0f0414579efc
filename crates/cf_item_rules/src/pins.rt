//! The changes of a pin state.

ghost use Rattle.std.specs.Prelude.{◌≡◌, ◌==◌, ◌∷◌, [], List, Some, filter, map, not, IfOk};
ghost use Rattle.cf_model.specs.Items.{Item, item_of};
ghost use Rattle.cf_model.specs.Plans.{plan_pin, reached, same_pin};
ghost use Rattle.cf_table.specs.Tables.{MeansAll};
ghost use Rattle.cf_tree.specs.Trees.{IsTree};
ghost use Rattle.cf_item_rules.specs.PinStates.{differs, inherited, set_each, state_for, stored, stored_above};

use cf_base::{Change, ItemId, OutOfMemory, Pin, Reach, Sequence};
use cf_table::Rows;
use cf_tree::tree_of;
use std::alloc::Global;

fn is_same(a: Pin, b: Pin) -> bool
    ensures { result ≡ same_pin a b }
{
    a == b
}

fn stored(rows: &Rows, id: ItemId) -> Pin
    ensures { result ≡ stored rows.now.rows id }
{
    match rows.get(id) {
        Some(row) => row.pin,
        None => Pin::Unspecified,
    }
}

fn stored_above(rows: &Rows, id: ItemId) -> Pin
    ensures { result ≡ stored_above rows.now.rows id }
{
    match rows.get(id) {
        Some(row) => stored(rows, row.parent),
        None => Pin::Unspecified,
    }
}

// The state that each item of the reach gets. The items of a tree come after their parents, so all inherit one.
fn state_for(rows: &Rows, id: ItemId, reach: Reach, asked: Pin) -> Pin
    ensures { result ≡ state_for rows.now.rows id reach asked }
{
    match asked {
        Pin::Unspecified => Pin::Unspecified,
        Pin::Pinned => Pin::Pinned,
        Pin::Unpinned => Pin::Unpinned,
        Pin::Excluded => Pin::Excluded,
        Pin::Inherit => inherited(rows, id, reach),
    }
}

fn inherited(rows: &Rows, id: ItemId, reach: Reach) -> Pin
    ensures { result ≡ inherited rows.now.rows id reach }
{
    match reach {
        Reach::One => stored_above(rows, id),
        Reach::Recurse => stored_above(rows, id),
        Reach::RecurseOnly => stored(rows, id),
    }
}

fn others(alloc: Global, ids: &[ItemId], id: ItemId) -> Result<Vec<ItemId>, OutOfMemory>
    ensures { IfOk result (λ v. v.items ≡ filter (λ x. not (x.0 == id.0)) ids.now) }
{
    Ok(
        ids.iter()
            .copied()
            .filter(|item| *item != id)
            .collect(alloc)?,
    )
}

fn alone(alloc: Global, id: ItemId) -> Result<Vec<ItemId>, OutOfMemory>
    ensures { IfOk result (λ v. v.items ≡ id ∷ []) }
{
    let mut ids = Vec::new(alloc);
    ids.push(id)?;
    Ok(ids)
}

// The items of the reach, by depth and then by id.
fn reached(alloc: Global, rows: &Rows, id: ItemId, reach: Reach) -> Result<Vec<ItemId>, OutOfMemory>
    ensures { IfOk result (λ v. (items : List Item) (i : Item) → MeansAll rows.now.rows items → IsTree items → item_of items id ≡ Some i → v.items ≡ map (λ j. j.id) (reached items i reach)) }
{
    match reach {
        Reach::One => alone(alloc, id),
        Reach::Recurse => tree_of(alloc, rows, id),
        Reach::RecurseOnly => {
            let all = tree_of(alloc, rows, id)?;
            others(alloc, all.as_slice(), id)
        }
    }
}

fn differs(rows: &Rows, state: Pin, id: ItemId) -> bool
    ensures { result ≡ differs rows.now.rows state id }
{
    match rows.get(id) {
        Some(row) => !is_same(state, row.pin),
        None => false,
    }
}

fn set_each(
    alloc: Global,
    rows: &Rows,
    state: Pin,
    ids: &[ItemId],
) -> Result<Sequence<Change>, OutOfMemory>
    ensures { IfOk result (λ list. list ≡ set_each rows.now.rows state ids.now) }
{
    let mut changes = Sequence::new(alloc);
    for item in ids {
        if differs(rows, state, *item) {
            let change = Change::SetPin {
                item: *item,
                pin: state,
            };
            if let Err(memory) = changes.push(change) {
                drop(changes);
                return Err(memory);
            }
        }
    }
    Ok(changes)
}

/// The changes by which a pin state (CfSetPinState) is set on an item that is there, on it and all below it, or on those
/// below it alone: by depth and then by id, one for each item whose stored state differs. `Inherit` stores the state that
/// the parent of each has at its turn, so all get what the first of them inherits; the root's parent counts as
/// unspecified. The work grows with the items of the reach.
pub fn plan_pin(
    alloc: Global,
    rows: &Rows,
    id: ItemId,
    state: Pin,
    reach: Reach,
) -> Result<Sequence<Change>, OutOfMemory>
    ensures { IfOk result (λ list. (items : List Item) (i : Item) → MeansAll rows.now.rows items → IsTree items → item_of items id ≡ Some i → list ≡ plan_pin items i state reach) }
{
    let state = state_for(rows, id, reach, state);
    let ids = reached(alloc, rows, id, reach)?;
    set_each(alloc, rows, state, ids.as_slice())
}
