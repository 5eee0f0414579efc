//! The order in which a feed's entries come.

ghost use Rattle.std.specs.Prelude.{◌≡◌, IfOk, List};
ghost use Rattle.cf_engine_feed.specs.Indexes.{IsIndex, target_at};
ghost use Rattle.cf_engine_feed.specs.Turns.{entries_at};
ghost use Rattle.cf_engine_feed_plan.specs.Orders.{AreKnown};
ghost use Rattle.cf_model.specs.Feeds.{in_turn};
ghost use Rattle.cf_model.specs.Items.{Item};
ghost use Rattle.cf_table.specs.Tables.{MeansAll};
ghost use Rattle.cf_tree.specs.Trees.{IsTree, RiseFrom};

use crate::indexes::Targets;
use crate::targets::find_item;
use cf_base::{Entry, ItemId, OutOfMemory};
use cf_engine_feed_plan::order;
use cf_table::Rows;
use std::alloc::Global;

// Of each entry the first item by id that is its item.
fn known_items(
    alloc: Global,
    targets: &Targets,
    rows: &Rows,
    entries: &[Entry],
) -> Result<Vec<Option<ItemId>>, OutOfMemory>
    ensures { IfOk result (λ v. (items : List Item) → MeansAll rows.now.rows items → RiseFrom 1 items → IsIndex targets.now (target_at items) → AreKnown items entries.now v.items) }
{
    let mut known = Vec::new(alloc);
    for entry in entries {
        let item = find_item(targets, rows, entry.rid)?;
        known.push(item)?;
    }
    Ok(known)
}

/// The places of the entries in the order of their turns, on the rows as they are before the first of them.
pub(crate) fn order_of(
    alloc: Global,
    targets: &Targets,
    rows: &Rows,
    entries: &[Entry],
) -> Result<Vec<usize>, OutOfMemory>
    ensures { IfOk result (λ v. (items : List Item) → MeansAll rows.now.rows items → IsTree items → IsIndex targets.now (target_at items) → entries_at entries.now v.items ≡ in_turn items entries.now) }
{
    let known = known_items(alloc, targets, rows, entries)?;
    let places = order(alloc, rows, entries, known.as_slice());
    drop(known);
    places
}
