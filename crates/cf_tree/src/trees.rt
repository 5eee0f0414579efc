//! An item and all below it.

ghost use Rattle.std.specs.Prelude.{◌≡◌, List, map, IfOk};
ghost use Rattle.cf_model.specs.Items.{Item};
ghost use Rattle.cf_model.specs.LookUp.{tree_of};
ghost use Rattle.cf_table.specs.Tables.{MeansAll};
ghost use Rattle.cf_tree.specs.Trees.{IsTree};

use crate::levels::levels_in;
use crate::names::MOST_NAMES;
use cf_base::{ItemId, OutOfMemory};
use cf_table::Rows;
use std::alloc::Global;

/// The item and all below it, by depth and then by id; none where it is not there. The work grows with them alone, and not
/// with the rows.
pub fn tree_of(alloc: Global, rows: &Rows, top: ItemId) -> Result<Vec<ItemId>, OutOfMemory>
    ensures { IfOk result (λ v. (items : List Item) → MeansAll rows.now.rows items → IsTree items → v.items ≡ map (λ i. i.id) (tree_of items top)) }
{
    match rows.get(top) {
        None => Ok(Vec::new(alloc)),
        Some(_) => levels_in(alloc, rows, top, MOST_NAMES + 1),
    }
}
