//! What is below an item.

ghost use Rattle.std.specs.Prelude.{◌≡◌, List};
ghost use Rattle.cf_model.specs.Feeds.{is_under};
ghost use Rattle.cf_model.specs.Items.{Item};
ghost use Rattle.cf_table.specs.Tables.{MeansAll};
ghost use Rattle.cf_tree.specs.Trees.{IsTree};

use cf_base::ItemId;
use cf_table::Rows;
use cf_tree::{MOST_NAMES, line_of};

/// Whether the item is the other or below it.
pub(crate) fn is_under(rows: &Rows, id: ItemId, top: ItemId) -> bool
    ensures { (items : List Item) → MeansAll rows.now.rows items → IsTree items → result ≡ is_under items id top }
{
    if id == top {
        return true;
    }
    line_of(rows, id, top, MOST_NAMES).passes
}
