//! The way up from an item.

ghost use Rattle.std.specs.Prelude.{◌≡◌, ◌==◌, ◌≤◌, List, length};
ghost use Rattle.std.specs.List.{list_any};
ghost use Rattle.cf_model.specs.Items.{Item};
ghost use Rattle.cf_model.specs.LookUp.{depth_at};
ghost use Rattle.cf_table.specs.Tables.{MeansAll, row_of};
ghost use Rattle.cf_tree.specs.Lines.{line_in, parent_in};
ghost use Rattle.cf_tree.specs.Trees.{IsTree};

use crate::names::MOST_NAMES;
use cf_base::ItemId;
use cf_table::{ROOT, Rows};

/// How a line goes up from an item to the root.
#[derive(Clone, Copy)]
pub struct Line {
    /// How many names lead to the item.
    pub depth: usize,
    /// Whether it begins at the other item or comes by it. The root is on no line.
    pub passes: bool,
}

/// The parent of an item, unless that is the root or not there.
pub fn parent_of(rows: &Rows, at: ItemId) -> Option<ItemId>
    ensures { result ≡ parent_in (row_of rows.now.rows at) }
{
    let row = rows.get(at)?;
    if row.id == ROOT {
        return None;
    }
    Some(row.parent)
}

/// The line from an item, of which no more than `most` names are gone, and whether it comes by another item.
pub fn line_of(rows: &Rows, id: ItemId, other: ItemId, most: usize) -> Line
    ensures depth { result.depth ≡ length (line_in most rows.now.rows id) }
    ensures passes { result.passes ≡ list_any (λ k. k == other.0) (line_in most rows.now.rows id) }
    ensures small { result.depth ≤ most }
{
    let mut at = id;
    let mut passes = false;
    for depth in 0..most {
        match parent_of(rows, at) {
            Some(parent) => {
                passes = passes || at == other;
                at = parent;
            }
            None => return Line { depth, passes },
        }
    }
    Line {
        depth: most,
        passes,
    }
}

/// How many names lead from the root to the item: 0 for the root and for an item that is not there. It takes time by the depth.
pub fn depth_of(rows: &Rows, id: ItemId) -> usize
    ensures depth { (items : List Item) → MeansAll rows.now.rows items → IsTree items → result ≡ depth_at items id }
    ensures small { result ≤ 32 }
{
    line_of(rows, id, id, MOST_NAMES).depth
}
