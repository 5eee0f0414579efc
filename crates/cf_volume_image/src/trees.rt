//! Whether the rows form a tree.

ghost use Rattle.std.specs.Prelude.{◌≡◌, ◌&&◌, is_some, map, not, true, false};
ghost use Rattle.std.specs.List.{list_all};
ghost use Rattle.cf_model.specs.Numbers.{no_item, root_id};
ghost use Rattle.cf_model.specs.Words.{says};
ghost use Rattle.cf_table.specs.Spelling.{row_value};
ghost use Rattle.cf_volume_image.specs.Contents.{row_at};
ghost use Rattle.cf_volume_image.specs.Sound.{reaches_root, takes_children};
ghost use Rattle.cf_volume_image.specs.Trees.{is_named, is_placed, is_root, is_tree, parent_of};

use cf_base::ItemId;
use cf_table::{ROOT, Row, Rows};

// What the root names as its parent.
const NO_ITEM: ItemId = ItemId(0);

const MOST_STEPS: u32 = 32;

fn is_root(row: &Row) -> bool
    ensures { result ≡ is_root (row_value row.now) }
{
    row.dir && row.parent.0 == 0
}

fn has_root(rows: &Rows) -> bool
    ensures { result ≡ says is_root (row_at (map row_value rows.now.rows) root_id) }
{
    match rows.get(ROOT) {
        None => false,
        Some(row) => is_root(row),
    }
}

fn lacks_top(rows: &Rows) -> bool
    ensures { result ≡ not (is_some (row_at (map row_value rows.now.rows) no_item)) }
{
    rows.get(NO_ITEM).is_none()
}

fn is_open(row: &Row) -> bool
    ensures { result ≡ (row.now.dir && row.now.populated) }
{
    row.dir && row.populated
}

fn takes_children(rows: &Rows, id: ItemId) -> bool
    ensures { result ≡ takes_children (map row_value rows.now.rows) id }
{
    match rows.get(id) {
        None => false,
        Some(row) => is_open(row),
    }
}

fn parent_of(rows: &Rows, id: ItemId) -> Option<ItemId>
    ensures { result ≡ parent_of (map row_value rows.now.rows) id }
{
    match rows.get(id) {
        None => None,
        Some(row) => Some(row.parent),
    }
}

fn reaches_root(rows: &Rows, id: ItemId) -> bool
    ensures { result ≡ reaches_root (map row_value rows.now.rows) 32 id }
{
    let mut at = id;
    for _ in 0..MOST_STEPS {
        if at.0 == ROOT.0 {
            return true;
        }
        match parent_of(rows, at) {
            None => return false,
            Some(parent) => at = parent,
        }
    }
    at.0 == ROOT.0
}

fn is_placed(rows: &Rows, row: &Row) -> bool
    ensures { result ≡ is_placed (map row_value rows.now.rows) (row_value row.now) }
{
    row.id.0 == ROOT.0 || takes_children(rows, row.parent) && reaches_root(rows, row.id)
}

fn are_placed(rows: &Rows, list: &[Row]) -> bool
    ensures { result ≡ list_all (λ r. is_placed (map row_value rows.now.rows) (row_value r)) list.now }
{
    list.iter().all(|row| is_placed(rows, row))
}

// Whether the first row of its name in its directory is the row itself.
fn is_named(rows: &Rows, row: &Row) -> bool
    ensures { result ≡ is_named rows.now.rows row.now }
{
    match rows.child(row.parent, row.name.as_slice()) {
        None => false,
        Some(id) => id.0 == row.id.0,
    }
}

fn are_named(rows: &Rows, list: &[Row]) -> bool
    ensures { result ≡ list_all (is_named rows.now.rows) list.now }
{
    list.iter().all(|row| is_named(rows, row))
}

/// Whether the rows are a tree under item 1, with no item 0, in which each item but the root is in a directory and has a name of its own
/// there.
pub(crate) fn is_tree(rows: &Rows) -> bool
    ensures { result ≡ is_tree rows.now.rows }
{
    let list = rows.as_slice();
    lacks_top(rows) && has_root(rows) && are_placed(rows, list) && are_named(rows, list)
}
