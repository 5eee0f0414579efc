//! Whether a row has its place in the tree.

ghost use Rattle.std.specs.Prelude.{◌≡◌, Some, map};
ghost use Rattle.cf_scrub.specs.Ways.{above, above_in, climbs, is_first, is_in_tree, is_placed};
ghost use Rattle.cf_table.specs.Spelling.{row_value};
ghost use Rattle.cf_volume_image.specs.Trees.{is_root};

use cf_base::ItemId;
use cf_table::{ROOT, Row, Rows};

const MOST_STEPS: u32 = 32;

fn is_root(row: &Row) -> bool
    ensures { result ≡ is_root (row_value row.now) }
{
    row.dir && row.parent.0 == 0
}

fn parent_of(row: &Row) -> Option<ItemId>
    ensures { result ≡ above_in (Some (row_value row.now)) }
{
    if row.dir { Some(row.parent) } else { None }
}

// The parent of a directory.
fn above(rows: &Rows, id: ItemId) -> Option<ItemId>
    ensures { result ≡ above (map row_value rows.now.rows) id }
{
    match rows.get(id) {
        None => None,
        Some(row) => parent_of(row),
    }
}

// Whether the way up from an item through directories, itself the first, has item 1.
fn climbs(rows: &Rows, id: ItemId) -> bool
    ensures { result ≡ climbs (map row_value rows.now.rows) 32 id }
{
    let mut at = id;
    for _ in 0..MOST_STEPS {
        match above(rows, at) {
            None => return false,
            Some(parent) => {
                if at.0 == ROOT.0 {
                    return true;
                }
                at = parent;
            }
        }
    }
    false
}

fn is_placed(rows: &Rows, row: &Row) -> bool
    ensures { result ≡ is_placed (map row_value rows.now.rows) (row_value row.now) }
{
    if row.id.0 == ROOT.0 {
        return is_root(row);
    }
    row.id.0 > 0 && climbs(rows, row.parent)
}

// Whether the first row of its name in its directory is the row itself.
fn is_first(rows: &Rows, row: &Row) -> bool
    ensures { result ≡ is_first (map row_value rows.now.rows) (row_value row.now) }
{
    match rows.child(row.parent, row.name.as_slice()) {
        None => false,
        Some(id) => id.0 == row.id.0,
    }
}

/// Whether the row has its place in the tree of the rows.
pub(crate) fn is_in_tree(rows: &Rows, row: &Row) -> bool
    ensures { result ≡ is_in_tree (map row_value rows.now.rows) (row_value row.now) }
{
    is_placed(rows, row) && is_first(rows, row)
}
