//! Items that are excluded.

ghost use Rattle.std.specs.Prelude.{◌≡◌, List};
ghost use Rattle.std.specs.List.{list_any};
ghost use Rattle.cf_engine_uploads.specs.Exclusions.{is_stored_in};
ghost use Rattle.cf_model.specs.Items.{Item};
ghost use Rattle.cf_model.specs.LookUp.{is_excluded, is_excluded_pin};
ghost use Rattle.cf_table.specs.Tables.{MeansAll};
ghost use Rattle.cf_tree.specs.Lines.{line_in};
ghost use Rattle.cf_tree.specs.Trees.{IsTree};

use cf_base::limits::MOST_PATH_NAMES;
use cf_base::{ItemId, Pin};
use cf_table::{ROOT, Rows};
use cf_tree::parent_of;

const MOST_NAMES: usize = MOST_PATH_NAMES as usize;

fn is_excluded_pin(pin: Pin) -> bool
    ensures { result ≡ is_excluded_pin pin }
{
    match pin {
        Pin::Excluded => true,
        _ => false,
    }
}

// Whether the item itself is stored as excluded.
fn is_stored(rows: &Rows, id: ItemId) -> bool
    ensures { result ≡ is_stored_in rows.now.rows id.0 }
{
    match rows.get(id) {
        Some(row) => is_excluded_pin(row.pin),
        None => false,
    }
}

// Whether the item or one above it is stored as excluded, the root left out.
fn is_line_stored(rows: &Rows, id: ItemId) -> bool
    ensures { result ≡ list_any (is_stored_in rows.now.rows) (line_in 32 rows.now.rows id) }
{
    let mut at = id;
    for _depth in 0..MOST_NAMES {
        let Some(parent) = parent_of(rows, at) else {
            return false;
        };
        if is_stored(rows, at) {
            return true;
        }
        at = parent;
    }
    false
}

/// Whether the item or one above it is stored as excluded. It takes time by the depth.
pub fn is_excluded(rows: &Rows, id: ItemId) -> bool
    ensures { (items : List Item) → MeansAll rows.now.rows items → IsTree items → result ≡ is_excluded items id }
{
    if is_stored(rows, ROOT) {
        return true;
    }
    is_line_stored(rows, id)
}
