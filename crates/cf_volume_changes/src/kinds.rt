//! Pins of rows, and of what a change moves.

ghost use Rattle.std.specs.Prelude.{◌≡◌};
ghost use Rattle.cf_table.specs.Changing.{pin_for};
ghost use Rattle.cf_table.specs.Tables.{pin_at};

use cf_base::{Change, ItemId, Pin};
use cf_table::Rows;

/// The pin of the row with the id.
pub(crate) fn pin_of(rows: &Rows, id: ItemId) -> Pin
    ensures { result ≡ pin_at rows.now.rows id }
{
    match rows.get(id) {
        Some(row) => row.pin,
        None => Pin::Unspecified,
    }
}

/// The pin of the parent that a Move names.
pub(crate) fn pin_for(rows: &Rows, change: &Change) -> Pin
    ensures { result ≡ pin_for change.now rows.now.rows }
{
    match change {
        Change::Move { parent, .. } => pin_of(rows, *parent),
        _ => Pin::Unspecified,
    }
}
