//! Rows taken out, with their clusters.

ghost use Rattle.std.specs.Prelude.{◌≡◌, ◌<◌, All, length, option_copied};
ghost use Rattle.cf_volume_points.specs.Clusters.{named_in};
ghost use Rattle.cf_volume_points.specs.Staging.{DropsAll, names};
ghost use Rattle.cf_table.specs.Tables.{row_of, without_row};

use cf_base::ItemId;
use cf_clusters::Data;
use cf_table::{Row, Rows};

// Drops the clusters of extents.
fn drop_clusters(held: &mut Data, pairs: &[(u32, u32)])
    requires { All (λ k. k < length held.old) (names pairs.now) }
    ensures { DropsAll (names pairs.now) held.old held.new }
{
    for pair in pairs {
        held.drop_block(pair.1);
    }
}

fn drop_row(held: &mut Data, row: Option<&Row>)
    requires { All (λ k. k < length held.old) (named_in (option_copied row)) }
    ensures { DropsAll (named_in (option_copied row.entry)) held.old held.new }
{
    match row {
        None => {}
        Some(row) => drop_clusters(held, row.extents.pairs()),
    }
}

/// Takes the row of an item out, if it is there, and drops its clusters.
pub fn remove_item(held: &mut Data, rows: &mut Rows, id: ItemId)
    requires { All (λ k. k < length held.old) (named_in (row_of rows.old.rows id)) }
    ensures drops { DropsAll (named_in (row_of rows.old.rows id)) held.old held.new }
    ensures rows { rows.new ≡ record rows.old { rows = without_row id rows.old.rows } }
{
    drop_row(held, rows.get(id));
    rows.remove_row(id);
}
