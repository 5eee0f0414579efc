//! How many clusters rows name.

ghost use Rattle.std.specs.Prelude.{◌≡◌, length, min};
ghost use Rattle.cf_volume_points.specs.Clusters.{clusters_in_rows};

use cf_table::Row;

/// How many clusters the rows name, and 4,294,967,295 where they name more.
pub(crate) fn clusters_in(rows: &[Row]) -> u32
    ensures { result ≡ min (length (clusters_in_rows rows.now)) 4294967295 }
{
    let mut clusters = 0u64;
    for row in rows {
        clusters = clusters.saturating_add(row.extents.pairs().len() as u64);
    }
    clusters.min(u32::MAX as u64) as u32
}
