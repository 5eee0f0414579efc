//! The clusters of a file, as a change leaves them.

ghost use Rattle.std.specs.Prelude.{◌≡◌, ◌≤◌, ◌<◌, ◌*◌, ℕ, Some, length, OnOk, IfErr};
ghost use Rattle.cf_volume_blocks.specs.Bytes.{HasEnd};
ghost use Rattle.cf_clusters.specs.Area.{KeepsWhere, place};
ghost use Rattle.cf_clusters.specs.Roles.{IsCommitted, how_many, is_free};
ghost use Rattle.cf_disk.specs.Disk.{Leaves, size_of};
ghost use Rattle.cf_ranges.specs.Pairs.{cluster_at};
ghost use Rattle.cf_volume_changes.specs.Laid.{Settles};
ghost use Rattle.cf_volume_points.specs.Runs.{IsStop, Ran};

use crate::stay::blocks::stage_all;
use cf_base::Change;
use cf_clusters::Data;
use cf_ranges::{ExtentMap, RangeSet};
use cf_table::Row;
use cf_volume_changes::drop_gone;
use cf_volume_ground::Ground;
use cf_volume_points::Stop;
use std::alloc::Global;

/// Stages the blocks of a change, and drops the extents whose block then holds no byte. `row` is the row before the
/// change, and `here` what is here after it.
pub(crate) fn settle_blocks<G: Ground>(
    alloc: Global,
    ground: &mut G,
    held: &mut Data,
    row: &Row,
    here: &RangeSet,
    extents: &mut ExtentMap,
    blocks: &[u32],
    change: &Change,
) -> Result<(), Stop>
    requires room { place (length held.old) ≤ size_of (G.state ground.old) }
    requires inside { (b k : ℕ) → cluster_at extents.old b ≡ Some k → k < length held.old }
    requires end { HasEnd change.now }
    requires free { length blocks.now ≤ how_many is_free held.old }
    ensures settled { OnOk result (Settles change.now row.now blocks.now here.now (G.state ground.old) (G.state ground.new) held.old held.new extents.old extents.new) }
    ensures crash { Leaves (G.state ground.old) (G.state ground.new) (KeepsWhere IsCommitted held.old (G.state ground.old)) }
    ensures ran { Ran (4096 * length blocks.now) (G.state ground.old) (G.state ground.new) }
    ensures cause { IfErr result (λ e. IsStop e (G.state ground.old) (G.state ground.new)) }
{
    stage_all(ground, held, row, extents, blocks, change)?;
    drop_gone(alloc, held, here, extents, blocks, change)?;
    Ok(())
}
