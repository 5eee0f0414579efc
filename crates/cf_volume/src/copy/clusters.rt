//! The clusters of a file, copied into free ones.

ghost use Rattle.std.specs.Prelude.{◌≡◌, ◌≤◌, ◌<◌, ◌*◌, [], ℕ, All, None, Some, length, IfErr, OnOk, OnErr};
ghost use Rattle.cf_clusters.specs.Area.{KeepsWhere, place};
ghost use Rattle.cf_clusters.specs.Roles.{IsCommitted, IsUsed, how_many, is_free};
ghost use Rattle.cf_disk.specs.Disk.{Leaves, size_of};
ghost use Rattle.cf_volume_points.specs.Runs.{IsStop, Ran};
ghost use Rattle.cf_volume_points.specs.Staging.{StagesBlock, names};
ghost use Rattle.cf_volume_points.specs.Standing.{cluster_on};
ghost use Rattle.cf_ranges.specs.Pairs.{cluster_at};
ghost use Rattle.cf_table.specs.Applied.{IsSpellable};
ghost use Rattle.cf_table.specs.Tables.{row_of};
ghost use Rattle.cf_table.specs.declared.rows.Row.{Row};
ghost use Rattle.cf_volume_changes.specs.Calls.{Runs};
ghost use Rattle.cf_volume.specs.Copies.{CopiesAll, Duplicates};

use crate::stay::blocks::{load, put_block};
use cf_base::ItemId;
use cf_clusters::Data;
use cf_ranges::ExtentMap;
use cf_table::{Row, Rows};
use cf_volume_changes::put_row;
use cf_volume_ground::Ground;
use cf_volume_points::Stop;

// Stages the bytes of a cluster as a block of another file.
fn copy_block<G: Ground>(
    ground: &mut G,
    held: &mut Data,
    cluster: u32,
    extents: &mut ExtentMap,
    number: u32,
) -> Result<(), Stop>
    requires room { place (length held.old) ≤ size_of (G.state ground.old) }
    requires cluster { cluster < length held.old }
    requires inside { (b k : ℕ) → cluster_at extents.old b ≡ Some k → k < length held.old }
    requires free { 0 < how_many is_free held.old }
    ensures staged { OnOk result (StagesBlock number (cluster_on (G.state ground.old).seen cluster) (G.state ground.old) (G.state ground.new) held.old held.new extents.old extents.new) }
    ensures crash { Leaves (G.state ground.old) (G.state ground.new) (KeepsWhere IsUsed held.old (G.state ground.old)) }
    ensures ran { Ran 4096 (G.state ground.old) (G.state ground.new) }
    ensures cause { IfErr result (λ e. IsStop e (G.state ground.old) (G.state ground.new)) }
    ensures long { length held.new ≡ length held.old }
{
    let mut block = [0u8; 4096];
    load(ground, held, Some(cluster), &mut block)?;
    put_block(ground, held, extents, number, &block)?;
    Ok(())
}

// Stages the bytes of a file's clusters as the blocks of another, which has none yet.
fn copy_all<G: Ground>(
    ground: &mut G,
    held: &mut Data,
    source: &[(u32, u32)],
    extents: &mut ExtentMap,
) -> Result<(), Stop>
    requires room { place (length held.old) ≤ size_of (G.state ground.old) }
    requires inside { All (λ k. k < length held.old) (names source.now) }
    requires none { extents.old ≡ [] }
    requires free { length source.now ≤ how_many is_free held.old }
    ensures copied { OnOk result (CopiesAll source.now source.now (G.state ground.old) (G.state ground.new) held.old held.new extents.new) }
    ensures crash { Leaves (G.state ground.old) (G.state ground.new) (KeepsWhere IsCommitted held.old (G.state ground.old)) }
    ensures ran { Ran (4096 * length source.now) (G.state ground.old) (G.state ground.new) }
    ensures cause { IfErr result (λ e. IsStop e (G.state ground.old) (G.state ground.new)) }
    ensures long { length held.new ≡ length held.old }
{
    for pair in source {
        copy_block(ground, held, pair.1, extents, pair.0)?;
    }
    Ok(())
}

/// Puts the planned row of a copy of a file. Its blocks get clusters of their own, with the same bytes.
pub(crate) fn copy_item<G: Ground>(
    ground: &mut G,
    held: &mut Data,
    rows: &mut Rows,
    from: ItemId,
    planned: Row,
) -> Result<(), Stop>
    requires there { row_of rows.old.rows from ≡ None → ⊥ }
    requires room { place (length held.old) ≤ size_of (G.state ground.old) }
    requires inside { (r : Row) → row_of rows.old.rows from ≡ Some r → All (λ k. k < length held.old) (names r.extents) }
    requires free { (r : Row) → row_of rows.old.rows from ≡ Some r → length r.extents ≤ how_many is_free held.old }
    requires none { planned.extents ≡ [] }
    requires spellable { IsSpellable planned }
    ensures copied { OnOk result (Duplicates from planned (G.state ground.old) (G.state ground.new) held.old held.new rows.old rows.new) }
    ensures crash { Leaves (G.state ground.old) (G.state ground.new) (KeepsWhere IsCommitted held.old (G.state ground.old)) }
    ensures ran { (r : Row) → row_of rows.old.rows from ≡ Some r → Ran (4096 * length r.extents) (G.state ground.old) (G.state ground.new) }
    ensures runs { Runs (G.state ground.old) (G.state ground.new) }
    ensures stays { OnErr result (rows.new ≡ rows.old) }
    ensures cause { IfErr result (λ e. IsStop e (G.state ground.old) (G.state ground.new)) }
{
    let mut row = planned;
    let copied = match rows.get(from) {
        None => unreachable!(),
        Some(source) => copy_all(ground, held, source.extents.pairs(), &mut row.extents),
    };
    match copied {
        Ok(()) => {}
        Err(stop) => {
            drop(row);
            return Err(stop);
        }
    }
    put_row(rows, row)?;
    Ok(())
}
