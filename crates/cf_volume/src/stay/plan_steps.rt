//! Planned changes, carried out on the table and the clusters.

ghost use Rattle.std.specs.Prelude.{◌≡◌, ◌≤◌, ◌<◌, ◌*◌, ℕ, None, Some, length, OnOk, OnErr, IfErr};
ghost use Rattle.cf_volume_blocks.specs.Bytes.{HasEnd};
ghost use Rattle.cf_clusters.specs.Area.{KeepsWhere, place};
ghost use Rattle.cf_clusters.specs.Roles.{IsCommitted, how_many, is_free};
ghost use Rattle.cf_disk.specs.Disk.{Leaves, size_of};
ghost use Rattle.cf_ranges.specs.Pairs.{cluster_at};
ghost use Rattle.cf_table.specs.Applied.{IsSpellable};
ghost use Rattle.cf_table.specs.Tables.{row_of};
ghost use Rattle.cf_volume_changes.specs.Laid.{Carries};
ghost use Rattle.cf_volume_points.specs.Runs.{IsStop, Ran};

use crate::stay::clusters::settle_blocks;
use cf_base::{Change, ItemId};
use cf_clusters::Data;
use cf_table::Rows;
use cf_volume_changes::{Planned, put_row};
use cf_volume_ground::Ground;
use cf_volume_points::Stop;
use std::alloc::Global;

/// Carries out a planned change of an item that is there.
pub(crate) fn change_item<G: Ground>(
    alloc: Global,
    ground: &mut G,
    held: &mut Data,
    rows: &mut Rows,
    id: ItemId,
    planned: Planned,
    change: &Change,
) -> Result<(), Stop>
    requires there { row_of rows.old.rows id ≡ None → ⊥ }
    requires room { place (length held.old) ≤ size_of (G.state ground.old) }
    requires inside { (b k : ℕ) → cluster_at planned.row.extents b ≡ Some k → k < length held.old }
    requires end { HasEnd change.now }
    requires free { length planned.blocks.items ≤ how_many is_free held.old }
    requires spellable { IsSpellable planned.row }
    ensures carried { OnOk result (Carries change.now id planned.row planned.blocks.items (G.state ground.old) (G.state ground.new) held.old held.new rows.old rows.new) }
    ensures crash { Leaves (G.state ground.old) (G.state ground.new) (KeepsWhere IsCommitted held.old (G.state ground.old)) }
    ensures ran { Ran (4096 * length planned.blocks.items) (G.state ground.old) (G.state ground.new) }
    ensures stays { OnErr result (rows.new ≡ rows.old) }
    ensures cause { IfErr result (λ e. IsStop e (G.state ground.old) (G.state ground.new)) }
{
    let Planned {
        row: mut after,
        blocks,
    } = planned;
    let settled = match rows.get(id) {
        None => unreachable!(),
        Some(row) => settle_blocks(
            alloc,
            ground,
            held,
            row,
            &after.here,
            &mut after.extents,
            &blocks,
            change,
        ),
    };
    drop(blocks);
    match settled {
        Ok(()) => {}
        Err(stop) => {
            drop(after);
            return Err(stop);
        }
    }
    put_row(rows, after)?;
    Ok(())
}
