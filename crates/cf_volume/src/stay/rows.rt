//! Changes of items that stay, put.

ghost use Rattle.std.specs.Prelude.{◌≡◌, ◌≤◌, ◌<◌, ◌*◌, true, None, Some, length, IfErr, OnOk, OnErr};
ghost use Rattle.cf_base.specs.declared.limits.TheConstants.{MOST_NUMBER};
ghost use Rattle.cf_volume_blocks.specs.Bytes.{HasEnd};
ghost use Rattle.cf_clusters.specs.Area.{KeepsWhere};
ghost use Rattle.cf_clusters.specs.Roles.{IsCommitted, how_many, is_free};
ghost use Rattle.cf_disk.specs.Disk.{Leaves, size_of};
ghost use Rattle.cf_model.specs.Changes.{put_change};
ghost use Rattle.cf_model.specs.Numbers.{usn_after};
ghost use Rattle.cf_model.specs.State.{Volume};
ghost use Rattle.cf_volume_points.specs.At.{At};
ghost use Rattle.cf_volume_points.specs.Holding.{FitsTable};
ghost use Rattle.cf_volume_points.specs.Runs.{IsStop, Ran};
ghost use Rattle.cf_table.specs.Changing.{item_of_change, pin_for, stays};
ghost use Rattle.cf_table.specs.Tables.{row_of};
ghost use Rattle.cf_table.specs.declared.rows.Row.{Row};
ghost use Rattle.cf_volume_changes.specs.Laid.{Plans};
ghost use Rattle.cf_volume_changes.specs.Steady.{Steady, known_of};
ghost use Rattle.cf_volume.specs.Written.{NotesOnly};

use crate::stay::plan_steps::change_item;
use cf_base::Change;
use cf_table::item_of;
use cf_volume_changes::{Parts, Planned, note_row};
use cf_volume_ground::Ground;
use cf_volume_points::Stop;

/// Puts a planned change of an item that stays. The clusters that it needs are free, and there is a number for it.
pub(crate) fn put_planned<G: Ground>(
    ground: &mut G,
    parts: &mut Parts,
    planned: Planned,
    change: &Change,
) -> Result<(), Stop>
    requires kind { stays change.now ≡ true }
    requires steady { Steady (size_of (G.state ground.old)) (known_of parts.old) }
    requires there { row_of parts.old.contents.rows.rows (item_of_change change.now) ≡ None → ⊥ }
    requires plan { (r : Row) → row_of parts.old.contents.rows.rows (item_of_change change.now) ≡ Some r → Plans change.now (pin_for change.now parts.old.contents.rows.rows) (usn_after parts.old.contents.last.epoch parts.old.contents.last.place) r planned.row planned.blocks.items }
    requires end { HasEnd change.now }
    requires free { length planned.blocks.items ≤ how_many is_free parts.old.held }
    requires place { parts.old.contents.last.place < MOST_NUMBER }
    requires count { parts.old.contents.count < 18446744073709551615 }
    ensures at { (v : Volume) → At (G.state ground.old) (known_of parts.old) v → FitsTable (put_change change.now v).items (put_change change.now v).book → OnOk result (At (G.state ground.new) (known_of parts.new) (put_change change.now v)) }
    ensures steady { OnOk result (Steady (size_of (G.state ground.new)) (known_of parts.new)) }
    ensures crash { Leaves (G.state ground.old) (G.state ground.new) (KeepsWhere IsCommitted parts.old.held (G.state ground.old)) }
    ensures noted { OnOk result (NotesOnly (item_of_change change.now) (known_of parts.old) (known_of parts.new)) }
    ensures ran { Ran (4096 * length planned.blocks.items) (G.state ground.old) (G.state ground.new) }
    ensures cause { IfErr result (λ e. IsStop e (G.state ground.old) (G.state ground.new)) }
    ensures stays { OnErr result (parts.new.contents ≡ parts.old.contents) }
    ensures broken { parts.new.broken ≡ parts.old.broken }
{
    let id = item_of(change);
    let blocks = planned.blocks.len();
    let _ = parts.contents.rows.image_len();
    match note_row(
        &mut parts.then.rows,
        parts.then.next,
        &parts.contents.rows,
        id,
    ) {
        Ok(()) => {}
        Err(memory) => {
            drop(planned);
            return Err(Stop::from(memory));
        }
    }
    change_item(
        parts.alloc,
        ground,
        &mut parts.held,
        &mut parts.contents.rows,
        id,
        planned,
        change,
    )?;
    parts.contents.last.place += 1;
    parts.contents.count += 1;
    parts.put_since = parts.put_since.saturating_add(blocks as u64);
    Ok(())
}
