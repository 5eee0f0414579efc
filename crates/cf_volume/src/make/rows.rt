//! Rows of new items without a byte, put.

ghost use Rattle.std.specs.Prelude.{◌≡◌, ◌≤◌, ◌<◌, ◌+◌, ℕ, All, OnOk, OnErr};
ghost use Rattle.cf_base.specs.declared.changes.Change.{Change};
ghost use Rattle.cf_base.specs.declared.limits.TheConstants.{MOST_NUMBER};
ghost use Rattle.cf_disk.specs.Disk.{size_of};
ghost use Rattle.cf_model.specs.Changes.{put_change};
ghost use Rattle.cf_model.specs.Items.{Item};
ghost use Rattle.cf_model.specs.State.{Volume};
ghost use Rattle.cf_volume_points.specs.At.{At};
ghost use Rattle.cf_volume_points.specs.Holding.{FitsTable};
ghost use Rattle.cf_table.specs.Applied.{IsSpellable};
ghost use Rattle.cf_table.specs.Means.{IsFresh};
ghost use Rattle.cf_volume_changes.specs.NewRows.{IsMade};
ghost use Rattle.cf_volume_changes.specs.Steady.{Steady, known_of};

use cf_base::{ItemId, OutOfMemory};
use cf_table::Row;
use cf_volume_changes::{Parts, put_row};
use cf_volume_ground::Ground;

/// Puts the row of a new item without a byte, whose id is that of the next item or a later one.
pub(crate) fn put_made<G: Ground>(
    ground: &G,
    parts: &mut Parts,
    row: Row,
) -> Result<(), OutOfMemory>
    requires steady { Steady (size_of (G.state ground.now)) (known_of parts.old) }
    requires new { All (λ r. r.id.0 < row.id.0) parts.old.contents.rows.rows }
    requires next { parts.old.contents.rows.next.0 ≤ row.id.0 }
    requires id { row.id.0 < 18446744073709551615 }
    requires spellable { IsSpellable row }
    requires fresh { IsFresh row }
    requires number { row.number ≡ record { epoch = parts.old.contents.last.epoch; place = parts.old.contents.last.place + 1 } }
    requires place { parts.old.contents.last.place < MOST_NUMBER }
    requires count { parts.old.contents.count < 18446744073709551615 }
    ensures at { (v : Volume) (c : Change) (i : Item) (n : ℕ) → At (G.state ground.now) (known_of parts.old) v → IsMade c v row i n → FitsTable (put_change c v).items (put_change c v).book → OnOk result (At (G.state ground.now) (known_of parts.new) (put_change c v)) }
    ensures steady { OnOk result (Steady (size_of (G.state ground.now)) (known_of parts.new)) }
    ensures noted { OnOk result (parts.new.then ≡ parts.old.then) }
    ensures stays { OnErr result (parts.new.contents ≡ parts.old.contents) }
    ensures broken { parts.new.broken ≡ parts.old.broken }
{
    let _ = ground;
    let _ = parts.contents.rows.image_len();
    let next = ItemId(row.id.0 + 1);
    put_row(&mut parts.contents.rows, row)?;
    parts.contents.rows.set_next(next);
    parts.contents.last.place += 1;
    parts.contents.count += 1;
    Ok(())
}
