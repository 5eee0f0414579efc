//! Copies of files, judged and put.

ghost use Rattle.std.specs.Prelude.{◌≡◌, ◌≤◌, ◌<◌, ◌+◌, ◌*◌, All, None, Some, length, IfErr, OnOk, OnErr};
ghost use Rattle.cf_base.specs.declared.changes.Change.{Change};
ghost use Rattle.cf_base.specs.declared.limits.TheConstants.{MOST_NUMBER};
ghost use Rattle.cf_clusters.specs.Area.{KeepsWhere};
ghost use Rattle.cf_clusters.specs.Roles.{IsCommitted, how_many, is_free};
ghost use Rattle.cf_disk.specs.Disk.{Leaves, size_of};
ghost use Rattle.cf_model.specs.Changes.{put_change};
ghost use Rattle.cf_model.specs.Costs.{most_of_change};
ghost use Rattle.cf_model.specs.Items.{Item};
ghost use Rattle.cf_model.specs.Numbers.{usn_after};
ghost use Rattle.cf_model.specs.State.{Volume};
ghost use Rattle.cf_volume_points.specs.At.{At};
ghost use Rattle.cf_volume_points.specs.Holding.{FitsTable};
ghost use Rattle.cf_volume_points.specs.Keeping.{IsNextId};
ghost use Rattle.cf_volume_points.specs.Runs.{IsStop, Ran};
ghost use Rattle.cf_table.specs.Applied.{IsSpellable};
ghost use Rattle.cf_table.specs.Changing.{Fits, item_of_change};
ghost use Rattle.cf_table.specs.Means.{IsFresh};
ghost use Rattle.cf_table.specs.Tables.{row_of};
ghost use Rattle.cf_table.specs.declared.rows.Row.{Row};
ghost use Rattle.cf_volume.specs.Accepted.{FollowsAim};
ghost use Rattle.cf_volume_changes.specs.Calls.{IsCause, IsKept, IsPut, Runs};
ghost use Rattle.cf_volume_changes.specs.NewRows.{IsCopied, IsCopy};
ghost use Rattle.cf_volume_changes.specs.Steady.{Steady, known_of};
ghost use Rattle.cf_volume.specs.Written.{NotesOnly, WritesAtMost};

use crate::copy::clusters::copy_item;
use crate::fullness::waits_for_room;
use crate::stop_causes::fail_of;
use cf_base::{CallError, Change, ItemId, Usn};
use cf_table::{Row, Rows};
use cf_volume_changes::{Parts, plan_copied, refusal_of_new};
use cf_volume_ground::Ground;
use cf_volume_points::Stop;

// How many blocks of an item have a cluster.
fn block_count(rows: &Rows, id: ItemId) -> usize
    ensures { (r : Row) → row_of rows.now.rows id ≡ Some r → result ≡ length r.extents }
{
    match rows.get(id) {
        None => 0,
        Some(row) => row.extents.pairs().len(),
    }
}

// Puts the planned row of a copy of a file, which has so many blocks. The clusters that it needs are free, and there is a
// number for it.
fn put_copied<G: Ground>(
    ground: &mut G,
    parts: &mut Parts,
    from: ItemId,
    row: Row,
    blocks: usize,
) -> Result<(), Stop>
    requires steady { Steady (size_of (G.state ground.old)) (known_of parts.old) }
    requires there { row_of parts.old.contents.rows.rows from ≡ None → ⊥ }
    requires free { (r : Row) → row_of parts.old.contents.rows.rows from ≡ Some r → length r.extents ≤ how_many is_free parts.old.held }
    requires blocks { (r : Row) → row_of parts.old.contents.rows.rows from ≡ Some r → blocks ≡ length r.extents }
    requires new { All (λ r. r.id.0 < row.id.0) parts.old.contents.rows.rows }
    requires next { parts.old.contents.rows.next.0 ≤ row.id.0 }
    requires id { row.id.0 < 18446744073709551615 }
    requires spellable { IsSpellable row }
    requires fresh { IsFresh row }
    requires number { row.number ≡ usn_after parts.old.contents.last.epoch parts.old.contents.last.place }
    requires place { parts.old.contents.last.place < MOST_NUMBER }
    requires count { parts.old.contents.count < 18446744073709551615 }
    ensures at { (v : Volume) (c : Change) (i : Item) → At (G.state ground.old) (known_of parts.old) v → IsCopied c v row i from → FitsTable (put_change c v).items (put_change c v).book → OnOk result (At (G.state ground.new) (known_of parts.new) (put_change c v)) }
    ensures steady { OnOk result (Steady (size_of (G.state ground.new)) (known_of parts.new)) }
    ensures crash { Leaves (G.state ground.old) (G.state ground.new) (KeepsWhere IsCommitted parts.old.held (G.state ground.old)) }
    ensures ran { (r : Row) → row_of parts.old.contents.rows.rows from ≡ Some r → Ran (4096 * length r.extents) (G.state ground.old) (G.state ground.new) }
    ensures runs { Runs (G.state ground.old) (G.state ground.new) }
    ensures cause { IfErr result (λ e. IsStop e (G.state ground.old) (G.state ground.new)) }
    ensures noted { OnOk result (parts.new.then ≡ parts.old.then) }
    ensures stays { OnErr result (parts.new.contents ≡ parts.old.contents) }
    ensures broken { parts.new.broken ≡ parts.old.broken }
{
    let _ = parts.contents.rows.image_len();
    let next = ItemId(row.id.0 + 1);
    copy_item(ground, &mut parts.held, &mut parts.contents.rows, from, row)?;
    parts.contents.rows.set_next(next);
    parts.contents.last.place += 1;
    parts.contents.count += 1;
    parts.put_since = parts.put_since.saturating_add(blocks as u64);
    Ok(())
}

// Puts the planned row of a copy of a file, unless the change is refused, and gives its number. None where it waits for
// a commit; then nothing is done.
fn put_judged<G: Ground>(
    ground: &mut G,
    parts: &mut Parts,
    from: ItemId,
    row: Row,
) -> Result<Option<Usn>, CallError>
    requires steady { Steady (size_of (G.state ground.old)) (known_of parts.old) }
    requires there { row_of parts.old.contents.rows.rows from ≡ None → ⊥ }
    requires new { All (λ r. r.id.0 < row.id.0) parts.old.contents.rows.rows }
    requires next { parts.old.contents.rows.next.0 ≤ row.id.0 }
    requires id { row.id.0 < 18446744073709551615 }
    requires spellable { IsSpellable row }
    requires fresh { IsFresh row }
    requires number { row.number ≡ usn_after parts.old.contents.last.epoch parts.old.contents.last.place }
    requires place { parts.old.contents.last.place < MOST_NUMBER }
    requires count { parts.old.contents.count < 18446744073709551615 }
    ensures put { (v : Volume) (c : Change) (i : Item) → At (G.state ground.old) (known_of parts.old) v → IsCopied c v row i from → IsPut c v (G.state ground.old) (G.state ground.new) (known_of parts.new) result }
    ensures aimed { (v : Volume) (c : Change) (i : Item) → At (G.state ground.old) (known_of parts.old) v → IsCopied c v row i from → FollowsAim c v (G.state ground.old) result }
    ensures kept { IsKept ground.old (known_of parts.old) result ground.new (known_of parts.new) }
    ensures steady { OnOk result (Steady (size_of (G.state ground.new)) (known_of parts.new)) }
    ensures crash { Leaves (G.state ground.old) (G.state ground.new) (KeepsWhere IsCommitted parts.old.held (G.state ground.old)) }
    ensures written { (v : Volume) (c : Change) (i : Item) → At (G.state ground.old) (known_of parts.old) v → IsCopied c v row i from → WritesAtMost (most_of_change v.items c) (G.state ground.old) (G.state ground.new) }
    ensures runs { Runs (G.state ground.old) (G.state ground.new) }
    ensures cause { IfErr result (λ e. IsCause e (G.state ground.old) (G.state ground.new)) }
    ensures noted { OnOk result (parts.new.then ≡ parts.old.then) }
    ensures stays { OnErr result (parts.new.contents ≡ parts.old.contents) }
    ensures broken { parts.new.broken ≡ parts.old.broken }
{
    let number = row.number;
    let blocks = block_count(&parts.contents.rows, from);
    if let Some(code) = refusal_of_new(parts, &row, blocks) {
        drop(row);
        return Err(CallError::No(code));
    }
    let waits = match waits_for_room(ground, parts, blocks) {
        Ok(waits) => waits,
        Err(memory) => {
            drop(row);
            return Err(CallError::from(memory));
        }
    };
    if waits {
        drop(row);
        return Ok(None);
    }
    match put_copied(ground, parts, from, row, blocks) {
        Ok(()) => Ok(Some(number)),
        Err(stop) => Err(fail_of(stop)),
    }
}

/// Puts a Copy, unless it is refused, and gives its number. None where it waits for a commit; then nothing is
/// done.
pub(crate) fn put_copy<G: Ground>(
    ground: &mut G,
    parts: &mut Parts,
    change: &Change,
) -> Result<Option<Usn>, CallError>
    requires kind { IsCopy change.now }
    requires steady { Steady (size_of (G.state ground.old)) (known_of parts.old) }
    requires fits { Fits change.now parts.old.contents.rows.rows }
    requires next { IsNextId change.now parts.old.contents.rows.next }
    requires place { parts.old.contents.last.place < MOST_NUMBER }
    requires count { parts.old.contents.count < 18446744073709551615 }
    ensures put { (v : Volume) → At (G.state ground.old) (known_of parts.old) v → IsPut change.now v (G.state ground.old) (G.state ground.new) (known_of parts.new) result }
    ensures aimed { (v : Volume) → At (G.state ground.old) (known_of parts.old) v → FollowsAim change.now v (G.state ground.old) result }
    ensures kept { IsKept ground.old (known_of parts.old) result ground.new (known_of parts.new) }
    ensures steady { OnOk result (Steady (size_of (G.state ground.new)) (known_of parts.new)) }
    ensures crash { Leaves (G.state ground.old) (G.state ground.new) (KeepsWhere IsCommitted parts.old.held (G.state ground.old)) }
    ensures written { (v : Volume) → At (G.state ground.old) (known_of parts.old) v → WritesAtMost (most_of_change v.items change.now) (G.state ground.old) (G.state ground.new) }
    ensures runs { Runs (G.state ground.old) (G.state ground.new) }
    ensures cause { IfErr result (λ e. IsCause e (G.state ground.old) (G.state ground.new)) }
    ensures noted { OnOk result (NotesOnly (item_of_change change.now) (known_of parts.old) (known_of parts.new)) }
    ensures stays { OnErr result (parts.new.contents ≡ parts.old.contents) }
    ensures broken { parts.new.broken ≡ parts.old.broken }
{
    let last = parts.contents.last;
    let number = Usn {
        epoch: last.epoch,
        place: last.place + 1,
    };
    match change {
        Change::Copy {
            item,
            from,
            parent,
            name,
        } => {
            let rows = &parts.contents.rows;
            let row = plan_copied(parts.alloc, rows, *item, *from, *parent, name, number)?;
            put_judged(ground, parts, *from, row)
        }
        _ => unreachable!(),
    }
}
