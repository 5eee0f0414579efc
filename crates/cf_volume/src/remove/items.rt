//! Removals, put.

ghost use Rattle.std.specs.Prelude.{◌≡◌, ◌<◌, ◌∷◌, [], None, Some, IfErr, IfOk, OnOk, OnErr};
ghost use Rattle.cf_base.specs.declared.codes.CallError.TheVariants as fail;
ghost use Rattle.cf_base.specs.declared.limits.TheConstants.{MOST_NUMBER};
ghost use Rattle.cf_disk.specs.Disk.{size_of};
ghost use Rattle.cf_model.specs.Changes.{why_no_room};
ghost use Rattle.cf_model.specs.Numbers.{usn_after};
ghost use Rattle.cf_model.specs.State.{Volume};
ghost use Rattle.cf_volume_points.specs.At.{At};
ghost use Rattle.cf_volume_points.specs.Keeping.{FitsBook};
ghost use Rattle.cf_table.specs.Changing.{item_of_change};
ghost use Rattle.cf_volume.specs.Accepted.{FollowsAim};
ghost use Rattle.cf_volume_changes.specs.Calls.{IsKept, IsPut};
ghost use Rattle.cf_volume_changes.specs.Keys.{IsRemove};
ghost use Rattle.cf_volume_changes.specs.Steady.{Steady, known_of};
ghost use Rattle.cf_volume.specs.Written.{NotesOnly};

use cf_base::{CallError, Change, Usn};
use cf_table::item_of;
use cf_volume_changes::{Parts, note_record, note_row, remove_item, seen_key};
use cf_volume_ground::Ground;

/// Puts a Remove, which needs no room, and gives its number. The item's path seen, its anchor and its last access go with
/// it.
pub(crate) fn put_remove<G: Ground>(
    ground: &G,
    parts: &mut Parts,
    change: &Change,
) -> Result<Option<Usn>, CallError>
    requires kind { IsRemove change.now }
    requires steady { Steady (size_of (G.state ground.now)) (known_of parts.old) }
    requires place { parts.old.contents.last.place < MOST_NUMBER }
    requires count { parts.old.contents.count < 18446744073709551615 }
    ensures put { (v : Volume) → At (G.state ground.now) (known_of parts.old) v → FitsBook change.now v.book → IsPut change.now v (G.state ground.now) (G.state ground.now) (known_of parts.new) result }
    ensures aimed { (v : Volume) → FollowsAim change.now v (G.state ground.now) result }
    ensures why { (v : Volume) → At (G.state ground.now) (known_of parts.old) v → why_no_room (change.now ∷ []) v ≡ None }
    ensures number { IfOk result (λ n. n ≡ Some (usn_after parts.old.contents.last.epoch parts.old.contents.last.place)) }
    ensures only { IfErr result (λ e. e ≡ fail.OutOfMemory) }
    ensures kept { IsKept ground.now (known_of parts.old) result ground.now (known_of parts.new) }
    ensures steady { OnOk result (Steady (size_of (G.state ground.now)) (known_of parts.new)) }
    ensures noted { OnOk result (NotesOnly (item_of_change change.now) (known_of parts.old) (known_of parts.new)) }
    ensures stays { OnErr result (parts.new.contents ≡ parts.old.contents) }
    ensures broken { parts.new.broken ≡ parts.old.broken }
{
    let _ = ground;
    let _ = parts.contents.rows.image_len();
    let last = parts.contents.last;
    let id = item_of(change);
    let key = seen_key(parts.alloc, id)?;
    note_row(
        &mut parts.then.rows,
        parts.then.next,
        &parts.contents.rows,
        id,
    )?;
    note_record(
        parts.alloc,
        &mut parts.then.records,
        &mut parts.then.made,
        &parts.contents.records,
        key.as_slice(),
    )?;
    remove_item(&mut parts.held, &mut parts.contents.rows, id);
    parts.contents.records.remove(key.as_slice());
    parts.contents.last.place += 1;
    parts.contents.count += 1;
    Ok(Some(Usn {
        epoch: last.epoch,
        place: last.place + 1,
    }))
}
