//! Changes of items that are not there, put: they are counted, and change no item.

ghost use Rattle.std.specs.Prelude.{◌≡◌, ◌<◌, None, true, IfErr, OnOk, OnErr};
ghost use Rattle.cf_base.specs.declared.limits.TheConstants.{MOST_NUMBER};
ghost use Rattle.cf_disk.specs.Disk.{size_of};
ghost use Rattle.cf_model.specs.State.{Volume};
ghost use Rattle.cf_volume_points.specs.At.{At};
ghost use Rattle.cf_table.specs.Changing.{item_of_change, stays};
ghost use Rattle.cf_table.specs.Tables.{row_of};
ghost use Rattle.cf_volume.specs.Accepted.{FollowsAim};
ghost use Rattle.cf_volume_changes.specs.Calls.{IsCause, IsKept, IsPut};
ghost use Rattle.cf_volume_changes.specs.Steady.{Steady, known_of};
ghost use Rattle.cf_volume.specs.Written.{NotesOnly};

use crate::fullness::waits_for_room;
use cf_base::{CallError, Change, Code, Usn};
use cf_volume_changes::{Parts, clusters_asked, is_full};
use cf_volume_ground::Ground;

/// Puts a change of an item that is not there, and gives its number. It is refused and waits as one of an empty file does.
/// None where it waits for a commit; then nothing is done.
pub(crate) fn put_absent<G: Ground>(
    ground: &G,
    parts: &mut Parts,
    change: &Change,
) -> Result<Option<Usn>, CallError>
    requires kind { stays change.now ≡ true }
    requires none { row_of parts.old.contents.rows.rows (item_of_change change.now) ≡ None }
    requires steady { Steady (size_of (G.state ground.now)) (known_of parts.old) }
    requires place { parts.old.contents.last.place < MOST_NUMBER }
    requires count { parts.old.contents.count < 18446744073709551615 }
    ensures put { (v : Volume) → At (G.state ground.now) (known_of parts.old) v → IsPut change.now v (G.state ground.now) (G.state ground.now) (known_of parts.new) result }
    ensures aimed { (v : Volume) → At (G.state ground.now) (known_of parts.old) v → FollowsAim change.now v (G.state ground.now) result }
    ensures kept { IsKept ground.now (known_of parts.old) result ground.now (known_of parts.new) }
    ensures steady { OnOk result (Steady (size_of (G.state ground.now)) (known_of parts.new)) }
    ensures cause { IfErr result (λ e. IsCause e (G.state ground.now) (G.state ground.now)) }
    ensures noted { OnOk result (NotesOnly (item_of_change change.now) (known_of parts.old) (known_of parts.new)) }
    ensures stays { OnErr result (parts.new.contents ≡ parts.old.contents) }
    ensures broken { parts.new.broken ≡ parts.old.broken }
{
    let last = parts.contents.last;
    let asked = clusters_asked(change);
    if is_full(parts, asked) {
        return Err(CallError::No(Code::Full));
    }
    let blocks = asked as usize;
    if waits_for_room(ground, parts, blocks)? {
        return Ok(None);
    }
    parts.contents.last.place += 1;
    parts.contents.count += 1;
    parts.put_since = parts.put_since.saturating_add(blocks as u64);
    Ok(Some(Usn {
        epoch: last.epoch,
        place: last.place + 1,
    }))
}
