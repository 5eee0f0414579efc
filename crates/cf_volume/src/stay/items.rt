//! Changes of items that stay, from a plan to the clusters.

ghost use Rattle.std.specs.Prelude.{◌≡◌, ◌<◌, ◌+◌, true, None, Some, Ok, IfErr, OnOk, OnErr};
ghost use Rattle.cf_base.specs.declared.limits.TheConstants.{MOST_NUMBER};
ghost use Rattle.cf_clusters.specs.Area.{KeepsWhere};
ghost use Rattle.cf_clusters.specs.Roles.{IsCommitted};
ghost use Rattle.cf_disk.specs.Disk.{Leaves, size_of};
ghost use Rattle.cf_model.specs.Costs.{most_of_change};
ghost use Rattle.cf_model.specs.State.{Volume};
ghost use Rattle.cf_volume_points.specs.At.{At};
ghost use Rattle.cf_table.specs.Changing.{Fits, item_of_change, stays};
ghost use Rattle.cf_table.specs.Tables.{row_of};
ghost use Rattle.cf_volume.specs.Accepted.{FollowsAim};
ghost use Rattle.cf_volume_changes.specs.Calls.{IsCause, IsKept, IsPut, Runs};
ghost use Rattle.cf_volume_changes.specs.Steady.{Steady, known_of};
ghost use Rattle.cf_volume.specs.Written.{NotesOnly, WritesAtMost};

use crate::fullness::waits_for_room;
use crate::stay::rows::put_planned;
use crate::stop_causes::fail_of;
use cf_base::{CallError, Change, Usn};
use cf_volume_changes::{Parts, plan_change, refusal_of};
use cf_volume_ground::Ground;

/// Puts a change of an item that is there and stays, and gives its number. None where it waits for a
/// commit; then nothing is done.
pub(crate) fn put_stay<G: Ground>(
    ground: &mut G,
    parts: &mut Parts,
    change: &Change,
) -> Result<Option<Usn>, CallError>
    requires kind { stays change.now ≡ true }
    requires steady { Steady (size_of (G.state ground.old)) (known_of parts.old) }
    requires there { row_of parts.old.contents.rows.rows (item_of_change change.now) ≡ None → ⊥ }
    requires fits { Fits change.now parts.old.contents.rows.rows }
    requires place { parts.old.contents.last.place < MOST_NUMBER }
    requires count { parts.old.contents.count < 18446744073709551615 }
    ensures put { (v : Volume) → At (G.state ground.old) (known_of parts.old) v → IsPut change.now v (G.state ground.old) (G.state ground.new) (known_of parts.new) result }
    ensures aimed { (v : Volume) → At (G.state ground.old) (known_of parts.old) v → FollowsAim change.now v (G.state ground.old) result }
    ensures kept { IsKept ground.old (known_of parts.old) result ground.new (known_of parts.new) }
    ensures steady { OnOk result (Steady (size_of (G.state ground.new)) (known_of parts.new)) }
    ensures crash { Leaves (G.state ground.old) (G.state ground.new) (KeepsWhere IsCommitted parts.old.held (G.state ground.old)) }
    ensures noted { OnOk result (NotesOnly (item_of_change change.now) (known_of parts.old) (known_of parts.new)) }
    ensures written { (v : Volume) → At (G.state ground.old) (known_of parts.old) v → WritesAtMost (most_of_change v.items change.now) (G.state ground.old) (G.state ground.new) }
    ensures runs { Runs (G.state ground.old) (G.state ground.new) }
    ensures cause { IfErr result (λ e. IsCause e (G.state ground.old) (G.state ground.new)) }
    ensures stays { OnErr result (parts.new.contents ≡ parts.old.contents) }
    ensures broken { parts.new.broken ≡ parts.old.broken }
{
    let _ = parts.contents.rows.image_len();
    let last = parts.contents.last;
    let number = Usn {
        epoch: last.epoch,
        place: last.place + 1,
    };
    let planned = plan_change(parts.alloc, &parts.contents.rows, change, number)?;
    if let Some(code) = refusal_of(parts, change, &planned) {
        drop(planned);
        return Err(CallError::No(code));
    }
    let waits = match waits_for_room(ground, parts, planned.blocks.len()) {
        Ok(waits) => waits,
        Err(memory) => {
            drop(planned);
            return Err(CallError::from(memory));
        }
    };
    if waits {
        drop(planned);
        return Ok(None);
    }
    match put_planned(ground, parts, planned, change) {
        Ok(()) => Ok(Some(number)),
        Err(stop) => Err(fail_of(stop)),
    }
}
