//! Changes put by their kind, with a commit before one that needs room.

ghost use Rattle.std.specs.Prelude.{◌≡◌, ◌<◌, ◌+◌, ◌∷◌, [], None, false, true, IfErr, IfOk, OnOk, OnErr};
ghost use Rattle.cf_base.specs.declared.limits.TheConstants.{MOST_NUMBER};
ghost use Rattle.cf_disk.specs.Disk.{Leaves, size_of};
ghost use Rattle.cf_model.specs.Changes.{may_need_room, put_change, why_no_room};
ghost use Rattle.cf_model.specs.Costs.{most_of_change};
ghost use Rattle.cf_model.specs.Numbers.{usn_after};
ghost use Rattle.cf_model.specs.Points.{with_room_point};
ghost use Rattle.cf_model.specs.State.{Volume};
ghost use Rattle.cf_volume_points.specs.At.{Applied, At, StandsEither, StandsLast};
ghost use Rattle.cf_volume_points.specs.Keeping.{FitsBook, IsNextId};
ghost use Rattle.cf_volume_points.specs.Sound.{IsKeepable};
ghost use Rattle.cf_table.specs.Changing.{Fits, item_of_change, stays};
ghost use Rattle.cf_volume.specs.Accepted.{FollowsAim, IsDone, IsJudged, StaysSteady};
ghost use Rattle.cf_volume_changes.specs.Calls.{Answers, IsCause, IsKept, Runs, StopsOnly};
ghost use Rattle.cf_volume_changes.specs.Steady.{Steady, known_of};
ghost use Rattle.cf_volume.specs.Written.{NotesOnly, WritesAtMost, commit_bytes};

use crate::commits::commit_parts;
use crate::copy::files::put_copy;
use crate::make::new_items::put_make;
use crate::record_changes::put_absent;
use crate::remove::items::put_remove;
use crate::stay::items::put_stay;
use cf_base::{CallError, Change, Code, Usn};
use cf_table::item_of;
use cf_volume_changes::{Parts, is_there};
use cf_volume_ground::Ground;

// Puts a change of an item that is no new one, and stays.
fn put_in_place<G: Ground>(
    ground: &mut G,
    parts: &mut Parts,
    change: &Change,
) -> Result<Option<Usn>, CallError>
    requires kind { stays change.now ≡ true }
    requires steady { Steady (size_of (G.state ground.old)) (known_of parts.old) }
    requires fits { Fits change.now parts.old.contents.rows.rows }
    requires place { parts.old.contents.last.place < MOST_NUMBER }
    requires count { parts.old.contents.count < 18446744073709551615 }
    ensures judged { (v : Volume) → At (G.state ground.old) (known_of parts.old) v → IsJudged change.now v result }
    ensures aimed { (v : Volume) → At (G.state ground.old) (known_of parts.old) v → FollowsAim change.now v (G.state ground.old) result }
    ensures done { (v : Volume) → At (G.state ground.old) (known_of parts.old) v → IsDone change.now v (G.state ground.new) (known_of parts.new) result }
    ensures kept { IsKept ground.old (known_of parts.old) result ground.new (known_of parts.new) }
    ensures steady { OnOk result (Steady (size_of (G.state ground.new)) (known_of parts.new)) }
    ensures crash { (v : Volume) → At (G.state ground.old) (known_of parts.old) v → Leaves (G.state ground.old) (G.state ground.new) (StandsLast v) }
    ensures written { (v : Volume) → At (G.state ground.old) (known_of parts.old) v → WritesAtMost (most_of_change v.items change.now) (G.state ground.old) (G.state ground.new) }
    ensures runs { Runs (G.state ground.old) (G.state ground.new) }
    ensures cause { IfErr result (λ e. IsCause e (G.state ground.old) (G.state ground.new)) }
    ensures noted { OnOk result (NotesOnly (item_of_change change.now) (known_of parts.old) (known_of parts.new)) }
    ensures stays { OnErr result (parts.new.contents ≡ parts.old.contents) }
    ensures broken { parts.new.broken ≡ parts.old.broken }
{
    if is_there(&parts.contents.rows, item_of(change)) {
        put_stay(ground, parts, change)
    } else {
        put_absent(ground, parts, change)
    }
}

// Puts a change, for which there is a number, and gives it. None where a commit has to make room first; then nothing is
// done.
fn accept<G: Ground>(
    ground: &mut G,
    parts: &mut Parts,
    change: &Change,
) -> Result<Option<Usn>, CallError>
    requires steady { Steady (size_of (G.state ground.old)) (known_of parts.old) }
    requires fits { Fits change.now parts.old.contents.rows.rows }
    requires next { IsNextId change.now parts.old.contents.rows.next }
    requires place { parts.old.contents.last.place < MOST_NUMBER }
    requires count { parts.old.contents.count < 18446744073709551615 }
    ensures judged { (v : Volume) → At (G.state ground.old) (known_of parts.old) v → IsJudged change.now v result }
    ensures aimed { (v : Volume) → At (G.state ground.old) (known_of parts.old) v → FollowsAim change.now v (G.state ground.old) result }
    ensures done { (v : Volume) → At (G.state ground.old) (known_of parts.old) v → FitsBook change.now v.book → IsDone change.now v (G.state ground.new) (known_of parts.new) result }
    ensures kept { IsKept ground.old (known_of parts.old) result ground.new (known_of parts.new) }
    ensures steady { OnOk result (Steady (size_of (G.state ground.new)) (known_of parts.new)) }
    ensures crash { (v : Volume) → At (G.state ground.old) (known_of parts.old) v → Leaves (G.state ground.old) (G.state ground.new) (StandsLast v) }
    ensures written { (v : Volume) → At (G.state ground.old) (known_of parts.old) v → WritesAtMost (most_of_change v.items change.now) (G.state ground.old) (G.state ground.new) }
    ensures runs { Runs (G.state ground.old) (G.state ground.new) }
    ensures cause { IfErr result (λ e. IsCause e (G.state ground.old) (G.state ground.new)) }
    ensures noted { OnOk result (NotesOnly (item_of_change change.now) (known_of parts.old) (known_of parts.new)) }
    ensures stays { OnErr result (parts.new.contents ≡ parts.old.contents) }
    ensures broken { parts.new.broken ≡ parts.old.broken }
{
    match change {
        Change::Make { .. } => put_make(ground, parts, change),
        Change::Copy { .. } => put_copy(ground, parts, change),
        Change::Remove { .. } => put_remove(ground, parts, change),
        _ => put_in_place(ground, parts, change),
    }
}

// Puts a change that needs room, after a commit.
fn accept_after_commit<G: Ground>(
    ground: &mut G,
    parts: &mut Parts,
    change: &Change,
) -> Result<(), CallError>
    requires steady { Steady (size_of (G.state ground.old)) (known_of parts.old) }
    requires fits { Fits change.now parts.old.contents.rows.rows }
    requires next { IsNextId change.now parts.old.contents.rows.next }
    requires place { parts.old.contents.last.place < MOST_NUMBER }
    requires count { parts.old.contents.count < 18446744073709551615 }
    ensures only { (v : Volume) → At (G.state ground.old) (known_of parts.old) v → IsKeepable v → why_no_room (change.now ∷ []) v ≡ None → IfErr result StopsOnly }
    ensures done { (v : Volume) → At (G.state ground.old) (known_of parts.old) v → IsKeepable v → FitsBook change.now v.book → OnOk result (At (G.state ground.new) (known_of parts.new) (put_change change.now (with_room_point v))) }
    ensures steady { StaysSteady (size_of (G.state ground.new)) (known_of parts.new) result }
    ensures crash { (v : Volume) → At (G.state ground.old) (known_of parts.old) v → IsKeepable v → Leaves (G.state ground.old) (G.state ground.new) (StandsEither v) }
    ensures written { (v : Volume) → At (G.state ground.old) (known_of parts.old) v → IsKeepable v → WritesAtMost (commit_bytes (known_of parts.old) + most_of_change v.items change.now) (G.state ground.old) (G.state ground.new) }
    ensures runs { Runs (G.state ground.old) (G.state ground.new) }
    ensures cause { IfErr result (λ e. IsCause e (G.state ground.old) (G.state ground.new)) }
    ensures noted { OnOk result (NotesOnly (item_of_change change.now) (known_of parts.old) (known_of parts.new)) }
    ensures stays { OnErr result (parts.new.contents ≡ parts.old.contents) }
    ensures broken { parts.new.broken ≡ parts.old.broken }
{
    commit_parts(ground, parts)?;
    if accept(ground, parts, change)?.is_some() {
        return Ok(());
    }
    Err(CallError::No(Code::Full))
}

/// Puts a change, for which a place is left, and gives its number. A commit comes first where the change waits for
/// one. There is no memory for a change that cannot be counted, nor where it may not wait and too few clusters are free.
pub(crate) fn accept_with_room<G: Ground>(
    ground: &mut G,
    parts: &mut Parts,
    change: &Change,
) -> Result<Usn, CallError>
    requires steady { Steady (size_of (G.state ground.old)) (known_of parts.old) }
    requires fits { Fits change.now parts.old.contents.rows.rows }
    requires next { IsNextId change.now parts.old.contents.rows.next }
    requires place { parts.old.contents.last.place < MOST_NUMBER }
    ensures why { (v : Volume) → At (G.state ground.old) (known_of parts.old) v → (may_need_room change.now v ≡ true → IsKeepable v) → Answers change.now v (record { disk = ground.old; known = known_of parts.old }) result (record { disk = ground.new; known = known_of parts.new }) }
    ensures number { IfOk result (λ n. n ≡ usn_after parts.old.contents.last.epoch parts.old.contents.last.place) }
    ensures done { (v : Volume) → At (G.state ground.old) (known_of parts.old) v → FitsBook change.now v.book → (may_need_room change.now v ≡ true → IsKeepable v) → OnOk result (Applied (G.state ground.new) (known_of parts.new) change.now v) }
    ensures steady { StaysSteady (size_of (G.state ground.new)) (known_of parts.new) result }
    ensures crash { (v : Volume) → At (G.state ground.old) (known_of parts.old) v → (may_need_room change.now v ≡ true → IsKeepable v) → Leaves (G.state ground.old) (G.state ground.new) (StandsEither v) }
    ensures kept_crash { (v : Volume) → At (G.state ground.old) (known_of parts.old) v → may_need_room change.now v ≡ false → Leaves (G.state ground.old) (G.state ground.new) (StandsLast v) }
    ensures written { (v : Volume) → At (G.state ground.old) (known_of parts.old) v → (may_need_room change.now v ≡ true → IsKeepable v) → WritesAtMost (commit_bytes (known_of parts.old) + most_of_change v.items change.now) (G.state ground.old) (G.state ground.new) }
    ensures kept_written { (v : Volume) → At (G.state ground.old) (known_of parts.old) v → may_need_room change.now v ≡ false → WritesAtMost (most_of_change v.items change.now) (G.state ground.old) (G.state ground.new) }
    ensures runs { Runs (G.state ground.old) (G.state ground.new) }
    ensures cause { IfErr result (λ e. IsCause e (G.state ground.old) (G.state ground.new)) }
    ensures noted { OnOk result (NotesOnly (item_of_change change.now) (known_of parts.old) (known_of parts.new)) }
    ensures stays { OnErr result (parts.new.contents ≡ parts.old.contents) }
    ensures broken { parts.new.broken ≡ parts.old.broken }
{
    if parts.contents.count == u64::MAX {
        return Err(CallError::OutOfMemory);
    }
    let last = parts.contents.last;
    let number = Usn {
        epoch: last.epoch,
        place: last.place + 1,
    };
    if accept(ground, parts, change)?.is_some() {
        return Ok(number);
    }
    accept_after_commit(ground, parts, change)?;
    Ok(number)
}
