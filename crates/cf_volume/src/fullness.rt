//! Whether a change waits for a commit.

ghost use Rattle.std.specs.Prelude.{◌≡◌, ◌≤◌, ℕ, true, false, Some, IfOk};
ghost use Rattle.cf_clusters.specs.Roles.{how_many, is_free};
ghost use Rattle.cf_volume_changes.specs.Steady.{known_of};
ghost use Rattle.cf_volume_changes.specs.Waits.{IsLight, MayWait};

use cf_base::OutOfMemory;
use cf_volume_changes::{Parts, is_heavy};
use cf_volume_ground::Ground;

/// Whether a change that puts so many blocks waits for a commit. Where the ground wants a commit after no count of changes, a
/// change waits that has too few free clusters. Where the ground wants one, a change waits at that count alone, and only if
/// it puts blocks which, with those of the last point and of the changes since, are more than the volume may use.
///
/// OutOfMemory where the ground wants a commit, the change does not wait and too few clusters are free. On a ground that has
/// three times the clusters that the volume may use this does not come: the last point, the state now and the change have
/// room beside each other there.
pub(crate) fn waits_for_room<G: Ground>(
    ground: &G,
    parts: &Parts,
    blocks: usize,
) -> Result<bool, OutOfMemory>
    ensures waits { IfOk result (λ w. w ≡ true → MayWait (known_of parts.now) blocks) }
    ensures wanted { IfOk result (λ w. w ≡ true → (n : ℕ) → (G.state ground.now).settings.aim ≡ Some n → n ≡ parts.now.contents.count) }
    ensures free { IfOk result (λ w. w ≡ false → blocks ≤ how_many is_free parts.now.held) }
    ensures light { IfOk result (λ w. w ≡ false → (G.state ground.now).settings.aim ≡ Some parts.now.contents.count → IsLight (known_of parts.now) blocks) }
{
    let lacks = (parts.held.free() as usize) < blocks;
    let Some(count) = ground.aimed() else {
        return Ok(lacks);
    };
    if count == parts.contents.count && is_heavy(parts, blocks) {
        return Ok(true);
    }
    if lacks {
        return Err(OutOfMemory);
    }
    Ok(false)
}
