//! Whether a number is left for a change, and whether it finds the clusters that it needs.

ghost use Rattle.std.specs.Prelude.{◌≡◌, ◌≤◌, ◌<◌, ◌^◌, true, false, IsFalse, IsTrue};
ghost use Rattle.cf_base.specs.declared.limits.TheConstants.{MOST_NUMBER};
ghost use Rattle.cf_clusters.specs.Roles.{how_many, is_now};
ghost use Rattle.cf_volume_changes.specs.Steady.{known_of};
ghost use Rattle.cf_volume_changes.specs.Waits.{IsLight, MayWait, passes};

use crate::parts::Parts;
use cf_volume_image::Contents;

/// The greatest place of an epoch.
const MOST: u32 = 4_294_967_295;

/// Whether a place is left for one more change.
pub fn has_place(contents: &Contents) -> bool
    ensures yes { IsTrue result → contents.now.last.place < MOST_NUMBER }
    ensures no { IsFalse result → MOST_NUMBER ≤ contents.now.last.place }
{
    contents.last.place < MOST
}

/// Whether the state would hold more clusters than the volume may use with so many more, and there are more.
pub fn is_full(parts: &Parts, more: u128) -> bool
    requires { more < 2 ^ 80 }
    ensures { result ≡ passes parts.now.limit (how_many is_now parts.now.held) more }
{
    more > 0 && parts.held.used() as u128 + more > parts.limit as u128
}

/// Whether so many blocks are put which, with the clusters of the last point and what changes put since, pass the limit.
pub fn is_heavy(parts: &Parts, blocks: usize) -> bool
    ensures heavy { result ≡ true → MayWait (known_of parts.now) blocks }
    ensures light { result ≡ false → IsLight (known_of parts.now) blocks }
{
    let put = parts.put_since as u128 + blocks as u128;
    blocks > 0 && parts.used_then as u128 + put > parts.limit as u128
}
