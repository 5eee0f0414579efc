//! Searches by halves.

ghost use Rattle.std.specs.Prelude.{◌≡◌, ◌≤◌, length};
ghost use Rattle.cf_collections.specs.Split.{AreFilled, flat, front, IsSplit, last_passes};

use crate::chunks::Chunk;
use crate::probes::Probe;

/// How many items come before the place.
pub(crate) fn count_before<T, P: Probe<T>>(items: &[T], probe: &P) -> usize
    requires { IsSplit (P.is_behind probe.now) items.now }
    ensures count { result ≡ length (front (P.is_behind probe.now) items.now) }
    ensures within { result ≤ length items.now }
{
    items.partition_point(|item| probe.is_behind(item))
}

/// How many chunks come before the place as a whole.
pub(crate) fn count_chunks_before<T, P: Probe<T>>(chunks: &[Chunk<T>], probe: &P) -> usize
    requires filled { AreFilled chunks.now }
    requires split { IsSplit (P.is_behind probe.now) (flat chunks.now) }
    ensures count { result ≡ length (front (last_passes (P.is_behind probe.now)) chunks.now) }
    ensures within { result ≤ length chunks.now }
{
    chunks.partition_point(|chunk| chunk.ends_before(probe))
}
