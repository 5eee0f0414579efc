//! What the identities of items say.

ghost use Rattle.std.specs.Prelude.{◌≡◌, ◌≢◌, ◌++◌, ◌<◌, length, IfOk, MatchOption};
ghost use Rattle.cf_engine_queue.specs.Identities.{IsOurs, numbers_of};
ghost use Rattle.cf_model.specs.Identities.{identity_for};
ghost use Rattle.cf_model.specs.Words.{in_bytes};

use crate::record_writes::put_8;
use cf_base::{Identity, OutOfMemory, Rid, Version};
use cf_codec::{Reader, Writer};
use std::alloc::Global;

/// What an identity that an engine gave says: the item of the remote that the local one is, and the item and version of the remote
/// of its base. 0 stands for none.
#[derive(Clone, Copy, Debug, PartialEq, Eq)]
pub struct Numbers {
    pub target: u64,
    pub base: u64,
    pub version: u64,
}

fn read(bytes: &[u8]) -> Option<Numbers>
    ensures { MatchOption result (length bytes.now ≢ 24) (λ n. (n.target < 18446744073709551616) × (n.base < 18446744073709551616) × (n.version < 18446744073709551616) × (bytes.now ≡ in_bytes 8 n.target ++ in_bytes 8 n.base ++ in_bytes 8 n.version)) }
{
    let mut r = Reader::new(bytes);
    let Ok(target) = r.u64() else {
        return None;
    };
    let Ok(base) = r.u64() else {
        return None;
    };
    let Ok(version) = r.u64() else {
        return None;
    };
    if r.end().is_err() {
        return None;
    }
    Some(Numbers {
        target,
        base,
        version,
    })
}

/// The numbers of an identity. Nothing of one that no engine gives: it is neither empty nor 24 bytes long.
pub fn numbers_of(identity: &Identity) -> Option<Numbers>
    ensures { MatchOption result (IsOurs identity.now → ⊥) (λ n. n ≡ numbers_of identity.now) }
{
    let bytes = identity.as_slice();
    if bytes.is_empty() {
        return Some(Numbers {
            target: 0,
            base: 0,
            version: 0,
        });
    }
    read(bytes)
}

fn spelled(alloc: Global, target: u64, base: u64, version: u64) -> Result<Identity, OutOfMemory>
    ensures { IfOk result (λ i. i ≡ in_bytes 8 target ++ in_bytes 8 base ++ in_bytes 8 version) }
{
    let mut out = Writer::new(alloc);
    put_8(&mut out, target)?;
    put_8(&mut out, base)?;
    put_8(&mut out, version)?;
    let bytes = out.into_blob();
    Identity::new(alloc, bytes.as_slice())
}

/// The identity of a local item which is this item of the remote, in this version. A directory has no base.
pub fn identity_for(
    alloc: Global,
    is_directory: bool,
    rid: Rid,
    version: Version,
) -> Result<Identity, OutOfMemory>
    ensures { IfOk result (λ i. i ≡ identity_for is_directory rid version) }
{
    if is_directory {
        spelled(alloc, rid.0, 0, 0)
    } else {
        spelled(alloc, rid.0, rid.0, version.0)
    }
}
