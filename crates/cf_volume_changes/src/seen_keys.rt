//! Keys of the records of paths seen.

ghost use Rattle.std.specs.Prelude.{◌≡◌, ◌≤◌, ◌<◌, ◌^◌, length, IfOk};
ghost use Rattle.cf_volume_changes.specs.Keys.{seen_key};

use cf_base::{Blob, ItemId, OutOfMemory};
use std::alloc::Global;

/// The key of the record of an item's path seen. OutOfMemory where there is none.
pub fn seen_key(alloc: Global, id: ItemId) -> Result<Blob, OutOfMemory>
    ensures key { IfOk result (λ key. key ≡ seen_key id) }
    ensures short { IfOk result (λ key. length key ≤ 255) }
    ensures low { id.0 < 2 ^ 64 }
{
    let mut key = Vec::from_slice(alloc, b"s")?;
    key.extend_from_slice(&id.0.to_be_bytes())?;
    Ok(Blob::from_vec(key))
}
