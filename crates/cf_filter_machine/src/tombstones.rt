//! The record of the tombstone of an item of the remote that is removed.

ghost use Rattle.std.specs.Prelude.{◌≡◌, ◌≤◌, ◌<◌, ◌==◌, ◌++◌, ◌^◌, codes, cond, length, IfOk};
ghost use Rattle.cf_model.specs.Books.{usn_bytes};
ghost use Rattle.cf_model.specs.Words.{in_bytes};

use cf_base::{Blob, OutOfMemory, Usn};
use cf_engine_queue::Numbers;
use std::alloc::Global;

/// Whether the item is no item of the remote.
pub(crate) fn is_untargeted(numbers: Numbers) -> bool
    ensures { result ≡ (numbers.target == 0) }
{
    numbers.target == 0
}

// A directory has no base.
fn version_of(directory: bool, numbers: Numbers) -> u64
    ensures is { result ≡ cond directory 0 numbers.version }
    ensures low { numbers.version < 2 ^ 64 }
{
    let version = numbers.version;
    if directory { 0 } else { version }
}

/// The value of the record: the target, and the version of the base.
pub(crate) fn grave_value(
    alloc: Global,
    directory: bool,
    numbers: Numbers,
) -> Result<Blob, OutOfMemory>
    ensures value { IfOk result (λ b. b ≡ in_bytes 8 numbers.target ++ in_bytes 8 (cond directory 0 numbers.version)) }
    ensures low { (numbers.target < 2 ^ 64) × (numbers.version < 2 ^ 64) }
{
    let target = numbers.target;
    let version = version_of(directory, numbers);
    let mut value = Vec::from_slice(alloc, &target.to_be_bytes())?;
    value.extend_from_slice(&version.to_be_bytes())?;
    Ok(Blob::from_vec(value))
}

/// The key of the record.
pub(crate) fn grave_key(alloc: Global, number: Usn) -> Result<Blob, OutOfMemory>
    ensures key { IfOk result (λ key. key ≡ codes "t" ++ usn_bytes number) }
    ensures short { IfOk result (λ key. length key ≤ 255) }
    ensures low { (number.epoch < 2 ^ 32) × (number.place < 2 ^ 32) }
{
    let mut key = Vec::from_slice(alloc, b"t")?;
    key.extend_from_slice(&number.epoch.to_be_bytes())?;
    key.extend_from_slice(&number.place.to_be_bytes())?;
    Ok(Blob::from_vec(key))
}
