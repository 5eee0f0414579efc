//! The identities that an engine gives its items.

ghost use Rattle.std.specs.Prelude.{◌≡◌, ◌==◌, ◌++◌, ◌+◌, ◌*◌, [], IfOk, drop, min, nat_lt, take};
ghost use Rattle.cf_model.specs.Effects.{untargeted};
ghost use Rattle.cf_model.specs.Identities.{entry_identity, no_identity};
ghost use Rattle.cf_model.specs.Words.{in_bytes, number_of};

use cf_base::{Entry, Identity, OutOfMemory};
use std::alloc::Global;

fn with_byte(number: u64, byte: u8) -> u64
    ensures { result ≡ min (min (number * 256) 18446744073709551615 + byte) 18446744073709551615 }
{
    number.saturating_mul(256).saturating_add(byte as u64)
}

/// The number that bytes spell, the greatest first; at most the greatest u64.
fn number_of(bytes: &[u8]) -> u64
    ensures { result ≡ min 18446744073709551615 (number_of bytes.now) }
{
    let mut number: u64 = 0;
    for byte in bytes {
        number = with_byte(number, *byte);
    }
    number
}

// The bytes before a place.
#[tactic(auto, using(crate::proofs::Capped::whole_front))]
fn before(bytes: &[u8], place: usize) -> &[u8]
    ensures { result.now ≡ take place bytes.now }
{
    if place >= bytes.len() {
        return bytes;
    }
    &bytes[..place]
}

// The bytes from a place on.
#[tactic(auto, using(crate::proofs::Capped::none_behind))]
fn after(bytes: &[u8], place: usize) -> &[u8]
    ensures { result.now ≡ drop place bytes.now }
{
    if place >= bytes.len() {
        return &[];
    }
    &bytes[place..]
}

/// Whether the version is newer than that of the base.
#[tactic(auto, using(crate::proofs::Capped::capped_less))]
pub(crate) fn is_older(identity: &Identity, version: u64) -> bool
    ensures { result ≡ nat_lt (number_of (drop 16 identity.now)) version }
{
    let base = number_of(after(identity.as_slice(), 16));
    base < version
}

fn spelled(alloc: Global, target: u64, base: u64, version: u64) -> Result<Identity, OutOfMemory>
    ensures { IfOk result (λ i. i ≡ in_bytes 8 target ++ in_bytes 8 base ++ in_bytes 8 version) }
{
    let mut bytes = Vec::from_slice(alloc, &target.to_be_bytes())?;
    bytes.extend_from_slice(&base.to_be_bytes())?;
    bytes.extend_from_slice(&version.to_be_bytes())?;
    let identity = Identity::new(alloc, bytes.as_slice())?;
    Ok(identity)
}

/// That of an item which is no item of the remote.
pub(crate) fn no_identity(alloc: Global) -> Result<Identity, OutOfMemory>
    ensures { IfOk result (λ i. i ≡ no_identity) }
{
    spelled(alloc, 0, 0, 0)
}

/// That of an entry's item: a directory has no base.
pub(crate) fn entry_identity(alloc: Global, entry: &Entry) -> Result<Identity, OutOfMemory>
    ensures { IfOk result (λ i. i ≡ entry_identity entry.now) }
{
    if entry.dir {
        spelled(alloc, entry.rid.0, 0, 0)
    } else {
        spelled(alloc, entry.rid.0, entry.rid.0, entry.version.0)
    }
}

/// The identity without its target.
pub(crate) fn untargeted(alloc: Global, identity: &Identity) -> Result<Identity, OutOfMemory>
    ensures { IfOk result (λ i. i ≡ untargeted identity.now) }
{
    let mut bytes = Vec::from_slice(alloc, &[0; 8])?;
    bytes.extend_from_slice(after(identity.as_slice(), 8))?;
    let identity = Identity::new(alloc, bytes.as_slice())?;
    Ok(identity)
}

/// Whether it names no item of the remote.
pub(crate) fn has_no_target(identity: &Identity) -> bool
    ensures { result ≡ (number_of (take 8 identity.now) == 0) }
{
    let target = number_of(before(identity.as_slice(), 8));
    target == 0
}
