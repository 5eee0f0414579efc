//! Names and identities.

ghost use Rattle.std.specs.Prelude.{◌≡◌, ◌≤◌, ◌<◌, ℕ, List, IfOk, IfErr, length, true, false, ◌⊎◌};
ghost use Rattle.std.specs.List.{list_all};
ghost use Rattle.std.specs.Str.{is_utf8};
ghost use Rattle.cf_base.specs.Names.{is_name, is_name_byte};
ghost use Rattle.cf_base.specs.declared.limits.TheConstants.{MOST_IDENTITY_BYTES};

use crate::codes::{CallError, Code};
use crate::limits::{MOST_IDENTITY_BYTES, MOST_NAME_BYTES};
use crate::memory::OutOfMemory;
use std::alloc::Global;
use std::marker::Model;

/// The name of an item in its directory. The root's alone is empty.
#[derive(Clone, Drop)]
pub struct Name {
    bytes: Vec<u8>,
}

impl Model for Name {
    ghost Value = { List ℕ };

    ghost view = { λ n. n.bytes.items };
}

fn is_name_byte(byte: u8) -> bool
    ensures { result ≡ is_name_byte byte }
{
    match byte {
        0..=31 | 127 => false,
        b'"' | b'*' | b'/' | b':' | b'<' | b'>' | b'?' | b'\\' | b'|' => false,
        _ => true,
    }
}

fn all_name_bytes(name: &[u8]) -> bool
    ensures { result ≡ list_all is_name_byte name.now }
{
    name.iter().all(|byte| is_name_byte(*byte))
}

#[tactic(auto, using(crate::proofs::Utf8::test_holds, crate::proofs::Utf8::test_fails))]
fn is_utf8(bytes: &[u8]) -> bool
    ensures { result ≡ is_utf8 bytes.now }
{
    match str::from_utf8(bytes) {
        Ok(_) => true,
        Err(_) => false,
    }
}

/// Whether the bytes are the name of an item: 1 to 255 bytes of UTF-8, none below 32, none 127, none of
/// `/ \\ : * ? " < > |`, and neither `.` nor `..`. It takes no memory.
pub fn is_name(bytes: &[u8]) -> bool
    ensures { result ≡ is_name bytes.now }
{
    !bytes.is_empty()
        && bytes.len() <= MOST_NAME_BYTES
        && all_name_bytes(bytes)
        && is_utf8(bytes)
        && bytes != b".".as_slice()
        && bytes != b"..".as_slice()
}

impl Name {
    /// The name that the bytes are. Refused as BadPath where they are none: 1 to 255 bytes of UTF-8, none below 32,
    /// none 127, none of `/ \ : * ? " < > |`, and neither `.` nor `..`.
    pub fn read(alloc: Global, bytes: &[u8]) -> Result<Name, CallError>
        ensures ok { IfOk result (λ n. (n ≡ bytes.now) × (is_name bytes.now ≡ true)) }
        ensures bad { IfErr result (λ e. (e ≡ CallError.OutOfMemory) ⊎ ((e ≡ CallError.No Code.BadPath) × (is_name bytes.now ≡ false))) }
    {
        if !is_name(bytes) {
            return Err(CallError::No(Code::BadPath));
        }
        let bytes = Vec::from_slice(alloc, bytes)?;
        Ok(Name { bytes })
    }

    /// The name's bytes, in UTF-8.
    pub fn as_slice(&self) -> &[u8]
        ensures { result.now ≡ self.now }
    {
        self.bytes.as_slice()
    }

    /// An equal value on its own.
    pub fn copy(&self) -> Result<Name, OutOfMemory>
        ensures { IfOk result (λ n. n ≡ self.now) }
    {
        let bytes = Vec::from_slice(*self.bytes.allocator(), &self.bytes)?;
        Ok(Name { bytes })
    }
}

/// The bytes by which a provider knows its file again. They are handed back in callbacks and never read here.
#[derive(Clone, Drop)]
pub struct Identity {
    bytes: Vec<u8>,
}

impl Model for Identity {
    ghost Value = { List ℕ };

    ghost view = { λ i. i.bytes.items };
}

impl Identity {
    /// The identity of these bytes. Refused as IdentityTooLong where there are more than 4,096.
    pub fn read(alloc: Global, bytes: &[u8]) -> Result<Identity, CallError>
        ensures ok { IfOk result (λ i. (i ≡ bytes.now) × (length bytes.now ≤ MOST_IDENTITY_BYTES)) }
        ensures bad { IfErr result (λ e. (e ≡ CallError.OutOfMemory) ⊎ ((e ≡ CallError.No Code.IdentityTooLong) × (MOST_IDENTITY_BYTES < length bytes.now))) }
    {
        if bytes.len() > MOST_IDENTITY_BYTES {
            return Err(CallError::No(Code::IdentityTooLong));
        }
        Ok(Identity::new(alloc, bytes)?)
    }

    /// Holds any bytes, so that a later call can refuse an identity that is too long.
    pub fn new(alloc: Global, bytes: &[u8]) -> Result<Identity, OutOfMemory>
        ensures { IfOk result (λ i. i ≡ bytes.now) }
    {
        let bytes = Vec::from_slice(alloc, bytes)?;
        Ok(Identity { bytes })
    }

    /// The identity's bytes.
    pub fn as_slice(&self) -> &[u8]
        ensures { result.now ≡ self.now }
    {
        self.bytes.as_slice()
    }

    /// An equal value on its own.
    pub fn copy(&self) -> Result<Identity, OutOfMemory>
        ensures { IfOk result (λ i. i ≡ self.now) }
    {
        Identity::new(*self.bytes.allocator(), &self.bytes)
    }
}
