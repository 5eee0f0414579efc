//! One item of the remote.

ghost use Rattle.std.specs.Prelude.{◌≡◌, ◌+◌, ◌-◌, ◌<◌, ◌≤◌, ◌^◌, ◌∷◌, [], ℕ, List, All, length, drop, max, sum_by, IfOk, OnErr, OnOk, None, Some, nat_le, option_copied, true, false};
ghost use Rattle.cf_base.specs.declared.limits.TheConstants.{MOST_FILE_BYTES};
ghost use Rattle.cf_model.specs.Store.{RecordedDone, Stored, bytes_told, entry_told, latest, recorded_at, trimmed, version_bytes};
ghost use Rattle.cf_remote.specs.Held.{grown, held_len, least_kept};

use crate::outcomes::Outcome;
use crate::tokens::Tokens;
use cf_base::{Blob, Entry, Key, OutOfMemory, Reply, Rid, Token, Version};
use std::alloc::Global;
use std::marker::Model;

/// An item, live or dead, with all versions that were ever made of it. Those from `least` on are held.
#[derive(Drop)]
pub(crate) struct StoredItem {
    rid: Rid,
    parent: Rid,
    name: Blob,
    directory: bool,
    live: bool,
    versions: Vec<Blob>,
    least: u64,
    changed: u64,
}

impl Model for StoredItem {
    ghost Value = { Stored };

    ghost view = { λ s. record { rid = s.rid; parent = s.parent; name = s.name; directory = s.directory; live = s.live; versions = s.versions.items; least = s.least; changed = s.changed } };

    ghost invariant = { λ s. (1 ≤ s.least) × (s.least ≤ length s.versions.items + 1) × All (λ v. length v ≤ MOST_FILE_BYTES) s.versions.items × (length s.name ≤ 255) };
}

impl StoredItem {
    /// A new directory.
    pub(crate) fn directory(
        alloc: Global,
        rid: Rid,
        parent: Rid,
        name: Blob,
        changed: u64,
    ) -> StoredItem
        requires { length name ≤ 255 }
        ensures { result ≡ record { rid = rid; parent = parent; name = name; directory = true; live = true; versions = []; least = 1; changed = changed } }
    {
        StoredItem {
            rid,
            parent,
            name,
            directory: true,
            live: true,
            versions: Vec::new(alloc),
            least: 1,
            changed,
        }
    }

    /// A new file, whose first version has these bytes.
    pub(crate) fn file(
        alloc: Global,
        rid: Rid,
        parent: Rid,
        name: Blob,
        bytes: Blob,
        changed: u64,
    ) -> Result<StoredItem, OutOfMemory>
        requires name { length name ≤ 255 }
        requires small { length bytes ≤ MOST_FILE_BYTES }
        ensures { IfOk result (λ s. s ≡ record { rid = rid; parent = parent; name = name; directory = false; live = true; versions = bytes ∷ []; least = 1; changed = changed }) }
    {
        let mut versions = Vec::new(alloc);
        versions.push(bytes)?;
        Ok(StoredItem {
            rid,
            parent,
            name,
            directory: false,
            live: true,
            versions,
            least: 1,
            changed,
        })
    }

    pub(crate) fn rid(&self) -> Rid
        ensures { result ≡ self.now.rid }
    {
        self.rid
    }

    pub(crate) fn parent(&self) -> Rid
        ensures { result ≡ self.now.parent }
    {
        self.parent
    }

    pub(crate) fn name(&self) -> &[u8]
        ensures { result.now ≡ self.now.name }
    {
        self.name.as_slice()
    }

    pub(crate) fn is_live(&self) -> bool
        ensures { result ≡ self.now.live }
    {
        self.live
    }

    pub(crate) fn is_directory(&self) -> bool
        ensures { result ≡ self.now.directory }
    {
        self.directory
    }

    pub(crate) fn changed(&self) -> u64
        ensures { result ≡ self.now.changed }
    {
        self.changed
    }

    /// The latest version, 0 of a directory.
    pub(crate) fn latest(&self) -> Version
        ensures latest { result.0 ≡ latest self.now }
        ensures small { result.0 < 2 ^ 63 }
    {
        Version(self.versions.len() as u64)
    }

    /// How many bytes the latest version has, 0 of a directory.
    #[tactic(auto, using(crate::proofs::VersionLens::last_is))]
    fn len(&self) -> u32
        ensures { result ≡ (entry_told self.now).len }
    {
        match self.versions.last() {
            Some(bytes) => bytes.as_slice().len() as u32,
            None => 0,
        }
    }

    /// What is told of the item.
    pub(crate) fn entry(&self) -> Result<Entry, OutOfMemory>
        ensures told { IfOk result (λ e. e ≡ entry_told self.now) }
        ensures room { IfOk result (λ e. length e.name ≤ 255) }
    {
        let name = self.name.copy()?;
        Ok(Entry {
            rid: self.rid,
            parent: self.parent,
            name,
            dir: self.directory,
            live: self.live,
            version: self.latest(),
            len: self.len(),
            changed: self.changed,
        })
    }

    /// The bytes of a version, held or not.
    fn version(&self, version: Version) -> Option<&Blob>
        ensures { option_copied result ≡ version_bytes (Some self.now) version.0 }
    {
        if version.0 == 0 {
            return None;
        }
        self.versions.get(version.0 as usize - 1)
    }

    /// What a fetch is told of a span of a version. It copies the span alone.
    pub(crate) fn fetched(
        &self,
        alloc: Global,
        key: Key,
        version: Version,
        start: u32,
        len: u32,
    ) -> Result<Reply, OutOfMemory>
        ensures { IfOk result (λ r. r ≡ bytes_told key start len (nat_le self.now.least version.0) (version_bytes (Some self.now) version.0)) }
    {
        let Some(bytes) = self.version(version) else {
            return Ok(Reply::Missing { key });
        };
        if version.0 < self.least {
            return Ok(Reply::Gone { key });
        }
        let bytes = bytes.as_slice();
        let end = start as usize + len as usize;
        if end > bytes.len() {
            return Ok(Reply::Missing { key });
        }
        let bytes = Blob::from_slice(alloc, &bytes[start as usize..end])?;
        Ok(Reply::Bytes { key, start, bytes })
    }

    /// Another place.
    pub(crate) fn place(&mut self, parent: Rid, name: Blob, changed: u64)
        requires { length name ≤ 255 }
        ensures { self.new ≡ record self.old { parent = parent; name = name; changed = changed } }
    {
        self.parent = parent;
        self.name = name;
        self.changed = changed;
    }

    /// No longer live.
    pub(crate) fn end(&mut self, changed: u64)
        ensures { self.new ≡ record self.old { live = false; changed = changed } }
    {
        self.live = false;
        self.changed = changed;
    }

    /// The least version that is held once there are `latest` versions, of which `keep` are held.
    fn least_of(&self, keep: Option<u32>, latest: u64) -> u64
        requires { latest ≤ 2 ^ 63 }
        ensures { result ≡ least_kept keep self.now.directory self.now.least latest }
    {
        match keep {
            Some(count) if !self.directory => self
                .least
                .max((latest + 1).saturating_sub(count as u64)),
            _ => self.least,
        }
    }

    /// How many held bytes are of versions below `least`.
    #[tactic(auto, using(crate::proofs::VersionLens::dropped_rest, crate::proofs::VersionLens::dropped_past))]
    fn len_below(&self, least: u64) -> u64
        requires fits { held_len self.now < 2 ^ 63 }
        requires later { self.now.least ≤ least }
        ensures { result + sum_by length (drop (least - 1) self.now.versions) ≡ held_len self.now }
    {
        let versions = self.versions.as_slice();
        let from = self.least as usize - 1;
        let to = versions.len().min(least as usize - 1);
        total_len(&versions[from..to])
    }

    /// How many bytes are held of the item, whose first version is held.
    pub(crate) fn held_len(&self) -> u64
        requires { held_len self.now < 2 ^ 63 }
        ensures { result ≡ held_len self.now }
    {
        let versions = self.versions.as_slice();
        total_len(&versions[self.least as usize - 1..])
    }

    /// How many bytes all items hold once the item has one more version of `len` bytes, `held` being how many they
    /// hold now.
    pub(crate) fn held_with(&self, held: u64, len: u64, keep: Option<u32>) -> u64
        requires within { held_len self.now ≤ held }
        requires fits { held + len < 2 ^ 63 }
        ensures { (bytes : List ℕ) (clock : ℕ) → length bytes ≡ len → result + held_len self.now ≡ held + held_len (grown keep bytes clock self.now) }
    {
        let latest = self.versions.len() as u64 + 1;
        let least = self.least_of(keep, latest);
        let rest = held - self.len_below(least);
        if least <= latest { rest + len } else { rest }
    }

    /// Holds the last versions only. Gives how many bytes all items hold then, `held` being how many they hold now.
    pub(crate) fn trim(&mut self, count: u32, held: u64) -> u64
        requires within { held_len self.old ≤ held }
        requires fits { held < 2 ^ 63 }
        ensures trims { self.new ≡ trimmed (Some count) self.old }
        ensures held { result + held_len self.old ≡ held + held_len self.new }
    {
        let least = self.least_of(Some(count), self.versions.len() as u64);
        let rest = held - self.len_below(least);
        self.least = least;
        rest
    }

    /// One more version of a file, of which the last are held, and the record of its token. Without memory nothing
    /// changes.
    pub(crate) fn grow(
        &mut self,
        bytes: Blob,
        keep: Option<u32>,
        changed: u64,
        tokens: &mut Tokens,
        token: Token,
    ) -> Result<Version, OutOfMemory>
        requires small { length bytes ≤ MOST_FILE_BYTES }
        requires new { recorded_at tokens.old token ≡ None }
        ensures ok { OnOk result (self.new ≡ grown keep bytes changed self.old) }
        ensures version { IfOk result (λ v. v.0 ≡ latest self.old + 1) }
        ensures recorded { IfOk result (λ v. tokens.new ≡ (token, RecordedDone self.old.rid v) ∷ tokens.old) }
        ensures err { OnErr result (self.new ≡ self.old) }
        ensures unrecorded { OnErr result (tokens.new ≡ tokens.old) }
    {
        let latest = self.versions.len() as u64 + 1;
        let least = self.least_of(keep, latest);
        self.versions.reserve(1)?;
        let version = Version(latest);
        tokens.record(
            token,
            Outcome::Done {
                rid: self.rid,
                version,
            },
        )?;
        self.versions.push(bytes).unwrap();
        self.least = least;
        self.changed = changed;
        Ok(version)
    }
}

/// How many bytes there are in all.
fn total_len(versions: &[Blob]) -> u64
    requires { sum_by length versions.now < 2 ^ 63 }
    ensures { result ≡ sum_by length versions.now }
{
    let mut total = 0;
    for bytes in versions {
        total += bytes.as_slice().len() as u64;
    }
    total
}
