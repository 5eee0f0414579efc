//! Rows of new items.

ghost use Rattle.std.specs.Prelude.{◌≡◌, ◌≤◌, ◌<◌, [], length, true, false, Option, IfOk, Ok};
ghost use Rattle.cf_model.specs.Effects.{base_made, copied, is_directory, is_placeholder, is_populated, made, size_made, untargeted};
ghost use Rattle.cf_model.specs.Items.{Item, root};
ghost use Rattle.cf_model.specs.Numbers.{above, no_usn};
ghost use Rattle.cf_table.specs.Means.{IsFresh, Means, starts_dirty};

use crate::rows::{NO_USN, ROOT, Row};
use crate::set_reads::Sets;
use cf_base::{Blob, Identity, ItemId, Kind, OutOfMemory, Pin, Usn};
use cf_ranges::{ExtentMap, RangeSet};
use std::alloc::Global;

/// Where a new item stands, and what it takes from there.
#[derive(Drop)]
pub struct Place {
    pub id: ItemId,
    pub parent: ItemId,
    pub name: Blob,
    /// The pin of the parent.
    pub pin: Pin,
    /// The number of the change that makes the item.
    pub number: Usn,
}

fn is_dir(kind: Kind) -> bool
    ensures { result ≡ is_directory kind }
{
    matches!(
        kind,
        Kind::Dir | Kind::PlaceholderDir | Kind::UnpopulatedDir
    )
}

fn is_placeholder(kind: Kind) -> bool
    ensures { result ≡ is_placeholder kind }
{
    matches!(
        kind,
        Kind::PlaceholderFile | Kind::PlaceholderDir | Kind::UnpopulatedDir
    )
}

fn is_populated(kind: Kind) -> bool
    ensures { result ≡ is_populated kind }
{
    matches!(kind, Kind::Dir | Kind::PlaceholderDir)
}

fn starts_dirty(kind: Kind) -> bool
    ensures { result ≡ starts_dirty kind }
{
    matches!(kind, Kind::File)
}

fn size_of(kind: Kind, size: u32) -> u32
    ensures { result ≡ size_made kind size }
{
    if kind == Kind::PlaceholderFile {
        size
    } else {
        0
    }
}

fn base_of(kind: Kind, size: u32) -> Option<u32>
    ensures { result ≡ base_made kind size }
{
    if kind == Kind::PlaceholderFile {
        Some(size)
    } else {
        None
    }
}

fn without_target(alloc: Global, identity: &[u8]) -> Result<Identity, OutOfMemory>
    requires { 8 ≤ length identity.now }
    ensures { IfOk result (λ i. i ≡ untargeted identity.now) }
{
    let mut bytes = vec![in alloc; 0u8; 8]?;
    bytes.extend_from_slice(&identity[8..])?;
    Identity::new(alloc, bytes.as_slice())
}

impl Row {
    /// The root of a new volume.
    pub fn root(alloc: Global) -> Result<Row, OutOfMemory>
        ensures means { IfOk result (λ r. Means r root) }
        ensures fresh { IfOk result IsFresh }
    {
        let place = Place {
            id: ROOT,
            parent: ItemId(0),
            name: Blob::from_slice(alloc, &[])?,
            pin: Pin::Unspecified,
            number: NO_USN,
        };
        let identity = Identity::new(alloc, &[])?;
        Ok(Row::without_bytes(alloc, place, Kind::Dir, 0, identity))
    }

    /// The row of a new item. The size counts for a placeholder file alone.
    pub fn made(alloc: Global, place: Place, kind: Kind, size: u32, identity: Identity) -> Row
        requires { above place.number no_usn ≡ true }
        ensures means { Means result (made place.id place.parent place.name kind size identity place.pin place.number) }
        ensures fresh { IsFresh result }
    {
        Row::without_bytes(alloc, place, kind, size, identity)
    }

    // What has no byte yet. A plain file is dirty from the start.
    fn without_bytes(alloc: Global, place: Place, kind: Kind, size: u32, identity: Identity) -> Row
        ensures { result ≡ record {
          id = place.id;
          parent = place.parent;
          name = place.name;
          pin = place.pin;
          number = place.number;
          identity = identity;
          dir = is_directory kind;
          placeholder = is_placeholder kind;
          populated = is_populated kind;
          size = size_made kind size;
          base = base_made kind size;
          anchor = no_usn;
          last = 0;
          in_sync = false;
          keep = false;
          dirty = starts_dirty kind;
          dirty_since = starts_dirty kind;
          here = [];
          valid = [];
          modified = [];
          modified_since = [];
          extents = [];
        } }
    {
        Row {
            id: place.id,
            parent: place.parent,
            dir: is_dir(kind),
            placeholder: is_placeholder(kind),
            populated: is_populated(kind),
            in_sync: false,
            dirty: starts_dirty(kind),
            dirty_since: starts_dirty(kind),
            keep: false,
            pin: place.pin,
            size: size_of(kind, size),
            base: base_of(kind, size),
            number: place.number,
            anchor: NO_USN,
            last: 0,
            name: place.name,
            identity,
            here: RangeSet::new(alloc),
            valid: RangeSet::new(alloc),
            modified: RangeSet::new(alloc),
            modified_since: RangeSet::new(alloc),
            extents: ExtentMap::new(alloc),
        }
    }

    // The sets of a copy, all of whose writes are since.
    fn sets_of_copy(&self, alloc: Global) -> Result<Sets, OutOfMemory>
        ensures here { IfOk result (λ s. s.here ≡ self.now.here) }
        ensures valid { IfOk result (λ s. s.valid ≡ self.now.valid) }
        ensures modified { IfOk result (λ s. (s.modified ≡ self.now.modified) × (s.modified_since ≡ self.now.modified)) }
        ensures extents { IfOk result (λ s. s.extents ≡ []) }
    {
        let here = self.here.copy()?;
        let valid = self.valid.copy()?;
        let modified = self.modified.copy()?;
        let modified_since = self.modified.copy()?;
        Ok(Sets {
            here,
            valid,
            modified,
            modified_since,
            extents: ExtentMap::new(alloc),
        })
    }

    /// The row of a new placeholder file with the bytes, the base and the writes of this one. Its identity has no target.
    pub fn copied(&self, alloc: Global, place: Place) -> Result<Row, OutOfMemory>
        requires later { above place.number self.now.number ≡ true }
        requires identity { 8 ≤ length self.now.identity }
        ensures means { IfOk result (λ r. (i : Item) → Means self.now i → Means r (copied place.id place.parent place.name place.pin place.number i)) }
        ensures fresh { IfOk result IsFresh }
        ensures texts { IfOk result (λ r. (r.id ≡ place.id) × (r.name ≡ place.name) × (r.identity ≡ untargeted self.now.identity) × (r.number ≡ place.number)) }
    {
        let identity = without_target(alloc, self.identity.as_slice())?;
        let sets = self.sets_of_copy(alloc)?;
        Ok(Row {
            here: sets.here,
            valid: sets.valid,
            modified: sets.modified,
            modified_since: sets.modified_since,
            extents: sets.extents,
            id: place.id,
            parent: place.parent,
            dir: self.dir,
            placeholder: true,
            populated: self.populated,
            in_sync: false,
            dirty: true,
            dirty_since: true,
            keep: false,
            pin: place.pin,
            size: self.size,
            base: self.base,
            number: place.number,
            anchor: NO_USN,
            last: 0,
            name: place.name,
            identity,
        })
    }
}
