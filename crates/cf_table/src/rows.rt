//! What is kept of an item beside its bytes.

ghost use Rattle.std.specs.Prelude.{◌≡◌, IfOk};

use crate::set_reads::Sets;
use cf_base::{Blob, Identity, ItemId, OutOfMemory, Pin, Usn};
use cf_ranges::{ExtentMap, RangeSet};

/// What is kept of an item beside its bytes. Positions and sizes are in bytes.
#[derive(Drop)]
pub struct Row {
    pub id: ItemId,
    /// 0 for the root.
    pub parent: ItemId,
    pub dir: bool,
    pub placeholder: bool,
    /// Whether the entries of a directory have come. Clear in a file.
    pub populated: bool,
    pub in_sync: bool,
    /// Whether there are local writes that the base has not taken in.
    pub dirty: bool,
    /// Whether there are such writes above the anchor.
    pub dirty_since: bool,
    /// Whether the file is kept full.
    pub keep: bool,
    pub pin: Pin,
    /// Up to 16,777,216. 0 for a directory.
    pub size: u32,
    /// The length of the base, if there is one.
    pub base: Option<u32>,
    /// The number of the last change that moved it.
    pub number: Usn,
    /// The number at the last upload, 0.0 before one.
    pub anchor: Usn,
    /// The clock of the last access, 0 before one.
    pub last: u64,
    /// Empty for the root.
    pub name: Blob,
    pub identity: Identity,
    pub here: RangeSet,
    pub valid: RangeSet,
    pub modified: RangeSet,
    /// What writes above the anchor have modified.
    pub modified_since: RangeSet,
    /// The clusters of the blocks that hold bytes.
    pub extents: ExtentMap,
}

/// The root of a volume.
pub const ROOT: ItemId = ItemId(1);

/// The number before all others.
pub const NO_USN: Usn = Usn { epoch: 0, place: 0 };

impl Row {
    fn copy_sets(&self) -> Result<Sets, OutOfMemory>
        ensures here { IfOk result (λ s. s.here ≡ self.now.here) }
        ensures valid { IfOk result (λ s. s.valid ≡ self.now.valid) }
        ensures modified { IfOk result (λ s. s.modified ≡ self.now.modified) }
        ensures modified_since { IfOk result (λ s. s.modified_since ≡ self.now.modified_since) }
        ensures extents { IfOk result (λ s. s.extents ≡ self.now.extents) }
    {
        let here = self.here.copy()?;
        let valid = self.valid.copy()?;
        let modified = self.modified.copy()?;
        let modified_since = self.modified_since.copy()?;
        let extents = self.extents.copy()?;
        Ok(Sets {
            here,
            valid,
            modified,
            modified_since,
            extents,
        })
    }

    /// An equal row on its own.
    pub fn copy(&self) -> Result<Row, OutOfMemory>
        ensures { IfOk result (λ r. r ≡ self.now) }
    {
        let name = self.name.copy()?;
        let identity = self.identity.copy()?;
        let sets = self.copy_sets()?;
        Ok(Row {
            name,
            identity,
            here: sets.here,
            valid: sets.valid,
            modified: sets.modified,
            modified_since: sets.modified_since,
            extents: sets.extents,
            id: self.id,
            parent: self.parent,
            dir: self.dir,
            placeholder: self.placeholder,
            populated: self.populated,
            in_sync: self.in_sync,
            dirty: self.dirty,
            dirty_since: self.dirty_since,
            keep: self.keep,
            pin: self.pin,
            size: self.size,
            base: self.base,
            number: self.number,
            anchor: self.anchor,
            last: self.last,
        })
    }
}
