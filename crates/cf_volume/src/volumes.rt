//! A volume, and what is read of it at once.

ghost use Rattle.std.specs.Prelude.{◌≡◌, Some, option_copied, option_map, find, true};
ghost use Rattle.cf_clusters.specs.Roles.{how_many, is_now};
ghost use Rattle.cf_disk.specs.Disk.{IsUnchanged};
ghost use Rattle.cf_volume_image.specs.Contents.{record_at};
ghost use Rattle.cf_volume_image.specs.RecordLists.{comes_after};
ghost use Rattle.cf_table.specs.Tables.{row_of};

use cf_base::{AuxRecord, ItemId};
use cf_disk::Disk;
use cf_table::{Row, Rows};
use cf_volume_changes::Parts;
use cf_volume_ground::{DiskGround, Ground};
use cf_volume_image::AuxRecords;
use std::marker::Model;

/// A volume: items and a book, of which a crash leaves the last point. Contracts see the ground on which it stands, and what is
/// known of the volume on it.
#[derive(Drop)]
pub struct VolumeOn<G: Ground> {
    pub(crate) ground: G,
    pub(crate) parts: Parts,
}

/// A volume on a disk. Contracts see the disk.
pub type Volume<D> = VolumeOn<DiskGround<D>>;

impl<G: Ground> Model for VolumeOn<G> {
    ghost use Rattle.std.specs.Prelude.{◌≡◌, false};
    ghost use Rattle.cf_disk.specs.Disk.{size_of};
    ghost use Rattle.cf_volume_changes.specs.Calls.{OnDisk};
    ghost use Rattle.cf_volume_changes.specs.Steady.{Steady, known_of};

    ghost Value = { OnDisk G };

    ghost view = { λ v. record { disk = v.ground; known = known_of v.parts } };

    ghost invariant = { λ v. v.parts.broken ≡ false → Steady (size_of (G.state v.ground)) (known_of v.parts) };
}

impl<D: Disk> VolumeOn<DiskGround<D>> {
    /// The disk.
    pub fn into_disk(self) -> D
        ensures { result ≡ self.disk }
    {
        self.ground.into_disk()
    }

    /// Hands the number to the disk's `arm`, and changes nothing else.
    pub fn arm(&mut self, calls: u32)
        ensures same { IsUnchanged (D.state self.old.disk) (D.state self.new.disk) }
        ensures armed { (D.state self.new.disk).armed ≡ option_map (λ _. Some calls) (D.state self.old.disk).armed }
        ensures known { self.new.known ≡ self.old.known }
    {
        self.ground.arm(calls);
    }
}

impl<G: Ground> VolumeOn<G> {
    /// The row of an item.
    pub fn row(&self, id: ItemId) -> Option<&Row>
        ensures { option_copied result ≡ row_of self.now.known.table.rows id }
    {
        self.parts.contents.rows.get(id)
    }

    /// The rows of all items.
    pub fn rows(&self) -> &Rows
        ensures { result.now ≡ self.now.known.table }
    {
        &self.parts.contents.rows
    }

    /// The auxiliary record with a key.
    pub fn aux_get(&self, key: &[u8]) -> Option<&AuxRecord>
        ensures { option_copied result ≡ record_at self.now.known.records key.now }
    {
        self.parts.contents.records.get(key)
    }

    /// The auxiliary record with the least key of all.
    pub fn aux_first(&self) -> Option<&AuxRecord>
        ensures { option_copied result ≡ find (λ r. true) self.now.known.records }
    {
        self.parts.contents.records.first()
    }

    /// The auxiliary record with the least key after this one.
    pub fn aux_next(&self, after: &[u8]) -> Option<&AuxRecord>
        ensures { option_copied result ≡ find (comes_after after.now) self.now.known.records }
    {
        self.parts.contents.records.after(after)
    }

    /// All auxiliary records, by key. Those of uploads can be asked by the numbers in them.
    pub fn records(&self) -> &AuxRecords
        ensures { result.now ≡ self.now.known.records }
    {
        &self.parts.contents.records
    }

    /// How many changes were accepted.
    pub fn count(&self) -> u64
        ensures { result ≡ self.now.known.count }
    {
        self.parts.contents.count
    }

    /// How many changes the last point has.
    pub fn committed(&self) -> u64
        ensures { result ≡ self.now.known.kept }
    {
        self.parts.kept
    }

    /// How many clusters the volume may use, which is at most how many there are.
    pub fn clusters(&self) -> u32
        ensures { result ≡ self.now.known.limit }
    {
        self.parts.limit
    }

    /// How many clusters the state now holds.
    pub fn used(&self) -> u32
        ensures { result ≡ how_many is_now self.now.known.uses }
    {
        self.parts.held.used()
    }

    /// The epoch, which is one above that of the volume that was opened.
    pub fn epoch(&self) -> u32
        ensures { result ≡ self.now.known.epoch }
    {
        self.parts.contents.last.epoch
    }

    /// The clock.
    pub fn clock(&self) -> u64
        ensures { result ≡ self.now.known.clock }
    {
        self.parts.contents.clock
    }
}
