//! A disk as a ground.

ghost use Rattle.std.specs.Prelude.{◌≡◌, Some, option_map};
ghost use Rattle.cf_disk.specs.Disk.{IsUnchanged, size_of};
ghost use Rattle.cf_journal.specs.Settled.{IsFitSize};

use crate::grounds::Ground;
use cf_clusters::{ClusterError, Data};
use cf_disk::{Disk, DiskError};
use cf_journal::Journal;
use cf_volume_commit::{Earlier, save};
use cf_volume_image::Contents;
use cf_volume_points::Stop;
use std::alloc::Global;
use std::marker::Model;

/// A disk of a fit size, on which a crash leaves the last point. Contracts see the disk.
#[derive(Drop)]
pub struct DiskGround<D: Disk> {
    disk: D,
}

impl<D: Disk> Model for DiskGround<D> {
    ghost use Rattle.cf_disk.specs.Disk.{size_of};
    ghost use Rattle.cf_journal.specs.Settled.{IsFitSize};

    ghost Value = { D };

    ghost view = { λ g. g.disk };

    ghost invariant = { λ g. IsFitSize (size_of (D.state g.disk)) };
}

impl<D: Disk> DiskGround<D> {
    /// The ground that a disk is.
    pub fn new(disk: D) -> DiskGround<D>
        requires { IsFitSize (size_of (D.state disk)) }
        ensures { result ≡ disk }
    {
        DiskGround { disk }
    }

    /// The disk.
    pub fn into_disk(self) -> D
        ensures { result ≡ self }
    {
        self.disk
    }

    /// Hands the number to the disk's `arm`, and changes nothing else.
    pub fn arm(&mut self, calls: u32)
        ensures same { IsUnchanged (D.state self.old) (D.state self.new) }
        ensures armed { (D.state self.new).armed ≡ option_map (λ _. Some calls) (D.state self.old).armed }
    {
        self.disk.arm(calls);
    }
}

impl<D: Disk> Ground for DiskGround<D> {
    ghost state = { D.state };

    ghost writes = { λ n. n };

    fn stage(
        &mut self,
        held: &mut Data,
        old: Option<u32>,
        block: &[u8; 4096],
    ) -> Result<u32, ClusterError> {
        held.stage(&mut self.disk, old, block)
    }

    fn load(&mut self, held: &Data, cluster: u32, block: &mut [u8; 4096]) -> Result<(), DiskError> {
        match held.read(&mut self.disk, cluster, block) {
            Ok(()) => Ok(()),
            Err(_) => Err(DiskError),
        }
    }

    fn save(
        &mut self,
        alloc: Global,
        journal: &mut Journal,
        held: &mut Data,
        contents: &Contents,
        then: &Earlier,
    ) -> Result<(), Stop> {
        save(alloc, &mut self.disk, journal, held, contents, then)
    }

    fn aimed(&self) -> Option<u64> {
        self.disk.aimed()
    }

    ghost same_size = { D.same_size };
}
