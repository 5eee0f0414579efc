//! A disk in memory.

ghost use Rattle.std.specs.Prelude.{◌≡◌, ◌<◌, ◌-◌, ◌^◌, None, IfOk, replicate};
ghost use Rattle.cf_disk.specs.Images.{IsWhole, durable};

use crate::counters::is_spent;
use crate::disks::{Disk, DiskError};
use crate::media::Medium;
use cf_base::{Choice, OutOfMemory};
use std::alloc::Global;

/// A disk in memory. It fails exactly while an armed number is spent. It tells that number, and neither the images since
/// a time nor its power cuts. It keeps the last number of changes at which a commit was wanted.
#[derive(Drop)]
pub struct MemDisk {
    medium: Medium,
    armed: Option<u32>,
    faults: u64,
    written: u64,
    quota: u64,
    aim: Option<u64>,
    ghost whole: { IsWhole medium },
    ghost small_faults: { faults < 2 ^ 64 },
    ghost small_written: { written < 2 ^ 64 },
}

impl MemDisk {
    ghost use Rattle.cf_disk.specs.Disk.{Only};
    ghost use Rattle.cf_disk.specs.MemState.{mem_state};

    /// A disk of so many bytes, all of them zero and durable, with none armed, and with the greatest quota and no commit wanted. No later call
    /// takes memory.
    pub fn new(alloc: Global, size: u64) -> Result<MemDisk, OutOfMemory>
        ensures zeros { IfOk result (λ d. (mem_state d).seen ≡ replicate size 0) }
        ensures durable { IfOk result (λ d. Only (mem_state d).seen (mem_state d)) }
        ensures counts { IfOk result (λ d. ((mem_state d).written ≡ 0) × ((mem_state d).faults ≡ 0)) }
        ensures armed { IfOk result (λ d. d.armed ≡ None) }
        ensures settings { IfOk result (λ d. (mem_state d).settings ≡ record { quota = 2 ^ 64 - 1; aim = None }) }
    {
        let medium = Medium::new(alloc, size as usize)?;
        Ok(MemDisk {
            medium,
            armed: None,
            faults: 0,
            written: 0,
            quota: u64::MAX,
            aim: None,
        })
    }

    /// The same disk with another quota, in blocks of 4,096 bytes.
    pub fn with_quota(mut self, quota: u64) -> MemDisk
        ensures { result ≡ record self { quota = quota } }
    {
        self.quota = quota;
        self
    }
}

impl Disk for MemDisk {
    ghost use Rattle.std.specs.Prelude.{◌≡◌};
    ghost use Rattle.cf_disk.specs.Disk.{Only, Powers};
    ghost use Rattle.cf_disk.specs.Images.{left_by};
    ghost use Rattle.cf_disk.specs.MemState.{mem_state, one_size};

    ghost state = { mem_state };

    fn size(&self) -> u64 {
        self.medium.len() as u64
    }

    fn read(&mut self, at: u64, out: &mut [u8]) -> Result<(), DiskError> {
        if is_spent(&mut self.armed, &mut self.faults) {
            return Err(DiskError);
        }
        self.medium.read(at as usize, out);
        Ok(())
    }

    fn write(&mut self, at: u64, bytes: &[u8]) -> Result<(), DiskError> {
        self.medium.write(at as usize, bytes);
        self.written = self.written.saturating_add(bytes.len() as u64);
        if is_spent(&mut self.armed, &mut self.faults) {
            return Err(DiskError);
        }
        Ok(())
    }

    fn sync(&mut self) -> Result<(), DiskError> {
        if is_spent(&mut self.armed, &mut self.faults) {
            return Err(DiskError);
        }
        self.medium.sync();
        Ok(())
    }

    fn arm(&mut self, calls: u32) {
        self.armed = Some(calls);
    }

    /// What the power cut leaves of the pending bytes is the choice's: all that was written, all that was synced, or byte by
    /// byte what the generator of the given number says.
    fn power(&mut self, choice: Choice)
        ensures left { (mem_state self.old).may_leave (mem_state self.new).seen }
        ensures durable { Only (mem_state self.new).seen (mem_state self.new) }
        ensures powers { Powers choice (mem_state self.old) (mem_state self.new) }
        ensures choice { (mem_state self.new).seen ≡ left_by choice self.old.medium }
    {
        self.medium.power(choice);
        self.armed = None;
    }

    fn quota(&self) -> u64 {
        self.quota
    }

    fn aim(&mut self, changes: u64) {
        self.aim = Some(changes);
    }

    fn aimed(&self) -> Option<u64> {
        self.aim
    }

    ghost counts_now = { λ d t c le tells. absurd tells };

    ghost only_now = { λ d c left. absurd left };

    ghost reads_one = { λ d. d.whole.reads_one };

    ghost same_size = { one_size };
}
