//! Disks: what a read gives, what a crash may leave, and what the calls of a disk that fails promise all the same.
//!
//! `Disk` is the trait, `MemDisk` a disk in memory. What a disk is to its callers is one
//! `State` of specs/Disk; laws on parts of an image stand in specs/Parts, laws on runs of calls in specs/Leaving.
#![tactic(auto)]

mod counters;
mod disks;
mod media;
mod mem_disks;
mod old_pages;
mod patches;
mod power_cuts;
mod powers;
mod trace_disks;
mod trails;
mod written_bytes;

pub use disks::{Disk, DiskError};
pub use mem_disks::MemDisk;
pub use trace_disks::TraceDisk;
