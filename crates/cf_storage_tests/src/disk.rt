//! What no clause says: that the calls succeed, and some bytes from outside.

use cf_base::{Choice, OutOfMemory};
use cf_disk::*;
use std::alloc::Global;
use std::test::Fail;

/// What is done with a disk, or looked at. Bytes are told from a place on.
#[derive(Clone, Copy)]
enum Step {
    Write(u64, &'static [u8]),
    Sync,
    /// The disk fails at the write, or at the sync.
    NoWrite(u64, &'static [u8]),
    NoSync,
    Arm(u32),
    Power(Choice),
    Has(u64, &'static [u8]),
}

// Whether the bytes are written; none where they do not fit.
fn written<D: Disk>(disk: &mut D, at: u64, bytes: &[u8]) -> Option<bool> {
    let size = disk.size();
    if bytes.len() as u64 <= size && at <= size - bytes.len() as u64 {
        Some(disk.write(at, bytes).is_ok())
    } else {
        None
    }
}

// Whether the disk has these bytes, of which there are at most eight.
fn has<D: Disk>(disk: &mut D, at: u64, bytes: &[u8]) -> bool {
    let size = disk.size();
    let len = bytes.len();
    let mut out = [0u8; 8];
    len <= 8
        && len as u64 <= size
        && at <= size - len as u64
        && disk.read(at, &mut out[..len]).is_ok()
        && &out[..len] == bytes
}

fn is_fine<D: Disk>(disk: &mut D, step: Step) -> bool {
    match step {
        Step::Write(at, bytes) => written(disk, at, bytes) == Some(true),
        Step::Sync => disk.sync().is_ok(),
        Step::NoWrite(at, bytes) => written(disk, at, bytes) == Some(false),
        Step::NoSync => disk.sync().is_err(),
        Step::Arm(calls) => {
            disk.arm(calls);
            true
        }
        Step::Power(choice) => {
            disk.power(choice);
            true
        }
        Step::Has(at, bytes) => has(disk, at, bytes),
    }
}

// Whether each step goes so.
fn are_fine<D: Disk>(disk: &mut D, steps: &[Step]) -> bool {
    for step in steps {
        if !is_fine(disk, *step) {
            return false;
        }
    }
    true
}

fn are_fine_in_memory(alloc: Global, steps: &[Step]) -> Result<bool, OutOfMemory> {
    let mut disk = MemDisk::new(alloc, 8)?;
    let fine = are_fine(&mut disk, steps);
    drop(disk);
    Ok(fine)
}

const SYNCED: [Step; 5] = [
    Step::Write(2, b"ab"),
    Step::Sync,
    Step::Write(2, b"cd"),
    Step::Power(Choice::Drop),
    Step::Has(1, b"\0ab\0"),
];

#[test]
fn a_power_cut_keeps_what_was_synced(rt: HostRuntime) -> Result<(), Fail> {
    assert!(rt; are_fine_in_memory(rt.alloc(), &SYNCED)?);
    Ok(())
}

const MIXED: [Step; 5] = [
    Step::Write(0, b"abcd"),
    Step::Sync,
    Step::Write(0, &[1, 2, 3, 4, 5, 6, 7, 8]),
    Step::Power(Choice::Mix(7)),
    Step::Has(0, &[1, 127, 98, 4, 5, 0, 7, 8]),
];

#[test]
fn a_mixed_cut_goes_by_the_generator(rt: HostRuntime) -> Result<(), Fail> {
    assert!(rt; are_fine_in_memory(rt.alloc(), &MIXED)?);
    Ok(())
}

const ARMED: [Step; 7] = [
    Step::Arm(1),
    Step::Write(2, b"ab"),
    Step::NoWrite(2, b"cd"),
    Step::NoSync,
    Step::Power(Choice::Keep),
    Step::Has(2, b"cd"),
    Step::Sync,
];

#[test]
fn an_armed_disk_fails_and_keeps_its_bytes_pending(rt: HostRuntime) -> Result<(), Fail> {
    assert!(rt; are_fine_in_memory(rt.alloc(), &ARMED)?);
    Ok(())
}

const TRACED: [Step; 10] = [
    Step::Write(2, b"abc"),
    Step::NoWrite(0, b"de"),
    Step::Sync,
    Step::Write(5, b"f"),
    Step::NoSync,
    Step::Power(Choice::Drop),
    Step::Power(Choice::Keep),
    Step::Has(4, b"c\0"),
    Step::Arm(0),
    Step::NoSync,
];

#[test]
fn a_traced_disk_fails_without_room_until_the_next_power(rt: HostRuntime) -> Result<(), Fail> {
    let mut disk = TraceDisk::new(rt.alloc(), 8, 3, 4, 1)?;
    let fine = are_fine(&mut disk, &TRACED);
    drop(disk);
    assert!(rt; fine);
    Ok(())
}
