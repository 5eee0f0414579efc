//! Openings of devices of format 1: what they give, and each stop and power cut within one.

use crate::volume::openings::{EIGHT, is_new};
use crate::volume::steps::{open, reopened, tried};
use cf_base::{CallError as Refusal, Choice};
use cf_disk::{Disk, MemDisk};
use std::alloc::Global;
use std::test::Fail;

const IMAGE: u64 = 4096;

const OTHER_SLOT: u64 = 1_572_864;

// An open gate, CFVOL01, generation 1, an image of 99 bytes, a device of eight clusters.
const SLOT: [u8; 28] = [
    1, 67, 70, 86, 79, 76, 48, 49, 0, 0, 0, 0, 0, 0, 0, 1, 0, 0, 0, 99, 0, 0, 0, 0, 0, 48, 128, 0,
];

// What the image of a new volume in epoch 1 has besides zeros: the format, the epoch, the next item, one row, and in it the
// root's id and its flags.
const FIELDS: [(u64, u8); 6] = [(0, 1), (4, 1), (24, 2), (28, 1), (36, 1), (46, 5)];

fn put<D: Disk>(disk: &mut D, at: u64, bytes: &[u8]) -> bool {
    let fits = disk.size() == EIGHT && at <= OTHER_SLOT && bytes.len() <= 4096;
    fits && disk.write(at, bytes).is_ok() && disk.sync().is_ok()
}

// A new volume of format 1, with some bytes changed: whether the disk has it.
fn put_volume<D: Disk>(disk: &mut D, changed: &[(u64, u8)]) -> bool {
    if !put(disk, 0, &SLOT) {
        return false;
    }
    for (place, byte) in FIELDS {
        if !put(disk, IMAGE + place, &[byte]) {
            return false;
        }
    }
    for (place, byte) in changed {
        if !put(disk, *place, &[*byte]) {
            return false;
        }
    }
    true
}

fn made(alloc: Global, changed: &[(u64, u8)]) -> Result<Option<MemDisk>, Refusal> {
    let mut disk = MemDisk::new(alloc, EIGHT)?;
    if put_volume(&mut disk, changed) {
        Ok(Some(disk))
    } else {
        drop(disk);
        Ok(None)
    }
}

fn opens_twice(alloc: Global, disk: MemDisk) -> Result<bool, Refusal> {
    let volume = open(alloc, disk)?;
    let first = is_new(&volume, 2);
    let volume = reopened(alloc, volume, Choice::Drop)?;
    let second = is_new(&volume, 3);
    drop(volume);
    Ok(first && second)
}

// A change that no reader of format 1 sees: it lies where format 2 has a journal.
const UNSEEN: (u64, u8) = (1_310_720, 1);

fn opens(alloc: Global, changed: &[(u64, u8)]) -> Result<bool, Refusal> {
    match made(alloc, changed)? {
        Some(disk) => opens_twice(alloc, disk),
        None => Ok(false),
    }
}

#[test]
fn a_device_of_format_1_is_opened(rt: HostRuntime) -> Result<(), Fail> {
    assert!(rt; opens(rt.alloc(), &[])?);
    assert!(rt; opens(rt.alloc(), &[UNSEEN])?);
    Ok(())
}

// Whether an opening that is stopped after so many of its calls leaves what is opened again: the old format, in whose next
// epoch it then is, or the new one, after the epoch that the first opening began.
fn opens_again(alloc: Global, disk: MemDisk, choice: Choice) -> Result<bool, Refusal> {
    let (mut disk, done) = tried(alloc, disk);
    disk.power(choice);
    let volume = open(alloc, disk)?;
    let later = is_new(&volume, 3);
    let old = is_new(&volume, 2);
    drop(volume);
    Ok(later || (old && !done))
}

// It makes fourteen calls.
#[test]
fn a_stopped_opening_of_format_1_is_opened_again(rt: HostRuntime) -> Result<(), Fail> {
    for calls in 0..15 {
        for choice in [Choice::Keep, Choice::Drop, Choice::Mix(3)] {
            assert!(rt; is_stopped_well(rt.alloc(), calls, choice)?);
        }
    }
    Ok(())
}

fn is_stopped_well(alloc: Global, calls: u32, choice: Choice) -> Result<bool, Refusal> {
    match made(alloc, &[])? {
        Some(mut disk) => {
            disk.arm(calls);
            opens_again(alloc, disk, choice)
        }
        None => Ok(false),
    }
}
