//! Openings, and disks that hold no volume.

use crate::volume::steps::{format, open, reopened};
use cf_base::{CallError as Refusal, Choice, Code, ItemId, Usn};
use cf_disk::{Disk, MemDisk};
use cf_volume::Volume;
use std::alloc::Global;
use std::test::Fail;

/// Of eight clusters.
pub(super) const EIGHT: u64 = 3_178_496;

// Whether the root is the one item, and there is no record.
fn has_root_alone<D: Disk>(volume: &Volume<D>) -> bool {
    let rows = volume.rows();
    rows.as_slice().len() == 1
        && rows.next() == ItemId(2)
        && volume.row(ItemId(1)).is_some()
        && volume.aux_first().is_none()
}

// Whether there is besides no change and no cluster that is held.
fn is_empty<D: Disk>(volume: &Volume<D>) -> bool {
    let changes = volume.count() == 0 && volume.committed() == 0;
    let rest = volume.used() == 0 && volume.clock() == 0;
    changes && rest && has_root_alone(volume)
}

// Whether the volume is empty in this epoch.
pub(super) fn is_new<D: Disk>(volume: &Volume<D>, epoch: u32) -> bool {
    let first = Some(Usn { epoch, place: 1 });
    is_empty(volume) && volume.epoch() == epoch && volume.next_usn() == first
}

fn opens_new<D: Disk + Drop>(alloc: Global, disk: D) -> Result<bool, Refusal> {
    let volume = format(alloc, disk)?;
    let formatted = is_new(&volume, 1) && volume.clusters() == 8;
    let volume = reopened(alloc, volume, Choice::Drop)?;
    let opened = is_new(&volume, 2) && volume.clusters() == 8;
    let volume = open(alloc, volume.into_disk())?;
    let again = is_new(&volume, 3);
    drop(volume);
    Ok(formatted && opened && again)
}

#[test]
fn each_opening_of_a_new_volume_begins_an_epoch(rt: HostRuntime) -> Result<(), Fail> {
    let disk = MemDisk::new(rt.alloc(), EIGHT)?;
    assert!(rt; opens_new(rt.alloc(), disk)?);
    Ok(())
}

fn is_none<D: Disk + Drop>(alloc: Global, disk: D) -> bool {
    match open(alloc, disk) {
        Ok(volume) => {
            drop(volume);
            false
        }
        Err(error) => error == Refusal::No(Code::NotAVolume),
    }
}

// Bytes 165 in the first 8,192 bytes of the disk.
fn spoil<D: Disk>(disk: &mut D) -> bool {
    if disk.size() != EIGHT {
        return false;
    }
    let noise = [165u8; 8192];
    disk.write(0, &noise).is_ok()
}

fn noise_is_none(alloc: Global) -> Result<bool, Refusal> {
    let mut disk = MemDisk::new(alloc, EIGHT)?;
    let spoiled = spoil(&mut disk);
    Ok(is_none(alloc, disk) && spoiled)
}

#[test]
fn zeros_and_noise_are_no_volume(rt: HostRuntime) -> Result<(), Fail> {
    let disk = MemDisk::new(rt.alloc(), EIGHT)?;
    assert!(rt; is_none(rt.alloc(), disk));
    assert!(rt; noise_is_none(rt.alloc())?);
    Ok(())
}
