//! A store over a disk in memory, also where the disk fails and the power is cut.

use cf_base::{Choice, OutOfMemory};
use cf_clusters::{ClusterError, Data};
use cf_disk::{Disk, MemDisk};
use std::alloc::Global;
use std::test::Fail;

// Where the clusters begin, and the size of a disk with two.
const CLUSTERS: u64 = 3_145_728;

const TWO: u64 = CLUSTERS + 8192;

// What these hold and how long they are is nothing to the proofs.
fn block(byte: u8) -> [u8; 4096] {
    [byte; 4096]
}

// What a stage of a block gives, in place of the first cluster or not; none where the store is not that of such a disk.
fn staged(
    disk: &mut MemDisk,
    data: &mut Data,
    over: bool,
    byte: u8,
) -> Option<Result<u32, ClusterError>> {
    let clusters = data.clusters();
    if clusters == 0 || 2 < clusters || disk.size() != TWO {
        return None;
    }
    Some(if over {
        data.stage(disk, Some(0), &block(byte))
    } else {
        data.stage(disk, None, &block(byte))
    })
}

// Whether the first cluster is of such bytes.
fn is_first(disk: &mut MemDisk, data: &Data, byte: u8) -> bool {
    let clusters = data.clusters();
    let mut out = block(0);
    0 < clusters
        && clusters <= 2
        && disk.size() == TWO
        && data.read(disk, 0, &mut out).is_ok()
        && out == block(byte)
}

fn drops(data: &mut Data, cluster: u32) {
    if cluster < data.clusters() {
        data.drop_block(cluster);
    }
}

fn stages_once(disk: &mut MemDisk, data: &mut Data) -> bool {
    let is_free = data.free() == 1;
    let first = staged(disk, data, false, 7);
    let full = staged(disk, data, false, 8);
    let is_held = is_first(disk, data, 7);
    drops(data, 0);
    is_free
        && first == Some(Ok(0))
        && full == Some(Err(ClusterError::Full))
        && is_held
        && data.free() == 1
}

fn stages_on_a_new_disk(alloc: Global, data: &mut Data) -> Result<bool, OutOfMemory> {
    let mut disk = MemDisk::new(alloc, TWO)?;
    let staged = stages_once(&mut disk, data);
    drop(disk);
    Ok(staged)
}

#[test]
fn stages_one_cluster_once(rt: HostRuntime) -> Result<(), Fail> {
    let mut data = Data::new(rt.alloc(), 1, &[])?;
    let staged = stages_on_a_new_disk(rt.alloc(), &mut data);
    drop(data);
    assert!(rt; staged?);
    Ok(())
}

fn commits(disk: &mut MemDisk) -> bool {
    disk.size() == TWO && disk.write(CLUSTERS, &block(1)).is_ok() && disk.sync().is_ok()
}

// A stage in place of a committed cluster while so many calls pass, and a power cut: the committed bytes are there.
fn is_kept(disk: &mut MemDisk, data: &mut Data, calls: u32, choice: Choice) -> bool {
    let is_committed = commits(disk);
    disk.arm(calls);
    let is_staged = match staged(disk, data, true, 2) {
        Some(staged) => staged.is_ok() == (calls != 0),
        None => false,
    };
    let free = if calls == 0 { 1 } else { 0 };
    let is_free = data.free() == free;
    disk.power(choice);
    is_committed && is_staged && is_free && is_first(disk, data, 1)
}

fn is_kept_on_a_new_disk(
    alloc: Global,
    data: &mut Data,
    calls: u32,
    choice: Choice,
) -> Result<bool, OutOfMemory> {
    let mut disk = MemDisk::new(alloc, TWO)?;
    let kept = is_kept(&mut disk, data, calls, choice);
    drop(disk);
    Ok(kept)
}

fn keeps(alloc: Global, calls: u32, choice: Choice) -> Result<bool, OutOfMemory> {
    let mut data = Data::new(alloc, 2, &[0])?;
    let kept = is_kept_on_a_new_disk(alloc, &mut data, calls, choice);
    drop(data);
    kept
}

#[test]
fn a_crash_keeps_what_is_committed(rt: HostRuntime) -> Result<(), Fail> {
    for calls in 0..3 {
        for choice in [Choice::Keep, Choice::Drop, Choice::Mix(7)] {
            assert!(rt; keeps(rt.alloc(), calls, choice)?);
        }
    }
    Ok(())
}

fn frees_at_a_commit(data: &mut Data) -> bool {
    drops(data, 2);
    let before = data.free();
    data.committed();
    let after = data.free();
    drops(data, 2);
    before == 1 && after == 2 && data.free() == 2
}

#[test]
fn a_commit_frees_what_was_dropped(rt: HostRuntime) -> Result<(), Fail> {
    let mut data = Data::new(rt.alloc(), 3, &[2, 0])?;
    let frees = frees_at_a_commit(&mut data);
    drop(data);
    assert!(rt; frees);
    Ok(())
}
