//! Volumes that may use fewer clusters than there are, and disks that want a commit.

use crate::volume::edits::Edit;
use crate::volume::limits::WITHOUT_A_CLUSTER;
use crate::volume::openings::EIGHT;
use crate::volume::scripts::{Numbers, Step, wrong_step};
use cf_base::CallError;
use cf_disk::{Disk, MemDisk};
use std::alloc::Global;
use std::test::Fail;

// Whether each step goes so on a new volume that may use two of eight clusters, where the disk may want a commit once so
// many changes are made.
fn goes_so(alloc: Global, wanted: Option<u64>, steps: &[Step]) -> Result<bool, CallError> {
    let mut disk = MemDisk::new(alloc, EIGHT)?.with_quota(2);
    if let Some(changes) = wanted {
        disk.aim(changes);
    }
    let wrong = wrong_step(alloc, disk, steps)?;
    Ok(wrong.is_none())
}

#[test]
fn a_volume_uses_no_more_clusters_than_the_quota(rt: HostRuntime) -> Result<(), Fail> {
    assert!(rt; goes_so(rt.alloc(), None, &WITHOUT_A_CLUSTER)?);
    Ok(())
}

const WITHOUT_A_COMMIT: Numbers = Numbers {
    epoch: 1,
    count: 4,
    committed: 0,
    used: 1,
    clock: 0,
};

const WITH_A_COMMIT: Numbers = Numbers {
    committed: 3,
    ..WITHOUT_A_COMMIT
};

// Three writes of one block. The third, after three changes, passes the two clusters with the blocks of the others.
fn three_writes(numbers: Numbers) -> [Step; 5] {
    [
        Step::Do(Edit::Make(b'a')),
        Step::Do(Edit::Write(2, 0, 1, 1)),
        Step::Do(Edit::Write(2, 0, 1, 2)),
        Step::Do(Edit::Write(2, 0, 1, 3)),
        Step::Numbers(numbers),
    ]
}

#[test]
fn a_commit_comes_where_the_disk_wants_it(rt: HostRuntime) -> Result<(), Fail> {
    assert!(rt; goes_so(rt.alloc(), Some(3), &three_writes(WITH_A_COMMIT))?);
    Ok(())
}

#[test]
fn no_commit_comes_where_the_log_is_not_heavy(rt: HostRuntime) -> Result<(), Fail> {
    assert!(rt; goes_so(rt.alloc(), Some(2), &three_writes(WITHOUT_A_COMMIT))?);
    assert!(rt; goes_so(rt.alloc(), Some(4), &three_writes(WITHOUT_A_COMMIT))?);
    Ok(())
}
