//! The disk that a run leaves whose sink fails.

use super::{ROOM, filter, finish};
use cf_base::{Choice, OutOfMemory, Status};
use cf_disk::{Disk, MemDisk};
use cf_io::MemSink;
use cf_journal::Journal;
use cf_volume::Volume;
use cf_world::Finish;
use std::alloc::Global;
use std::test::Fail;

/// A flush of two changes, and a change more.
const FLUSHED: &[u8] = b"create /n\nopen /n\nwrite 1.1 0 61\nflush\nwrite 1.1 0 62\n";

/// The text of the read is written at once, so the flush of three changes is not begun.
const NOT_BEGUN: &[u8] =
    b"create /n\nopen /n\nsize 1.1 40000\nflush\nget /n 0 40000\nwrite 1.1 0 62\nflush\n";

/// How many changes a disk opens with once the power was cut.
fn standing(alloc: Global, mut disk: MemDisk, choice: Choice) -> Option<u64> {
    disk.power(choice);
    if !Journal::is_fit_size(disk.size()) {
        drop(disk);
        return None;
    }
    match Volume::open(alloc, disk) {
        Ok(volume) => {
            let count = volume.count();
            drop(volume);
            Some(count)
        }
        Err((disk, _)) => {
            drop(disk);
            None
        }
    }
}

/// How many changes stand after a power cut on the disk that a run leaves whose first call of the sink fails.
fn opened(alloc: Global, script: &[u8], choice: Choice) -> Result<Option<u64>, OutOfMemory> {
    let mut sink = MemSink::new(alloc, ROOM, &[1])?;
    let finished = finish(alloc, &filter(script), &mut sink);
    drop(sink);
    let Finish {
        status,
        disk,
        remote,
        explanation,
    } = finished?;
    drop(remote);
    drop(explanation);
    let changes = standing(alloc, disk, choice);
    Ok(if status == Status::SinkFault {
        changes
    } else {
        None
    })
}

#[test]
fn what_was_flushed_stands_where_the_sink_fails(rt: HostRuntime) -> Result<(), Fail> {
    for script in [FLUSHED, NOT_BEGUN] {
        for choice in [Choice::Keep, Choice::Drop, Choice::Mix(1)] {
            assert!(rt; opened(rt.alloc(), script, choice)? == Some(2));
        }
    }
    Ok(())
}
