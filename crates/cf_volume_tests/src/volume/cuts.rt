//! Each call of the disk fails in turn, and the volume that the power cut then leaves is opened again.

ghost use Rattle.std.specs.Prelude.{◌≤◌};

use crate::volume::edits::Edit;
use crate::volume::steps::{edit, format, has_bytes, open, tried};
use cf_base::{CallError as Refusal, Choice, Code, ItemId};
use cf_disk::{Disk, MemDisk, TraceDisk};
use cf_volume::Volume;
use std::alloc::Global;
use std::test::Fail;

// Of two clusters.
const TWO: u64 = 3_153_920;

// Of three.
const THREE: u64 = 3_158_016;

const FILE: ItemId = ItemId(2);

const OTHER: ItemId = ItemId(3);

// What is called while calls of the disk are counted.
#[derive(Clone, Copy)]
enum Call {
    Write,
    Commit,
    // A write that needs a commit before it.
    MakeRoom,
}

// What a power cut leaves: how many changes, whether the other file is there, and the byte of the file.
#[derive(Clone, Copy, PartialEq)]
struct Left {
    count: u64,
    other: bool,
    byte: u8,
}

#[derive(Clone, Copy, PartialEq)]
enum Outcome {
    Done,
    Failed,
    Wrong,
}

const BEFORE: Left = Left {
    count: 4,
    other: true,
    byte: 1,
};

fn after(call: Call) -> Left {
    match call {
        Call::Write => BEFORE,
        Call::Commit => Left {
            count: 5,
            other: true,
            byte: 2,
        },
        Call::MakeRoom => Left {
            count: 5,
            other: false,
            byte: 1,
        },
    }
}

const OVER: Edit = Edit::Write(2, 0, 1, 2);

// The last point has two files with a byte 1 in each.
fn start<D: Disk>(alloc: Global, volume: &mut Volume<D>) -> Result<(), Refusal> {
    edit(alloc, volume, Edit::Make(b'a'))?;
    edit(alloc, volume, Edit::Make(b'b'))?;
    edit(alloc, volume, Edit::Write(2, 0, 1, 1))?;
    edit(alloc, volume, Edit::Write(3, 0, 1, 1))?;
    volume.commit()?;
    Ok(())
}

fn prepare<D: Disk>(alloc: Global, volume: &mut Volume<D>, call: Call) -> Result<(), Refusal> {
    start(alloc, volume)?;
    match call {
        Call::Write => {}
        Call::Commit => {
            edit(alloc, volume, OVER)?;
        }
        Call::MakeRoom => {
            edit(alloc, volume, Edit::Remove(3))?;
        }
    }
    Ok(())
}

fn succeeds<D: Disk>(alloc: Global, volume: &mut Volume<D>, call: Call) -> bool {
    match call {
        Call::Write | Call::MakeRoom => edit(alloc, volume, OVER).is_ok(),
        Call::Commit => volume.commit().is_ok(),
    }
}

// Whether the volume does nothing any more.
fn is_broken<D: Disk>(alloc: Global, volume: &mut Volume<D>) -> bool {
    volume.commit() == Err(Refusal::No(Code::Broken))
        && edit(alloc, volume, OVER) == Err(Refusal::No(Code::Broken))
}

// Whether the call succeeds that is stopped after so many calls of the disk; none where it fails and the volume goes on.
fn stopped<D: Disk>(
    alloc: Global,
    volume: &mut Volume<D>,
    call: Call,
    calls: u32,
) -> Result<Option<bool>, Refusal> {
    prepare(alloc, volume, call)?;
    volume.arm(calls);
    if succeeds(alloc, volume, call) {
        return Ok(Some(true));
    }
    Ok(if is_broken(alloc, volume) {
        Some(false)
    } else {
        None
    })
}

// The byte is 0 where the file has neither of the two.
fn seen<D: Disk>(volume: &mut Volume<D>) -> Result<Left, Refusal> {
    let over = has_bytes(volume, FILE, 0, 1, 2)?;
    let old = has_bytes(volume, FILE, 0, 1, 1)?;
    Ok(Left {
        count: volume.count(),
        other: volume.row(OTHER).is_some(),
        byte: if over {
            2
        } else if old {
            1
        } else {
            0
        },
    })
}

fn left_by<D: Disk + Drop>(alloc: Global, disk: D, choice: Choice) -> Result<Left, Refusal> {
    let mut disk = disk;
    disk.power(choice);
    let mut volume = open(alloc, disk)?;
    let left = seen(&mut volume);
    drop(volume);
    left
}

// A call that is cut succeeds, or breaks the volume; a crash leaves the last point or the one that the call makes, which it
// leaves where it succeeded.
fn judged(call: Call, done: Option<bool>, left: Left) -> Outcome {
    match done {
        Some(true) if left == after(call) => Outcome::Done,
        Some(false) if left == after(call) || left == BEFORE => Outcome::Failed,
        _ => Outcome::Wrong,
    }
}

// What comes of a call that is cut after that many calls of the disk.
fn cut<D: Disk + Drop>(
    alloc: Global,
    disk: D,
    call: Call,
    calls: u32,
    choice: Choice,
) -> Result<Outcome, Refusal> {
    let mut volume = format(alloc, disk)?;
    let done = stopped(alloc, &mut volume, call, calls);
    let left = left_by(alloc, volume.into_disk(), choice);
    let done = done?;
    Ok(judged(call, done, left?))
}

// How many calls of the disk a call makes.
fn calls_of(call: Call) -> u32
    ensures { result ≤ 8 }
{
    match call {
        Call::Write => 2,
        Call::Commit => 6,
        Call::MakeRoom => 8,
    }
}

// All cuts with one choice: the call succeeds only where none of its calls of the disk fails.
fn are_fine(alloc: Global, size: u64, call: Call, choice: Choice) -> Result<bool, Refusal> {
    let most = calls_of(call);
    for calls in 0..most + 1 {
        let disk = MemDisk::new(alloc, size)?;
        let wanted = if calls == most {
            Outcome::Done
        } else {
            Outcome::Failed
        };
        if cut(alloc, disk, call, calls, choice)? != wanted {
            return Ok(false);
        }
    }
    Ok(true)
}

const CALLS: [(u64, Call); 3] = [
    (THREE, Call::Write),
    (THREE, Call::Commit),
    (TWO, Call::MakeRoom),
];

fn all_are_fine(alloc: Global, choice: Choice) -> Result<bool, Refusal> {
    for (size, call) in CALLS {
        if !are_fine(alloc, size, call, choice)? {
            return Ok(false);
        }
    }
    Ok(true)
}

#[test]
fn a_cut_call_leaves_the_last_point_or_the_new_one(rt: HostRuntime) -> Result<(), Fail> {
    assert!(rt; all_are_fine(rt.alloc(), Choice::Keep)?);
    assert!(rt; all_are_fine(rt.alloc(), Choice::Drop)?);
    Ok(())
}

// How many calls of the disk an opening makes: a sync, a read of each slot and of the image, two reads of each of two records and one of
// the gate behind them, and six calls of an append.
const OPENING: u32 = 15;

// The same of an opening.
fn cut_opening<D: Disk + Drop>(alloc: Global, disk: D, calls: u32) -> Result<bool, Refusal> {
    let mut volume = format(alloc, disk)?;
    let started = start(alloc, &mut volume);
    let mut disk = volume.into_disk();
    disk.arm(calls);
    let (disk, done) = tried(alloc, disk);
    let left = left_by(alloc, disk, Choice::Mix(5));
    started?;
    Ok(left? == BEFORE && done == (calls == OPENING))
}

fn openings_are_fine(alloc: Global) -> Result<bool, Refusal> {
    for calls in 0..OPENING + 1 {
        let disk = MemDisk::new(alloc, THREE)?;
        if !cut_opening(alloc, disk, calls)? {
            return Ok(false);
        }
    }
    Ok(true)
}

#[test]
fn a_cut_opening_leaves_the_last_point(rt: HostRuntime) -> Result<(), Fail> {
    assert!(rt; openings_are_fine(rt.alloc())?);
    Ok(())
}

#[test]
fn a_cut_commit_on_a_traced_disk_leaves_the_same(rt: HostRuntime) -> Result<(), Fail> {
    let disk = TraceDisk::new(rt.alloc(), THREE, 100, 8_000_000, 1)?;
    assert!(rt; cut(rt.alloc(), disk, Call::Commit, 3, Choice::Drop)? == Outcome::Failed);
    Ok(())
}
