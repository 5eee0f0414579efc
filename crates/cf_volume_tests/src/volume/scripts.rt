//! Tests as lists of what is done with a volume, and of what it then tells.

use crate::volume::edits::Edit;
use crate::volume::steps::{
    Told, edit, format, has_bytes, put, put_all, reopened, room, room_with,
};
use cf_base::{AuxRecord, CallError, Choice, Code, ItemId};
use cf_disk::Disk;
use cf_volume::{Room, Volume};
use std::alloc::Global;

/// What is done, or looked at. An item is told by its number, a record by its key, its length and the byte in it.
#[derive(Clone, Copy)]
pub(super) enum Step {
    /// The change is accepted.
    Do(Edit),
    /// The change is refused, and nothing changes.
    Refused(Edit, Code),
    /// The commit gives this count.
    Commit(u64),
    /// The power is cut, and the volume is opened.
    Cut(Choice),
    /// The record is refused, as the table is full.
    NotPut(Told),
    TakeOut(u8),
    /// Nineteen of the longest records, and one with the key 200.
    Fill(u16),
    /// This record comes after the one with a key.
    Next(u8, Told),
    NoRecord(u8),
    /// The file has a byte so often from a place on.
    Has(u64, u16, u16, u8),
    NoRow(u64),
    Numbers(Numbers),
    /// What is said of room for the change.
    Room(Edit, Room),
    /// The same with records beside it.
    RoomWith(Edit, &'static [Told], Room),
    /// The records are put, all at once.
    PutAll(&'static [Told]),
    /// None of them is put.
    NotPutAll(&'static [Told]),
}

/// What is said of the volume.
#[derive(Clone, Copy, PartialEq)]
pub(super) struct Numbers {
    pub epoch: u32,
    pub count: u64,
    /// How many changes the last point has.
    pub committed: u64,
    /// How many clusters are held.
    pub used: u32,
    pub clock: u64,
}

fn numbers_of<D: Disk>(volume: &Volume<D>) -> Numbers {
    Numbers {
        epoch: volume.epoch(),
        count: volume.count(),
        committed: volume.committed(),
        used: volume.used(),
        clock: volume.clock(),
    }
}

fn is_record(record: Option<&AuxRecord>, (key, len, byte): Told) -> bool {
    let Some(record) = record else {
        return false;
    };
    let value = record.value.as_slice();
    record.key.as_slice() == [key].as_slice()
        && value.len() == len as usize
        && value.iter().all(|b| *b == byte)
}

// Whether it is refused so, and the numbers stay.
fn is_refused<D: Disk>(alloc: Global, volume: &mut Volume<D>, refused: Edit, why: Code) -> bool {
    let before = numbers_of(volume);
    let answer = edit(alloc, volume, refused);
    answer == Err(CallError::No(why)) && numbers_of(volume) == before
}

fn fill<D: Disk>(alloc: Global, volume: &mut Volume<D>, len: u16) -> Result<(), CallError> {
    for key in 0..19 {
        put(alloc, volume, (key, 65_535, 0))?;
    }
    put(alloc, volume, (200, len, 0))
}

// What is done, and whether it is done.
fn is_done<D: Disk>(alloc: Global, volume: &mut Volume<D>, step: Step) -> bool {
    let full: Result<(), CallError> = Err(CallError::No(Code::TableFull));
    match step {
        Step::Do(change) => edit(alloc, volume, change).is_ok(),
        Step::Refused(change, why) => is_refused(alloc, volume, change, why),
        Step::Commit(count) => volume.commit() == Ok(count),
        Step::TakeOut(key) => volume.aux_put(&[key], None) == Ok(()),
        Step::Fill(len) => fill(alloc, volume, len) == Ok(()),
        Step::NotPut(record) => put(alloc, volume, record) == full,
        Step::PutAll(list) => put_all(alloc, volume, list) == Ok(()),
        Step::NotPutAll(list) => put_all(alloc, volume, list) == full,
        Step::Has(item, at, len, byte) => {
            has_bytes(volume, ItemId(item), at, len, byte) == Ok(true)
        }
        _ => tells(alloc, volume, step),
    }
}

// Whether this is told.
fn tells<D: Disk>(alloc: Global, volume: &Volume<D>, step: Step) -> bool {
    match step {
        Step::Next(before, record) => is_record(volume.aux_next(&[before]), record),
        Step::NoRecord(key) => volume.aux_get(&[key]).is_none(),
        Step::NoRow(item) => volume.row(ItemId(item)).is_none(),
        Step::Numbers(want) => numbers_of(volume) == want,
        Step::Room(change, want) => room(alloc, volume, change) == Ok(want),
        Step::RoomWith(change, list, want) => room_with(alloc, volume, change, list) == Ok(want),
        _ => false,
    }
}

/// The place of the first step that goes another way on a new volume, if there is one.
pub(super) fn wrong_step<D: Disk + Drop>(
    alloc: Global,
    disk: D,
    steps: &[Step],
) -> Result<Option<usize>, CallError> {
    let mut volume = format(alloc, disk)?;
    for (place, step) in steps.iter().enumerate() {
        if let Step::Cut(choice) = *step {
            volume = reopened(alloc, volume, choice)?;
        } else if !is_done(alloc, &mut volume, *step) {
            drop(volume);
            return Ok(Some(place));
        }
    }
    drop(volume);
    Ok(None)
}
