//! The calls as the tests make them. They say nothing of what the calls promise, so that the tests are proved at once.

ghost use Rattle.std.specs.Prelude.{◌≤◌, ◌+◌, ◌^◌, Some, IfOk, IsTrue};
ghost use Rattle.cf_volume.specs.Calls.{IsHere};

use crate::volume::edits::{Edit, change_of, fits};
use cf_base::{AuxRecord, Blob, CallError, Change, Choice, Code, ItemId, OutOfMemory, Span, Usn};
use cf_disk::Disk;
use cf_journal::Journal;
use cf_table::Row;
use cf_volume::{Room, Volume, are_short};
use std::alloc::Global;

/// A record: the byte that is its key, how long its value is, and the byte in that.
pub(super) type Told = (u8, u16, u8);

pub(super) fn format<D: Disk + Drop>(alloc: Global, disk: D) -> Result<Volume<D>, CallError> {
    if !Journal::is_fit_size(disk.size()) {
        drop(disk);
        return Err(CallError::No(Code::NotAVolume));
    }
    match Volume::format(alloc, disk) {
        Ok(volume) => Ok(volume),
        Err((disk, error)) => {
            drop(disk);
            Err(error)
        }
    }
}

pub(super) fn open<D: Disk + Drop>(alloc: Global, disk: D) -> Result<Volume<D>, CallError> {
    if !Journal::is_fit_size(disk.size()) {
        drop(disk);
        return Err(CallError::No(Code::NotAVolume));
    }
    match Volume::open(alloc, disk) {
        Ok(volume) => Ok(volume),
        Err((disk, error)) => {
            drop(disk);
            Err(error)
        }
    }
}

/// The disk of a volume that is opened or not, and whether it was.
pub(super) fn tried<D: Disk>(alloc: Global, disk: D) -> (D, bool) {
    if !Journal::is_fit_size(disk.size()) {
        return (disk, false);
    }
    match Volume::open(alloc, disk) {
        Ok(volume) => (volume.into_disk(), true),
        Err((disk, _)) => (disk, false),
    }
}

/// The volume that is opened after a power cut.
pub(super) fn reopened<D: Disk + Drop>(
    alloc: Global,
    volume: Volume<D>,
    choice: Choice,
) -> Result<Volume<D>, CallError> {
    let mut disk = volume.into_disk();
    disk.power(choice);
    open(alloc, disk)
}

fn apply<D: Disk>(volume: &mut Volume<D>, change: &Change) -> Result<Usn, CallError> {
    if !fits(volume.rows(), change) {
        return Err(CallError::No(Code::BadRange));
    }
    volume.apply(change)
}

/// Makes the change. BadRange where the volume may not be asked for it.
pub(super) fn edit<D: Disk>(
    alloc: Global,
    volume: &mut Volume<D>,
    edit: Edit,
) -> Result<Usn, CallError> {
    let change = change_of(alloc, edit, volume.rows().next())?;
    let made = apply(volume, &change);
    drop(change);
    made
}

/// Puts a record whose key is this byte, and its value another one so often.
pub(super) fn put<D: Disk>(
    alloc: Global,
    volume: &mut Volume<D>,
    (key, len, byte): Told,
) -> Result<(), CallError> {
    let value = vec![in alloc; byte; len as usize]?;
    let done = volume.aux_put(&[key], Some(&value));
    drop(value);
    done
}

fn record(alloc: Global, (key, len, byte): Told) -> Result<AuxRecord, OutOfMemory> {
    let key = Blob::from_slice(alloc, &[key])?;
    let value = vec![in alloc; byte; len as usize]?;
    Ok(AuxRecord {
        key,
        value: Blob::from_vec(value),
    })
}

fn fill(alloc: Global, records: &mut Vec<AuxRecord>, list: &[Told]) -> Result<(), OutOfMemory> {
    for told in list {
        records.push(record(alloc, *told)?)?;
    }
    Ok(())
}

fn put_records<D: Disk>(
    alloc: Global,
    volume: &mut Volume<D>,
    records: &mut Vec<AuxRecord>,
    list: &[Told],
) -> Result<(), CallError> {
    fill(alloc, records, list)?;
    if !are_short(records.as_slice()) {
        return Err(CallError::OutOfMemory);
    }
    volume.aux_put_all(records.as_slice())
}

/// Puts such records, all at once.
pub(super) fn put_all<D: Disk>(
    alloc: Global,
    volume: &mut Volume<D>,
    list: &[Told],
) -> Result<(), CallError> {
    let mut records = Vec::new(alloc);
    let done = put_records(alloc, volume, &mut records, list);
    drop(records);
    done
}

/// What is said of room for the change.
pub(super) fn room<D: Disk>(
    alloc: Global,
    volume: &Volume<D>,
    edit: Edit,
) -> Result<Room, CallError> {
    let change = change_of(alloc, edit, volume.rows().next())?;
    let room = volume.room(std::slice::from_ref(&change));
    drop(change);
    Ok(room?)
}

fn room_beside<D: Disk>(
    alloc: Global,
    volume: &Volume<D>,
    change: &Change,
    records: &mut Vec<AuxRecord>,
    list: &[Told],
) -> Result<Room, OutOfMemory> {
    fill(alloc, records, list)?;
    if !are_short(records.as_slice()) {
        return Err(OutOfMemory);
    }
    volume.room_with_records(std::slice::from_ref(change), records.as_slice())
}

/// What is said of room for the change with such records beside it.
pub(super) fn room_with<D: Disk>(
    alloc: Global,
    volume: &Volume<D>,
    edit: Edit,
    list: &[Told],
) -> Result<Room, CallError> {
    let change = change_of(alloc, edit, volume.rows().next())?;
    let mut records = Vec::new(alloc);
    let room = room_beside(alloc, volume, &change, &mut records, list);
    drop(records);
    drop(change);
    Ok(room?)
}

// Whether each byte of the span is here.
#[tactic(auto, using(crate::proofs::Tested::here_all))]
fn is_here(row: &Row, span: Span) -> Result<bool, OutOfMemory>
    requires { span.start + span.len ≤ 2 ^ 40 }
    ensures { IfOk result (λ yes. IsTrue yes → IsHere (Some row.now) span.start (span.start + span.len)) }
{
    let missing = row.here.missing_in(span)?;
    let none = missing.is_empty();
    drop(missing);
    Ok(none)
}

/// Whether the file has the byte so often from a place on.
pub(super) fn has_bytes<D: Disk>(
    volume: &mut Volume<D>,
    item: ItemId,
    at: u16,
    len: u16,
    byte: u8,
) -> Result<bool, CallError> {
    let span = Span {
        start: at as u64,
        len: len as u64,
    };
    match volume.row(item) {
        Some(row) if is_here(row, span)? => {}
        _ => return Ok(false),
    }
    let bytes = volume.bytes(item, span)?;
    let same = bytes.as_slice().len() == len as usize
        && bytes.as_slice().iter().all(|b| *b == byte);
    drop(bytes);
    Ok(same)
}
