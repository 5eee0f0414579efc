//! Lists of rows in order of id, with their index.

ghost use Rattle.std.specs.Prelude.{◌≡◌, ◌≤◌, ◌<◌, ◌^◌, ◌++◌, ◌∷◌, [], All, IfErr, IfOk, OnOk, OnErr, length, get_or, remove};
ghost use Rattle.cf_table.specs.Applied.{FitsRow, IsSpellable, Moves, moves, Steps};
ghost use Rattle.cf_lists.specs.Ordered.{InOrder};
ghost use Rattle.cf_model.specs.Words.{put_in};
ghost use Rattle.cf_table.specs.Index.{entry_of, index_of, IsIndexed, stands_before, without_entry};
ghost use Rattle.cf_table.specs.Means.{IsLater};
ghost use Rattle.cf_table.specs.Tables.{IsRowAt, IsRowGap, IsTable, RisesFrom, SetsAt, with_row};
ghost use Rattle.cf_table.specs.declared.rows.Row.{Row};

use crate::entries::{Entry, add_entry, has_entry, remove_entry_of, stands_at};
use crate::row_lists::{change_at, insert_at, move_at, push_row, remove_at, replace_at};
use crate::rows::Row;
use cf_base::{Blob, Change, ItemId, Name, OutOfMemory, Pin, Usn};
use cf_collections::{ChunkedList, SpareList};
use std::alloc::Global;

// Adds the entry of the row at a place, which has none yet. Without memory the row goes again.
fn add_entry_at(
    rows: &mut SpareList<Row>,
    index: &mut ChunkedList<Entry>,
    place: usize,
    entry: Entry,
    len: u128,
) -> Result<u128, OutOfMemory>
    requires place { place < length rows.old }
    requires table { IsTable rows.old len }
    requires order { InOrder stands_before index.old }
    ensures rows { OnOk result (rows.new ≡ rows.old) }
    ensures index { OnOk result (index.new ≡ put_in stands_before entry index.old) }
    ensures len { IfOk result (λ n. n ≡ len) }
    ensures gone { OnErr result (rows.new ≡ remove rows.old place) }
    ensures err { OnErr result (index.new ≡ index.old) }
{
    match add_entry(index, entry) {
        Ok(()) => Ok(len),
        Err(e) => {
            remove_at(rows, place, len);
            Err(e)
        }
    }
}

/// Adds a row at the end. Without memory nothing changes.
pub(crate) fn push_indexed(
    alloc: Global,
    rows: &mut SpareList<Row>,
    index: &mut ChunkedList<Entry>,
    row: Row,
    len: u128,
) -> Result<u128, OutOfMemory>
    requires indexed { IsIndexed rows.old index.old len }
    requires above { All (λ r. r.id.0 < row.id.0) rows.old }
    requires spellable { IsSpellable row }
    ensures indexed { IfOk result (IsIndexed rows.new index.new) }
    ensures adds { OnOk result (rows.new ≡ rows.old ++ row ∷ []) }
    ensures err { OnErr result ((rows.new ≡ rows.old) × (index.new ≡ index.old)) }
    ensures few { OnOk result (length rows.old < 2 ^ 63) }
{
    let entry = match Entry::of(alloc, &row) {
        Ok(entry) => entry,
        Err(memory) => {
            drop(row);
            return Err(memory);
        }
    };
    let place = rows.len();
    match push_row(rows, row, len) {
        Ok(len) => add_entry_at(rows, index, place, entry, len),
        Err(memory) => {
            drop(entry);
            Err(memory)
        }
    }
}

/// Puts a row in place of the one with its id, or between those with ids below and above, where `find_row` found its place.
/// Without memory nothing changes.
pub(crate) fn put_indexed(
    alloc: Global,
    rows: &mut SpareList<Row>,
    index: &mut ChunkedList<Entry>,
    found: Result<usize, usize>,
    row: Row,
    len: u128,
) -> Result<u128, OutOfMemory>
    requires found { IfOk found (IsRowAt rows.old row.id.0) }
    requires absent { IfErr found (IsRowGap rows.old row.id.0) }
    requires indexed { IsIndexed rows.old index.old len }
    requires spellable { IsSpellable row }
    ensures indexed { IfOk result (IsIndexed rows.new index.new) }
    ensures puts { OnOk result (rows.new ≡ with_row row rows.old) }
    ensures err { OnErr result ((rows.new ≡ rows.old) × (index.new ≡ index.old)) }
    ensures few { OnOk result (length rows.old < 2 ^ 63) }
{
    match found {
        Ok(place) => replace_indexed(alloc, rows, index, place, row, len),
        Err(place) => insert_indexed(alloc, rows, index, place, row, len),
    }
}

// Makes an entry with the id of the row at a place the one of that row. The entry before goes after the other came, so that nothing
// changes without memory.
fn set_entry(
    rows: &SpareList<Row>,
    index: &mut ChunkedList<Entry>,
    place: usize,
    entry: Entry,
) -> Result<(), OutOfMemory>
    requires place { IsRowAt rows.now entry.id.0 place }
    requires rises { RisesFrom 0 rows.now }
    requires index { index.old ≡ index_of rows.now }
    ensures ok { OnOk result ((d : Row) → index.new ≡ put_in stands_before entry (without_entry (entry_of (get_or rows.now place d)) index.old)) }
    ensures err { OnErr result (index.new ≡ index.old) }
{
    let row = &rows[place];
    // Most changes leave an item where it stands, and then the index stays as it is.
    if has_entry(row, &entry) {
        return Ok(());
    }
    add_entry(index, entry)?;
    remove_entry_of(index, row);
    Ok(())
}

// The same with the entry of a row with that id, which is made only where the item does not stand there already.
fn set_entry_of(
    alloc: Global,
    rows: &SpareList<Row>,
    index: &mut ChunkedList<Entry>,
    place: usize,
    row: &Row,
) -> Result<(), OutOfMemory>
    requires place { IsRowAt rows.now row.now.id.0 place }
    requires rises { RisesFrom 0 rows.now }
    requires index { index.old ≡ index_of rows.now }
    ensures ok { OnOk result ((d : Row) → index.new ≡ put_in stands_before (entry_of row.now) (without_entry (entry_of (get_or rows.now place d)) index.old)) }
    ensures err { OnErr result (index.new ≡ index.old) }
{
    if stands_at(&rows[place], row.parent, row.name.as_slice()) {
        return Ok(());
    }
    let entry = Entry::of(alloc, row)?;
    set_entry(rows, index, place, entry)
}

fn replace_indexed(
    alloc: Global,
    rows: &mut SpareList<Row>,
    index: &mut ChunkedList<Entry>,
    place: usize,
    row: Row,
    len: u128,
) -> Result<u128, OutOfMemory>
    requires place { IsRowAt rows.old row.id.0 place }
    requires indexed { IsIndexed rows.old index.old len }
    requires spellable { IsSpellable row }
    ensures indexed { IfOk result (IsIndexed rows.new index.new) }
    ensures puts { OnOk result (rows.new ≡ with_row row rows.old) }
    ensures err { OnErr result ((rows.new ≡ rows.old) × (index.new ≡ index.old)) }
    ensures few { OnOk result (length rows.old < 2 ^ 63) }
{
    match set_entry_of(alloc, rows, index, place, &row) {
        Ok(()) => Ok(replace_at(rows, place, row, len)),
        Err(memory) => {
            drop(row);
            Err(memory)
        }
    }
}

fn insert_indexed(
    alloc: Global,
    rows: &mut SpareList<Row>,
    index: &mut ChunkedList<Entry>,
    place: usize,
    row: Row,
    len: u128,
) -> Result<u128, OutOfMemory>
    requires place { IsRowGap rows.old row.id.0 place }
    requires indexed { IsIndexed rows.old index.old len }
    requires spellable { IsSpellable row }
    ensures indexed { IfOk result (IsIndexed rows.new index.new) }
    ensures puts { OnOk result (rows.new ≡ with_row row rows.old) }
    ensures err { OnErr result ((rows.new ≡ rows.old) × (index.new ≡ index.old)) }
    ensures few { OnOk result (length rows.old < 2 ^ 63) }
{
    let entry = match Entry::of(alloc, &row) {
        Ok(entry) => entry,
        Err(memory) => {
            drop(row);
            return Err(memory);
        }
    };
    match insert_at(rows, place, row, len) {
        Ok(len) => add_entry_at(rows, index, place, entry, len),
        Err(memory) => {
            drop(entry);
            Err(memory)
        }
    }
}

/// Takes the row at a place out.
pub(crate) fn remove_indexed(
    rows: &mut SpareList<Row>,
    index: &mut ChunkedList<Entry>,
    place: usize,
    len: u128,
) -> u128
    requires place { place < length rows.old }
    requires indexed { IsIndexed rows.old index.old len }
    ensures indexed { IsIndexed rows.new index.new result }
    ensures removes { rows.new ≡ remove rows.old place }
{
    remove_entry_of(index, &rows[place]);
    remove_at(rows, place, len)
}

/// Applies a change of an item that stays to its row, which is at a place. Without memory nothing changes.
pub(crate) fn change_indexed(
    alloc: Global,
    rows: &mut SpareList<Row>,
    index: &mut ChunkedList<Entry>,
    place: usize,
    len: u128,
    change: &Change,
    pin: Pin,
    number: Usn,
) -> Result<u128, OutOfMemory>
    requires place { place < length rows.old }
    requires indexed { IsIndexed rows.old index.old len }
    requires fits { (d : Row) → FitsRow change.now (get_or rows.old place d) }
    requires later { (d : Row) → IsLater number (get_or rows.old place d) }
    ensures indexed { IfOk result (IsIndexed rows.new index.new) }
    ensures sets { OnOk result (SetsAt (Steps change.now pin number) place rows.old rows.new) }
    ensures err { OnErr result ((rows.new ≡ rows.old) × (index.new ≡ index.old)) }
    ensures few { OnOk result (length rows.old < 2 ^ 63) }
{
    if !moves(change) {
        return change_at(alloc, rows, place, len, change, pin, number);
    }
    match change {
        Change::Move {
            item: _,
            parent,
            name,
        } => { move_indexed(alloc, rows, index, place, len, *parent, name, pin, number) }
        _ => unreachable!(),
    }
}

fn move_indexed(
    alloc: Global,
    rows: &mut SpareList<Row>,
    index: &mut ChunkedList<Entry>,
    place: usize,
    len: u128,
    parent: ItemId,
    name: &Name,
    pin: Pin,
    number: Usn,
) -> Result<u128, OutOfMemory>
    requires place { place < length rows.old }
    requires indexed { IsIndexed rows.old index.old len }
    requires name { length name.now ≤ 255 }
    requires later { (d : Row) → IsLater number (get_or rows.old place d) }
    ensures indexed { IfOk result (IsIndexed rows.new index.new) }
    ensures sets { OnOk result (SetsAt (Moves parent name.now pin number) place rows.old rows.new) }
    ensures err { OnErr result ((rows.new ≡ rows.old) × (index.new ≡ index.old)) }
    ensures few { OnOk result (length rows.old < 2 ^ 63) }
{
    let entry = Entry {
        parent,
        name: Blob::from_slice(alloc, name.as_slice())?,
        id: rows[place].id,
    };
    let name = Blob::from_slice(alloc, name.as_slice())?;
    set_entry(rows, index, place, entry)?;
    Ok(move_at(rows, place, len, parent, name, pin, number))
}

fn moves(change: &Change) -> bool
    ensures { result ≡ moves change.now }
{
    matches!(change, Change::Move { .. })
}
