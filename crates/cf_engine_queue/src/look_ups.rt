//! Single records of a book, found by their keys.

ghost use Rattle.std.specs.Prelude.{◌≡◌, ◌==◌, ◌&&◌, codes, IfOk, option_map};
ghost use Rattle.cf_base.specs.declared.items.SeenPath.{SeenPath as SeenAt};
ghost use Rattle.cf_model.specs.Books.{Book, aux_records, entry_of, seen_of, tombstone_of};
ghost use Rattle.cf_model.specs.Words.{same, says};
ghost use Rattle.cf_engine_queue.specs.Books.{entry_value, tombstone_value};
ghost use Rattle.cf_engine_queue.specs.Records.{IsCursor, IsEntry, IsKeepable, IsSeen, IsTombstone};

use crate::fields::number_and_rest;
use crate::record_reads::{read_cursor, read_record};
use crate::record_writes::{entry_key, seen_key_bytes, tombstone_key};
use crate::records::Record;
use crate::uploads::{QueueEntry, Tombstone};
use cf_base::{AuxRecord, ItemId, OutOfMemory, Rid, SeenPath, Token, Usn, no_such_state};
use cf_volume_image::AuxRecords;
use std::alloc::Global;

pub(crate) fn is_same(bytes: &[u8], other: &[u8]) -> bool
    ensures { result ≡ same bytes.now other.now }
{
    bytes == other
}

// What a record of a book says. Such a book has no record that says something else.

fn entry_said(alloc: Global, record: &AuxRecord) -> Result<QueueEntry, OutOfMemory>
    ensures { IfOk result (λ e. IsEntry record.now (entry_value e)) }
{
    match read_record(alloc, record) {
        Ok(Record::Entry(entry)) => Ok(entry),
        Ok(_) => Err(no_such_state()),
        Err(_) => Err(no_such_state()),
    }
}

fn seen_said(alloc: Global, record: &AuxRecord) -> Result<SeenPath, OutOfMemory>
    ensures { IfOk result (λ p. IsSeen record.now p) }
{
    match read_record(alloc, record) {
        Ok(Record::Seen(seen)) => Ok(seen),
        Ok(_) => Err(no_such_state()),
        Err(_) => Err(no_such_state()),
    }
}

fn tombstone_said(alloc: Global, record: &AuxRecord) -> Result<Tombstone, OutOfMemory>
    ensures { IfOk result (λ t. IsTombstone record.now (tombstone_value t)) }
{
    match read_record(alloc, record) {
        Ok(Record::Buried(tombstone)) => Ok(tombstone),
        Ok(_) => Err(no_such_state()),
        Err(_) => Err(no_such_state()),
    }
}

fn cursor_said(record: &AuxRecord) -> Result<u64, OutOfMemory>
    ensures { IfOk result (λ clock. IsCursor (record { key = codes "c"; value = record.now.value }) clock) }
{
    match read_cursor(record.value.as_slice()) {
        Ok(clock) => Ok(clock),
        Err(_) => Err(no_such_state()),
    }
}

/// The upload with this token, among the records of a book. It takes steps as the logarithm of their count. Out of memory also
/// where they are the records of no book.
pub fn find_entry(
    alloc: Global,
    records: &AuxRecords,
    token: Token,
) -> Result<Option<QueueEntry>, OutOfMemory>
    ensures { (b : Book) → IsKeepable b → records.now ≡ aux_records b → IfOk result (λ o. option_map entry_value o ≡ entry_of b token) }
{
    let key = entry_key(alloc, token)?;
    match records.get(key.as_slice()) {
        Some(record) => Ok(Some(entry_said(alloc, record)?)),
        None => Ok(None),
    }
}

/// The path at which an item was seen, among the records of a book. As `find_entry`.
pub fn find_seen(
    alloc: Global,
    records: &AuxRecords,
    item: ItemId,
) -> Result<Option<SeenPath>, OutOfMemory>
    ensures { (b : Book) → IsKeepable b → records.now ≡ aux_records b → IfOk result (λ o. o ≡ seen_of b item) }
{
    let key = seen_key_bytes(item);
    match records.get(key.as_slice()) {
        Some(record) => Ok(Some(seen_said(alloc, record)?)),
        None => Ok(None),
    }
}

fn is_path(parent: Rid, name: &[u8], number: u64, other: &[u8]) -> bool
    ensures { result ≡ ((parent.0 == number) && same name.now other.now) }
{
    parent.0 == number && is_same(name, other)
}

// Whether the record of a path seen has this path: under this item of the remote, by this name.
pub(crate) fn has_path(record: &AuxRecord, parent: Rid, name: &[u8]) -> Result<bool, OutOfMemory>
    ensures { (p : SeenAt) → IsSeen record.now p → IfOk result (λ x. x ≡ ((parent.0 == p.parent.0) && same name.now p.name)) }
{
    match number_and_rest(record.value.as_slice()) {
        Some((number, rest)) => Ok(is_path(parent, name, number, rest)),
        None => Err(no_such_state()),
    }
}

/// Whether an item was seen at this path, under this item of the remote and by this name, among the records of a book. It takes steps as
/// the logarithm of their count, and no memory. It is out of memory only where they are the records of no book.
pub fn is_seen_at(
    records: &AuxRecords,
    item: ItemId,
    parent: Rid,
    name: &[u8],
) -> Result<bool, OutOfMemory>
    ensures { (b : Book) → IsKeepable b → records.now ≡ aux_records b → IfOk result (λ x. x ≡ says (λ p. (parent.0 == p.parent.0) && same name.now p.name) (seen_of b item)) }
{
    let key = seen_key_bytes(item);
    match records.get(key.as_slice()) {
        Some(record) => has_path(record, parent, name),
        None => Ok(false),
    }
}

/// The tombstone with this number, among the records of a book. As `find_entry`.
pub fn find_tombstone(
    alloc: Global,
    records: &AuxRecords,
    number: Usn,
) -> Result<Option<Tombstone>, OutOfMemory>
    ensures { (b : Book) → IsKeepable b → records.now ≡ aux_records b → IfOk result (λ o. option_map tombstone_value o ≡ tombstone_of b number) }
{
    let key = tombstone_key(alloc, number)?;
    match records.get(key.as_slice()) {
        Some(record) => Ok(Some(tombstone_said(alloc, record)?)),
        None => Ok(None),
    }
}

/// The clock of the last feed that was applied whole, by the records of a book; 0 before the first. Takes no memory: it is out of
/// memory only where they are the records of no book.
pub fn find_cursor(records: &AuxRecords) -> Result<u64, OutOfMemory>
    ensures { (b : Book) → IsKeepable b → records.now ≡ aux_records b → IfOk result (λ clock. clock ≡ b.cursor) }
{
    match records.get(b"c") {
        Some(record) => {
            let clock = cursor_said(record)?;
            Ok(clock)
        }
        None => Ok(0),
    }
}
