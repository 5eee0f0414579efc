//! Whether rows and records are such as an engine leaves.

ghost use Rattle.std.specs.Prelude.{◌≡◌, ◌↔◌, ◌&&◌, All, IfOk, IsTrue, map, true};
ghost use Rattle.std.specs.List.{list_all};
ghost use Rattle.cf_engine.specs.Openings.{FitsEngine, RecordFits, has_uploaded, is_ours, is_uploaded, said_fits, upload_fits};
ghost use Rattle.cf_engine_queue.specs.Books.{action_of};
ghost use Rattle.cf_model.specs.Fits.{same_flag};
ghost use Rattle.cf_table.specs.Spelling.{row_value};

use cf_base::{AuxRecord, CallError, Identity, ItemId, OutOfMemory, Usn};
use cf_engine_queue::{Action, Record, read_record};
use cf_table::{Row, Rows, same_usn};
use cf_volume_image::AuxRecords;
use std::alloc::Global;

fn is_ours(identity: &Identity) -> bool
    ensures { result ≡ is_ours identity.now }
{
    let len = identity.as_slice().len();
    len == 0 || len == 24
}

fn have_ours(rows: &[Row]) -> bool
    ensures { result ≡ list_all (λ r. is_ours (row_value r).identity) rows.now }
{
    rows.iter().all(|row| is_ours(&row.identity))
}

fn is_same(one: bool, other: bool) -> bool
    ensures { result ≡ same_flag one other }
{
    if one { other } else { !other }
}

fn is_uploaded(row: &Row, directory: bool, number: Usn) -> bool
    ensures { result ≡ is_uploaded directory number (row_value row.now) }
{
    row.placeholder && is_same(directory, row.dir) && same_usn(row.anchor, number)
}

fn has_uploaded(rows: &Rows, directory: bool, item: ItemId, number: Usn) -> bool
    ensures { result ≡ has_uploaded rows.now.next (map row_value rows.now.rows) directory item number }
{
    if item.0 >= rows.next().0 {
        return false;
    }
    match rows.get(item) {
        Some(row) => is_uploaded(row, directory, number),
        None => true,
    }
}

fn upload_fits(rows: &Rows, action: Action, item: ItemId, number: Usn) -> bool
    ensures { result ≡ upload_fits rows.now.next (map row_value rows.now.rows) (action_of action) item number }
{
    match action {
        Action::Put => has_uploaded(rows, false, item, number),
        Action::MakeDir => has_uploaded(rows, true, item, number),
        Action::Move => true,
        Action::Remove => true,
    }
}

fn said_fits(rows: &Rows, said: &Record) -> bool
    ensures { result ≡ said_fits rows.now.next (map row_value rows.now.rows) said.now }
{
    match said {
        Record::Entry(entry) => upload_fits(rows, entry.action, entry.item, entry.number),
        Record::Cursor(_) => true,
        Record::Seen(_) => true,
        Record::Buried(_) => true,
    }
}

fn record_fits(alloc: Global, rows: &Rows, one: &AuxRecord) -> Result<bool, OutOfMemory>
    ensures { IfOk result (λ fits. IsTrue fits ↔ RecordFits rows.now.next (map row_value rows.now.rows) one.now) }
{
    match read_record(alloc, one) {
        Ok(said) => {
            let fits = said_fits(rows, &said);
            drop(said);
            Ok(fits)
        }
        Err(CallError::No(_)) => Ok(false),
        Err(CallError::OutOfMemory) => Err(OutOfMemory),
    }
}

fn records_fit(alloc: Global, rows: &Rows, records: &AuxRecords) -> Result<bool, OutOfMemory>
    ensures { IfOk result (λ fits. IsTrue fits ↔ All (RecordFits rows.now.next (map row_value rows.now.rows)) records.now) }
{
    let mut items = records.iter();
    while let Some(one) = items.next() {
        if !record_fits(alloc, rows, one)? {
            return Ok(false);
        }
    }
    Ok(true)
}

/// Whether rows and auxiliary records are such as an engine leaves. An identity is empty or has 24 bytes, each record says something
/// of a book, and what is to be uploaded, if it is still here, is a placeholder of the upload's kind whose anchor is the upload's
/// number. It takes time by the rows, and for each record by the logarithm of their number.
pub(crate) fn fits_engine(
    alloc: Global,
    rows: &Rows,
    records: &AuxRecords,
) -> Result<bool, OutOfMemory>
    ensures { IfOk result (λ fits. IsTrue fits ↔ FitsEngine rows.now.next (map row_value rows.now.rows) records.now) }
{
    if !have_ours(rows.as_slice()) {
        return Ok(false);
    }
    records_fit(alloc, rows, records)
}
