//! Rows and records put back as they were at the last point.

ghost use Rattle.std.specs.Prelude.{◌≡◌, List, ℕ, None, cond, filter, map, nat_lt, not, IfOk, OnOk};
ghost use Rattle.std.specs.List.{list_any};
ghost use Rattle.cf_base.specs.declared.ids.ItemId.{ItemId};
ghost use Rattle.cf_model.specs.Words.{same};
ghost use Rattle.cf_table.specs.Tables.{AreTableRows, RisesFrom, row_of};
ghost use Rattle.cf_volume_image.specs.Contents.{record_at};
ghost use Rattle.cf_volume_image.specs.Enough.{has_id};
ghost use Rattle.cf_volume_points.specs.Known.{or_now, record_then, row_then};

use crate::record_notes::copied;
use cf_base::{ItemId, OutOfMemory};
use cf_table::{Row, Rows};
use cf_volume_image::AuxRecords;
use std::alloc::Global;

// Puts copies of the rows in place of those with their ids, or adds them.
fn put_rows(rows: &mut Rows, noted: &[Row]) -> Result<(), OutOfMemory>
    requires rise { RisesFrom 0 noted.now }
    requires kept { AreTableRows noted.now }
    ensures rows { OnOk result ((id : ItemId) → row_of rows.new.rows id ≡ or_now (row_of noted.now id) (row_of rows.old.rows id)) }
{
    for row in noted {
        let _ = rows.image_len();
        let copy = row.copy()?;
        rows.put_row(copy)?;
    }
    Ok(())
}

// The ids of the rows from an id on.
fn ids_from(alloc: Global, rows: &[Row], next: ItemId) -> Result<Vec<ItemId>, OutOfMemory>
    ensures { IfOk result (λ v. v.items ≡ map (λ r. r.id) (filter (λ r. not (nat_lt r.id.0 next.0)) rows.now)) }
{
    Ok(
        rows.iter()
            .filter(|row| !(row.id.0 < next.0))
            .map(|row| row.id)
            .collect(alloc)?,
    )
}

fn remove_rows(rows: &mut Rows, ids: &[ItemId])
    ensures { (id : ItemId) → row_of rows.new.rows id ≡ cond (has_id ids.now id) None (row_of rows.old.rows id) }
{
    for id in ids {
        rows.remove_row(*id);
    }
}

/// The rows as they were, by those noted, and the id that the next item got then. OutOfMemory where there is none.
pub fn restore_rows(
    alloc: Global,
    rows: &mut Rows,
    noted: &Rows,
    next: ItemId,
) -> Result<(), OutOfMemory>
    ensures rows { OnOk result ((id : ItemId) → row_of rows.new.rows id ≡ row_then id noted.now.rows next (row_of rows.old.rows id)) }
    ensures next { OnOk result (rows.new.next ≡ next) }
{
    let _ = noted.image_len();
    put_rows(rows, noted.as_slice())?;
    let new = ids_from(alloc, rows.as_slice(), next)?;
    remove_rows(rows, &new);
    rows.set_next(next);
    Ok(())
}

// Puts copies of the records in place of those with their keys, or adds them.
fn put_records(records: &mut AuxRecords, noted: &AuxRecords) -> Result<(), OutOfMemory>
    ensures { OnOk result ((key : List ℕ) → record_at records.new key ≡ or_now (record_at noted.now key) (record_at records.old key)) }
{
    let mut items = noted.iter();
    while let Some(aux) = items.next() {
        let copy = copied(aux)?;
        records.put(copy)?;
    }
    Ok(())
}

// Takes the records out that have the keys of these.
fn remove_records(records: &mut AuxRecords, made: &AuxRecords)
    ensures { (key : List ℕ) → record_at records.new key ≡ cond (list_any (λ r. same r.key key) made.now) None (record_at records.old key) }
{
    let mut items = made.iter();
    while let Some(aux) = items.next() {
        records.remove(aux.key.as_slice());
    }
}

/// The records as they were, by those noted and the keys that were made since. OutOfMemory where there is none.
pub fn restore_records(
    records: &mut AuxRecords,
    noted: &AuxRecords,
    made: &AuxRecords,
) -> Result<(), OutOfMemory>
    ensures { OnOk result ((key : List ℕ) → record_at records.new key ≡ record_then key noted.now made.now (record_at records.old key)) }
{
    put_records(records, noted)?;
    remove_records(records, made);
    Ok(())
}
