//! What differs from the last point.

ghost use Rattle.std.specs.Prelude.{◌≡◌, ◌≤◌, ◌++◌, ◌∷◌, [], None, IfOk, OnOk, filter, is_some, length, map, nat_lt, ◌&&◌};
ghost use Rattle.std.specs.List.{list_any};
ghost use Rattle.cf_volume_commit.specs.Differing.{AddsKeys, changed_keys, changed_rows, is_new, is_record_gone, is_row_gone, is_row_left, keys_in, removed_keys, removed_rows, rows_left};
ghost use Rattle.cf_volume_image.specs.Contents.{record_at};
ghost use Rattle.cf_volume_image.specs.Spelled.{AreRecordsFrom};
ghost use Rattle.cf_model.specs.Words.{same};
ghost use Rattle.cf_table.specs.Tables.{RisesFrom, row_of};

use cf_base::{AuxRecord, Blob, ItemId, OutOfMemory};
use cf_table::{Row, Rows};
use cf_volume_image::{AuxRecords, Contents};
use cf_volume_points::{Earlier, bare};
use std::alloc::Global;

fn has_row(rows: &Rows, id: ItemId) -> bool
    ensures { result ≡ is_some (row_of rows.now.rows id) }
{
    rows.get(id).is_some()
}

fn has_record(records: &AuxRecords, key: &[u8]) -> bool
    ensures { result ≡ is_some (record_at records.now key.now) }
{
    records.get(key).is_some()
}

// The noted row is still there.
fn is_row_left(then: &Earlier, now: &Rows, row: &Row) -> bool
    ensures { result ≡ is_row_left then.now now.now.rows row.now }
{
    row.id.0 < then.next.0 && has_row(now, row.id)
}

fn is_row_gone(then: &Earlier, now: &Rows, row: &Row) -> bool
    ensures { result ≡ is_row_gone then.now now.now.rows row.now }
{
    row.id.0 < then.next.0 && !has_row(now, row.id)
}

fn rows_left(
    alloc: Global,
    then: &Earlier,
    now: &Rows,
    noted: &[Row],
) -> Result<Vec<ItemId>, OutOfMemory>
    requires { noted.now ≡ then.now.rows.rows }
    ensures { IfOk result (λ v. v.items ≡ rows_left then.now now.now.rows) }
{
    let mut ids = Vec::new(alloc);
    for row in noted {
        if is_row_left(then, now, row) {
            ids.push(row.id)?;
        }
    }
    Ok(ids)
}

// The rows from an id on. By a binary search.
fn rows_from(rows: &[Row], next: ItemId) -> &[Row]
    requires { RisesFrom 0 rows.now }
    ensures { result.now ≡ filter (is_new next) rows.now }
{
    let place = rows.partition_point(|row| row.id.0 < next.0);
    &rows[place..]
}

fn ids_of(alloc: Global, rows: &[Row]) -> Result<Vec<ItemId>, OutOfMemory>
    ensures { IfOk result (λ v. v.items ≡ map (λ r. r.id) rows.now) }
{
    Ok(rows.iter().map(|row| row.id).collect(alloc)?)
}

// Those noted that are still there, and the new ones behind them. No other row is looked at.
fn changed_rows(alloc: Global, then: &Earlier, now: &Rows) -> Result<Vec<ItemId>, OutOfMemory>
    ensures { IfOk result (λ v. v.items ≡ changed_rows then.now now.now.rows) }
{
    let _ = then.rows.image_len();
    let _ = now.image_len();
    let mut ids = rows_left(alloc, then, now, then.rows.as_slice())?;
    let new = ids_of(alloc, rows_from(now.as_slice(), then.next))?;
    ids.extend_from_slice(&new)?;
    Ok(ids)
}

fn rows_gone(
    alloc: Global,
    then: &Earlier,
    now: &Rows,
    noted: &[Row],
) -> Result<Vec<ItemId>, OutOfMemory>
    requires { noted.now ≡ then.now.rows.rows }
    ensures { IfOk result (λ v. v.items ≡ removed_rows then.now now.now.rows) }
{
    let mut ids = Vec::new(alloc);
    for row in noted {
        if is_row_gone(then, now, row) {
            ids.push(row.id)?;
        }
    }
    Ok(ids)
}

fn is_record_gone(then: &Earlier, now: &AuxRecords, aux: &AuxRecord) -> bool
    ensures { result ≡ is_record_gone then.now now.now aux.now }
{
    !has_record(&then.made, aux.key.as_slice()) && !has_record(now, aux.key.as_slice())
}

// Puts a key among others, if a record has it now.
fn put_key(
    alloc: Global,
    keys: &mut AuxRecords,
    now: &AuxRecords,
    key: &[u8],
) -> Result<(), OutOfMemory>
    requires { length key.now ≤ 255 }
    ensures { OnOk result (AddsKeys now.now (λ k. same key.now k) keys.old keys.new) }
{
    if !has_record(now, key) {
        return Ok(());
    }
    keys.put(bare(alloc, key)?)?;
    Ok(())
}

// Puts the keys of noted records that are still there.
fn put_keys(
    alloc: Global,
    keys: &mut AuxRecords,
    now: &AuxRecords,
    noted: &AuxRecords,
) -> Result<(), OutOfMemory>
    ensures { OnOk result (AddsKeys now.now (λ k. list_any (λ r. same r.key k) noted.now) keys.old keys.new) }
{
    let mut items = noted.iter();
    while let Some(aux) = items.next() {
        put_key(alloc, keys, now, aux.key.as_slice())?;
    }
    Ok(())
}

fn keys_of(alloc: Global, records: &AuxRecords) -> Result<Vec<Blob>, OutOfMemory>
    ensures { IfOk result (λ v. v.items ≡ map (λ r. r.key) records.now) }
{
    let mut items = records.iter();
    let mut keys = Vec::new(alloc);
    while let Some(aux) = items.next() {
        keys.push(aux.key.copy()?)?;
    }
    Ok(keys)
}

// The same by records without a value, of which there are none yet.
fn listed_keys(
    alloc: Global,
    keys: &mut AuxRecords,
    then: &Earlier,
    now: &AuxRecords,
) -> Result<Vec<Blob>, OutOfMemory>
    requires { keys.old ≡ [] }
    ensures { IfOk result (λ v. v.items ≡ changed_keys then.now now.now) }
{
    let _ = now.image_len();
    put_keys(alloc, keys, now, &then.made)?;
    put_keys(alloc, keys, now, &then.records)?;
    let _ = keys.image_len();
    keys_of(alloc, keys)
}

// The keys of those noted that are still there, and of new ones. No other record is looked at.
fn changed_keys(alloc: Global, then: &Earlier, now: &AuxRecords) -> Result<Vec<Blob>, OutOfMemory>
    ensures { IfOk result (λ v. v.items ≡ changed_keys then.now now.now) }
{
    let mut keys = AuxRecords::new(alloc);
    let listed = listed_keys(alloc, &mut keys, then, now);
    drop(keys);
    listed
}

// Adds the key of a record that is gone.
fn push_if_gone(
    keys: &mut Vec<Blob>,
    then: &Earlier,
    now: &AuxRecords,
    aux: &AuxRecord,
) -> Result<(), OutOfMemory>
    ensures { OnOk result (keys.new.items ≡ keys.old.items ++ keys_in then.now now.now (aux.now ∷ [])) }
{
    if !is_record_gone(then, now, aux) {
        return Ok(());
    }
    keys.push(aux.key.copy()?)?;
    Ok(())
}

fn keys_gone(
    alloc: Global,
    then: &Earlier,
    now: &AuxRecords,
    noted: &AuxRecords,
) -> Result<Vec<Blob>, OutOfMemory>
    ensures { IfOk result (λ v. v.items ≡ keys_in then.now now.now noted.now) }
{
    let mut items = noted.iter();
    let mut keys = Vec::new(alloc);
    while let Some(aux) = items.next() {
        push_if_gone(&mut keys, then, now, aux)?;
    }
    Ok(keys)
}

/// What differs from the last point: ids and keys in order.
#[derive(Drop)]
pub(crate) struct NameLists {
    pub(crate) removed: Vec<ItemId>,
    pub(crate) changed: Vec<ItemId>,
    pub(crate) removed_keys: Vec<Blob>,
    pub(crate) changed_keys: Vec<Blob>,
}

/// No row and no record is looked at but those that are noted or new.
pub(crate) fn what_differs(
    alloc: Global,
    then: &Earlier,
    contents: &Contents,
) -> Result<NameLists, OutOfMemory>
    ensures removed { IfOk result (λ d. d.removed.items ≡ removed_rows then.now contents.now.rows.rows) }
    ensures changed { IfOk result (λ d. d.changed.items ≡ changed_rows then.now contents.now.rows.rows) }
    ensures removed_keys { IfOk result (λ d. d.removed_keys.items ≡ removed_keys then.now contents.now.records) }
    ensures changed_keys { IfOk result (λ d. d.changed_keys.items ≡ changed_keys then.now contents.now.records) }
    ensures noted { AreRecordsFrom None then.now.records }
{
    let _ = then.records.image_len();
    Ok(NameLists {
        removed: rows_gone(alloc, then, &contents.rows, then.rows.as_slice())?,
        changed: changed_rows(alloc, then, &contents.rows)?,
        removed_keys: keys_gone(alloc, then, &contents.records, &then.records)?,
        changed_keys: changed_keys(alloc, then, &contents.records)?,
    })
}

// A payload with longer lists has no room in a journal.
const MOST: usize = 262_144;

impl NameLists {
    /// Whether each list has fewer entries than a journal has bytes.
    pub(crate) fn are_short(&self) -> bool
        ensures { result ≡ (nat_lt (length self.now.removed.items) 262144 && nat_lt (length self.now.changed.items) 262144 && nat_lt (length self.now.removed_keys.items) 262144 && nat_lt (length self.now.changed_keys.items) 262144) }
    {
        self.removed.len() < MOST
            && self.changed.len() < MOST
            && self.removed_keys.len() < MOST
            && self.changed_keys.len() < MOST
    }
}
