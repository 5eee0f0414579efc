//! The parts of images and payloads, as they are read.

ghost use Rattle.std.specs.Prelude.{◌≡◌, ◌<◌, Option, None, Some, IfOk, IfErr, true, false, length, option_copied};
ghost use Rattle.std.specs.List.{flat_map};
ghost use Rattle.cf_codec.specs.Left.{Takes};
ghost use Rattle.cf_model.specs.Formats.{spell_id, spell_key, spell_record, spell_records};
ghost use Rattle.cf_table.specs.Faults.{AtIdentity};
ghost use Rattle.cf_table.specs.Reading.{IsIdentity, identity_bytes};
ghost use Rattle.cf_volume_image.specs.Contents.{read_header_of};
ghost use Rattle.cf_volume_image.specs.Faults.{AtHeader, AtId, AtIds, AtIdsFrom, AtKey, AtKeys, AtKeysFrom, AtRecord, AtRecords, AtRecordsFrom};
ghost use Rattle.cf_volume_image.specs.RecordLists.{last_key_of, last_of, records_bytes};
ghost use Rattle.cf_volume_image.specs.Spelled.{AreIds, AreIdsFrom, AreKeys, AreKeysFrom, AreRecords, AreRecordsFrom, IsAfter, IsHeaderIn, IsId, IsKey, IsRecord, ids_bytes, keys_bytes, spell_header_in};

use crate::record_places::is_before;
use crate::records::AuxRecords;
use cf_base::{AuxRecord, Blob, ItemId, OutOfMemory, Usn};
use cf_codec::{Format, Reader};
use cf_table::RowError;
use cf_table::plain_fields::{read_1, read_2, read_4, read_8, read_bytes, read_ticks, read_usn};
use std::alloc::Global;

/// What stands in front of an image and of a payload.
#[derive(Clone, Copy)]
pub(crate) struct Header {
    pub(crate) last: Usn,
    pub(crate) count: u64,
    pub(crate) next: ItemId,
    pub(crate) clock: u64,
}

/// Reads a header.
pub(crate) fn read_header(r: &mut Reader, format: Format) -> Result<Header, RowError>
    ensures took { IfOk result (λ h. Takes (spell_header_in format (read_header_of h)) r.old r.new) }
    ensures fits { IfOk result (λ h. IsHeaderIn format (read_header_of h)) }
    ensures fault { IfErr result (AtHeader format r.old) }
{
    let last = read_usn(r)?;
    let count = read_8(r)?;
    let next = read_8(r)?;
    let clock = read_ticks(r, format)?;
    Ok(Header {
        last,
        count,
        next: ItemId(next),
        clock,
    })
}

fn is_after(before: Option<&[u8]>, key: &[u8]) -> bool
    ensures yes { result ≡ true → IsAfter (option_copied before.entry) key.now }
    ensures no { result ≡ false → IsAfter (option_copied before.entry) key.now → ⊥ }
{
    match before {
        None => true,
        Some(before) => is_before(before, key),
    }
}

fn read_value<'a>(r: &mut Reader<'a>) -> Result<&'a [u8], RowError>
    ensures took { IfOk result (λ t. Takes (identity_bytes t.now) r.old r.new) }
    ensures fits { IfOk result (λ t. IsIdentity t.now) }
    ensures fault { IfErr result (AtIdentity r.old) }
{
    let count = read_2(r)?;
    read_bytes(r, count as usize)
}

// A key that comes after this one, if there is one. Where it does not, the fault is behind the byte of its length.
fn read_key<'a>(r: &mut Reader<'a>, before: Option<&[u8]>) -> Result<&'a [u8], RowError>
    ensures took { IfOk result (λ k. Takes (spell_key k.now) r.old r.new) }
    ensures fits { IfOk result (λ k. IsKey (option_copied before.entry) k.now) }
    ensures fault { IfErr result (AtKey (option_copied before.entry) r.old) }
{
    let count = read_1(r)?;
    let place = r.place();
    let key = read_bytes(r, count as usize)?;
    if is_after(before, key) {
        Ok(key)
    } else {
        Err(RowError::BadField(place))
    }
}

fn read_record(alloc: Global, r: &mut Reader, before: Option<&[u8]>) -> Result<AuxRecord, RowError>
    ensures took { IfOk result (λ x. Takes (spell_record x) r.old r.new) }
    ensures fits { IfOk result (IsRecord (option_copied before.entry)) }
    ensures fault { IfErr result (AtRecord (option_copied before.entry) r.old) }
{
    let key = read_key(r, before)?;
    let value = read_value(r)?;
    Ok(AuxRecord {
        key: Blob::from_slice(alloc, key)?,
        value: Blob::from_slice(alloc, value)?,
    })
}

fn records_in(alloc: Global, r: &mut Reader, count: u32) -> Result<Vec<AuxRecord>, RowError>
    ensures took { IfOk result (λ v. Takes (records_bytes v.items) r.old r.new) }
    ensures count { IfOk result (λ v. length v.items ≡ count) }
    ensures fits { IfOk result (λ v. AreRecordsFrom None v.items) }
    ensures fault { IfErr result (AtRecordsFrom None count r.old) }
{
    let mut records: Vec<AuxRecord> = Vec::new(alloc);
    for _ in 0..count {
        let record = read_record(alloc, r, last_key(&records))?;
        records.push(record)?;
    }
    Ok(records)
}

fn last_key(records: &[AuxRecord]) -> Option<&[u8]>
    ensures { option_copied result ≡ last_key_of None records.now }
{
    if records.is_empty() {
        return None;
    }
    let last = &records[records.len() - 1];
    Some(last.key.as_slice())
}

/// Reads how many records there are, and the records, whose keys rise.
pub(crate) fn read_records(alloc: Global, r: &mut Reader) -> Result<AuxRecords, RowError>
    ensures took { IfOk result (λ x. Takes (spell_records x) r.old r.new) }
    ensures fits { IfOk result AreRecords }
    ensures fault { IfErr result (AtRecords r.old) }
{
    let count = read_4(r)?;
    let records = records_in(alloc, r, count)?;
    Ok(AuxRecords::from_vec(alloc, records)?)
}

fn keys_in(alloc: Global, r: &mut Reader, count: u32) -> Result<Vec<Blob>, RowError>
    ensures took { IfOk result (λ v. Takes (flat_map spell_key v.items) r.old r.new) }
    ensures count { IfOk result (λ v. length v.items ≡ count) }
    ensures fits { IfOk result (λ v. AreKeysFrom None v.items) }
    ensures fault { IfErr result (AtKeysFrom None count r.old) }
{
    let mut keys: Vec<Blob> = Vec::new(alloc);
    for _ in 0..count {
        let key = read_key(r, last_of(&keys))?;
        keys.push(Blob::from_slice(alloc, key)?)?;
    }
    Ok(keys)
}

fn last_of(keys: &[Blob]) -> Option<&[u8]>
    ensures { option_copied result ≡ last_of None keys.now }
{
    if keys.is_empty() {
        return None;
    }
    let last = &keys[keys.len() - 1];
    Some(last.as_slice())
}

/// Reads how many keys there are, and the keys, which rise.
pub(crate) fn read_keys(alloc: Global, r: &mut Reader) -> Result<Vec<Blob>, RowError>
    ensures took { IfOk result (λ v. Takes (keys_bytes v.items) r.old r.new) }
    ensures fits { IfOk result (λ v. AreKeys v.items) }
    ensures fault { IfErr result (AtKeys r.old) }
{
    let count = read_4(r)?;
    keys_in(alloc, r, count)
}

fn read_id(r: &mut Reader, before: Option<u64>) -> Result<ItemId, RowError>
    ensures took { IfOk result (λ id. Takes (spell_id id) r.old r.new) }
    ensures fits { IfOk result (IsId before) }
    ensures fault { IfErr result (AtId before r.old) }
{
    let place = r.place();
    let id = read_8(r)?;
    match before {
        Some(before) if id <= before => Err(RowError::BadField(place)),
        _ => Ok(ItemId(id)),
    }
}

fn ids_in(alloc: Global, r: &mut Reader, count: u32) -> Result<Vec<ItemId>, RowError>
    ensures took { IfOk result (λ v. Takes (flat_map spell_id v.items) r.old r.new) }
    ensures count { IfOk result (λ v. length v.items ≡ count) }
    ensures fits { IfOk result (λ v. AreIdsFrom None v.items) }
    ensures fault { IfErr result (AtIdsFrom None count r.old) }
{
    let mut ids = Vec::new(alloc);
    let mut before = None;
    for _ in 0..count {
        let id = read_id(r, before)?;
        before = Some(id.0);
        ids.push(id)?;
    }
    Ok(ids)
}

/// Reads how many ids there are, and the ids, which rise.
pub(crate) fn read_ids(alloc: Global, r: &mut Reader) -> Result<Vec<ItemId>, RowError>
    ensures took { IfOk result (λ v. Takes (ids_bytes v.items) r.old r.new) }
    ensures fits { IfOk result (λ v. AreIds v.items) }
    ensures fault { IfErr result (AtIds r.old) }
{
    let count = read_4(r)?;
    ids_in(alloc, r, count)
}
