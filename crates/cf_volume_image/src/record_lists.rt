//! Lists of auxiliary records in order of key.

ghost use Rattle.std.specs.Prelude.{◌≡◌, ◌<◌, ◌+◌, ◌^◌, ℕ, None, Some, OnOk, OnErr, IfOk, cond, find, is_some, option_copied, option_map, true, false};
ghost use Rattle.cf_model.specs.Formats.{with_record, without_record};
ghost use Rattle.cf_model.specs.Images.{aux_len};
ghost use Rattle.cf_model.specs.Words.{same};
ghost use Rattle.cf_volume_image.specs.Contents.{record_at};
ghost use Rattle.cf_volume_image.specs.RecordLists.{AreKept, IsShort, comes_after, records_len};
ghost use Rattle.cf_volume_image.specs.Spelled.{AreRecordsFrom};

use crate::record_places::{AfterKey, AtKey, ByKey};
use cf_base::{AuxRecord, OutOfMemory, no_such_state};
use cf_collections::ChunkedList;

fn has_key(aux: &AuxRecord, key: &[u8]) -> bool
    ensures { result ≡ same aux.now.key key.now }
{
    aux.key.as_slice() == key
}

// How many bytes spell the record.
fn len_of(aux: &AuxRecord) -> u128
    requires { IsShort aux.now }
    ensures value { result ≡ aux_len aux.now }
    ensures small { result < 2 ^ 17 }
{
    3 + aux.key.as_slice().len() as u128 + aux.value.as_slice().len() as u128
}

/// How many bytes spell the records.
pub(crate) fn len_of_all(records: &[AuxRecord]) -> u128
    requires { AreRecordsFrom None records.now }
    ensures { result ≡ records_len records.now }
{
    let mut len = 0;
    for record in records {
        len += len_of(record);
    }
    len
}

fn if_named<'a>(aux: &'a AuxRecord, key: &[u8]) -> Option<&'a AuxRecord>
    ensures { option_copied result ≡ cond (same aux.now.key key.now) (Some aux.now) None }
{
    if has_key(aux, key) { Some(aux) } else { None }
}

/// The record with the key. Looks by halves.
pub(crate) fn find_record<'a>(
    records: &'a ChunkedList<AuxRecord>,
    key: &[u8],
) -> Option<&'a AuxRecord>
    requires { AreRecordsFrom None records.now }
    ensures { option_copied result ≡ record_at records.now key.now }
{
    match records.from(&AtKey { key }).next() {
        Some(aux) => if_named(aux, key),
        None => None,
    }
}

/// The first record.
pub(crate) fn first_of(records: &ChunkedList<AuxRecord>) -> Option<&AuxRecord>
    ensures { option_copied result ≡ find (λ r. true) records.now }
{
    match records.iter().next() {
        Some(aux) => Some(aux),
        None => None,
    }
}

/// The first record whose key comes after this one. Looks by halves.
pub(crate) fn find_after<'a>(
    records: &'a ChunkedList<AuxRecord>,
    key: &[u8],
) -> Option<&'a AuxRecord>
    requires { AreRecordsFrom None records.now }
    ensures { option_copied result ≡ find (comes_after key.now) records.now }
{
    match records.from(&AfterKey { key }).next() {
        Some(aux) => Some(aux),
        None => None,
    }
}

// How many bytes spell the record with the key, if there is one.
fn len_at(records: &ChunkedList<AuxRecord>, key: &[u8]) -> Option<u128>
    requires { AreRecordsFrom None records.now }
    ensures { result ≡ option_map aux_len (record_at records.now key.now) }
{
    match find_record(records, key) {
        Some(aux) => Some(len_of(aux)),
        None => None,
    }
}

// No state has records that are too long for this number.
fn sum(len: u128, more: u128) -> Result<u128, OutOfMemory>
    ensures { IfOk result (λ n. n ≡ len + more) }
{
    match len.checked_add(more) {
        Some(n) => Ok(n),
        None => Err(no_such_state()),
    }
}

// Puts the record in place of the one with its key.
fn replace_record(records: &mut ChunkedList<AuxRecord>, aux: AuxRecord)
    requires there { is_some (record_at records.old aux.key) ≡ true }
    requires rise { AreRecordsFrom None records.old }
    ensures { records.new ≡ with_record aux records.old }
{
    let before = records.replace_in(&ByKey, aux);
    drop(before);
}

// Adds the record, whose key no other has.
fn insert_record(records: &mut ChunkedList<AuxRecord>, aux: AuxRecord) -> Result<(), OutOfMemory>
    requires absent { is_some (record_at records.old aux.key) ≡ false }
    requires rise { AreRecordsFrom None records.old }
    ensures ok { OnOk result (records.new ≡ with_record aux records.old) }
    ensures err { OnErr result (records.new ≡ records.old) }
{
    records.insert_in(&ByKey, aux)
}

// With these bytes more.
fn put_longer(
    records: &mut ChunkedList<AuxRecord>,
    aux: AuxRecord,
    len: u128,
) -> Result<u128, OutOfMemory>
    requires kept { (n : ℕ) × AreKept records.old n × (len ≡ n + aux_len aux) }
    requires short { IsShort aux }
    ensures kept { IfOk result (AreKept records.new) }
    ensures puts { OnOk result (records.new ≡ with_record aux records.old) }
    ensures err { OnErr result (records.new ≡ records.old) }
{
    match len_at(records, aux.key.as_slice()) {
        Some(less) => {
            replace_record(records, aux);
            Ok(len - less)
        }
        None => {
            insert_record(records, aux)?;
            Ok(len)
        }
    }
}

/// Puts the record in place of the one with its key, or adds it. `len` is how many bytes spell the records, and what is
/// given is how many do then. Without memory nothing changes.
pub(crate) fn put_record(
    records: &mut ChunkedList<AuxRecord>,
    aux: AuxRecord,
    len: u128,
) -> Result<u128, OutOfMemory>
    requires kept { AreKept records.old len }
    requires short { IsShort aux }
    ensures kept { IfOk result (AreKept records.new) }
    ensures puts { OnOk result (records.new ≡ with_record aux records.old) }
    ensures err { OnErr result (records.new ≡ records.old) }
{
    match sum(len, len_of(&aux)) {
        Ok(longer) => put_longer(records, aux, longer),
        Err(memory) => {
            drop(aux);
            Err(memory)
        }
    }
}

/// Takes the record with the key out, if there is one. Gives how many bytes spell the records then.
pub(crate) fn remove_record(records: &mut ChunkedList<AuxRecord>, key: &[u8], len: u128) -> u128
    requires { AreKept records.old len }
    ensures kept { AreKept records.new result }
    ensures removes { records.new ≡ without_record key.now records.old }
{
    match len_at(records, key) {
        Some(less) => {
            records.remove(&AtKey { key });
            len - less
        }
        None => len,
    }
}
