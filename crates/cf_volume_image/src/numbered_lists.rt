//! Lists of auxiliary records in order of key, with the numbers by which some can be asked for.

ghost use Rattle.std.specs.Prelude.{◌≡◌, None, OnOk, OnErr, IfOk};
ghost use Rattle.cf_model.specs.Formats.{with_record, without_record};
ghost use Rattle.cf_volume_image.specs.Contents.{record_at};
ghost use Rattle.cf_volume_image.specs.Numbers.{AreCounted, AreNumbersOf};
ghost use Rattle.cf_volume_image.specs.RecordLists.{AreKept, IsShort};
ghost use Rattle.cf_volume_image.specs.Spelled.{AreRecordsFrom};

use crate::number_places::{NO_NUMBERS, Numbers, is_numbered, numbers_of};
use crate::record_lists::{find_record, put_record, remove_record};
use crate::record_numbers::RecordNumbers;
use cf_base::{AuxRecord, OutOfMemory};
use cf_collections::ChunkedList;
use std::alloc::Global;

/// The numbers of the records of a list.
pub(crate) fn numbers_of_all(
    alloc: Global,
    records: &[AuxRecord],
) -> Result<RecordNumbers, OutOfMemory>
    ensures { IfOk result (AreCounted records.now) }
{
    let mut numbers = RecordNumbers::new(alloc);
    for record in records {
        let counted = numbers.add(numbers_of(record));
        if let Err(memory) = counted {
            drop(numbers);
            return Err(memory);
        }
    }
    Ok(numbers)
}

// The numbers of the record with the key. A record of another kind is not looked for.
fn numbers_at(records: &ChunkedList<AuxRecord>, key: &[u8]) -> Numbers
    requires { AreRecordsFrom None records.now }
    ensures { AreNumbersOf (record_at records.now key.now) result }
{
    if !is_numbered(key) {
        return NO_NUMBERS;
    }
    match find_record(records, key) {
        Some(aux) => numbers_of(aux),
        None => NO_NUMBERS,
    }
}

/// Puts the record in place of the one with its key, or adds it. `len` is how many bytes spell the records, and what is
/// given is how many do then. Without memory nothing changes.
pub(crate) fn put_numbered(
    records: &mut ChunkedList<AuxRecord>,
    numbers: &mut RecordNumbers,
    aux: AuxRecord,
    len: u128,
) -> Result<u128, OutOfMemory>
    requires kept { AreKept records.old len }
    requires counted { AreCounted records.old numbers.old }
    requires short { IsShort aux }
    ensures kept { IfOk result (AreKept records.new) }
    ensures counted { AreCounted records.new numbers.new }
    ensures puts { OnOk result (records.new ≡ with_record aux records.old) }
    ensures err { OnErr result (records.new ≡ records.old) }
{
    let more = numbers_of(&aux);
    let gone = numbers_at(records, aux.key.as_slice());
    let added = numbers.add(more);
    if let Err(memory) = added {
        drop(aux);
        return Err(memory);
    }
    match put_record(records, aux, len) {
        Ok(len) => {
            numbers.take(gone);
            Ok(len)
        }
        Err(memory) => {
            numbers.take(more);
            Err(memory)
        }
    }
}

/// Takes the record with the key out, if there is one. Gives how many bytes spell the records then.
pub(crate) fn remove_numbered(
    records: &mut ChunkedList<AuxRecord>,
    numbers: &mut RecordNumbers,
    key: &[u8],
    len: u128,
) -> u128
    requires kept { AreKept records.old len }
    requires counted { AreCounted records.old numbers.old }
    ensures kept { AreKept records.new result }
    ensures counted { AreCounted records.new numbers.new }
    ensures removes { records.new ≡ without_record key.now records.old }
{
    let gone = numbers_at(records, key);
    numbers.take(gone);
    remove_record(records, key, len)
}
