//! Auxiliary records, measured, made and put in order.

ghost use Rattle.std.specs.Prelude.{◌≡◌, ◌<◌, ◌^◌, All, IfOk, OnOk};
ghost use Rattle.cf_volume_image.specs.Contents.{record_at};
ghost use Rattle.cf_volume_image.specs.RecordLists.{IsShort};
ghost use Rattle.cf_model.specs.Formats.{with_records};
ghost use Rattle.cf_volume_changes.specs.AuxPuts.{len_if};
ghost use Rattle.cf_volume_changes.specs.Notes.{KnowKeys};

use crate::record_notes::{copied, note_record};
use cf_base::{AuxRecord, Blob, OutOfMemory};
use cf_volume_image::AuxRecords;
use std::alloc::Global;

/// How many bytes spell the record with a key, and 0 where there is none.
pub fn len_at(records: &AuxRecords, key: &[u8]) -> u128
    ensures len { result ≡ len_if (record_at records.now key.now) }
    ensures small { result < 2 ^ 80 }
{
    match records.get(key) {
        None => 0,
        Some(aux) => 3 + aux.key.as_slice().len() as u128 + aux.value.as_slice().len() as u128,
    }
}

/// A record with this key and value. OutOfMemory where there is none.
pub fn record_of(alloc: Global, key: &[u8], value: &[u8]) -> Result<AuxRecord, OutOfMemory>
    ensures { IfOk result (λ r. r ≡ record { key = key.now; value = value.now }) }
{
    Ok(AuxRecord {
        key: Blob::from_slice(alloc, key)?,
        value: Blob::from_slice(alloc, value)?,
    })
}

/// Puts records in order, each noted as it was at the last point. OutOfMemory where there is none.
pub fn put_each(
    alloc: Global,
    then: &mut AuxRecords,
    made: &mut AuxRecords,
    records: &mut AuxRecords,
    list: &[AuxRecord],
) -> Result<(), OutOfMemory>
    requires { All IsShort list.now }
    ensures records { OnOk result (records.new ≡ with_records list.now records.old) }
    ensures known { OnOk result (KnowKeys records.old then.old made.old records.new then.new made.new) }
{
    for aux in list {
        note_record(alloc, then, made, records, aux.key.as_slice())?;
        records.put(copied(aux)?)?;
    }
    Ok(())
}
