//! Auxiliary records as they were at the last point.

ghost use Rattle.std.specs.Prelude.{◌≡◌, ◌≤◌, Some, IfOk, OnOk, is_some, length};
ghost use Rattle.cf_volume_image.specs.Contents.{record_at};
ghost use Rattle.cf_volume_image.specs.RecordLists.{IsShort};
ghost use Rattle.cf_volume_changes.specs.Notes.{NotesKey};

use cf_base::{AuxRecord, OutOfMemory};
use cf_volume_image::AuxRecords;
use cf_volume_points::bare;
use std::alloc::Global;

fn has(records: &AuxRecords, key: &[u8]) -> bool
    ensures { result ≡ is_some (record_at records.now key.now) }
{
    records.get(key).is_some()
}

/// A record, on its own.
pub(crate) fn copied(aux: &AuxRecord) -> Result<AuxRecord, OutOfMemory>
    ensures { IfOk result (λ r. r ≡ aux.now) }
{
    Ok(AuxRecord {
        key: aux.key.copy()?,
        value: aux.value.copy()?,
    })
}

// One of the records, on its own.
fn copy_record(records: &AuxRecords, record: &AuxRecord) -> Result<AuxRecord, OutOfMemory>
    requires { record_at records.now record.now.key ≡ Some record.now }
    ensures same { IfOk result (λ r. r ≡ record.now) }
    ensures short { IsShort record.now }
{
    let _ = records.image_len();
    copied(record)
}

/// Notes the record with a key as it is, or that there is none, unless it has changed since the last point already.
/// OutOfMemory where there is none.
pub fn note_record(
    alloc: Global,
    before: &mut AuxRecords,
    made: &mut AuxRecords,
    records: &AuxRecords,
    key: &[u8],
) -> Result<(), OutOfMemory>
    requires { length key.now ≤ 255 }
    ensures { OnOk result (NotesKey key.now records.now before.old before.new made.old made.new) }
{
    if has(before, key) {
        return Ok(());
    }
    if has(made, key) {
        return Ok(());
    }
    match records.get(key) {
        Some(record) => before.put(copy_record(records, record)?),
        None => made.put(bare(alloc, key)?),
    }
}
