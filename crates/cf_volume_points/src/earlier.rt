//! What is noted of the last point.

ghost use Rattle.std.specs.Prelude.{◌≡◌, IfOk, length};

use cf_base::{AuxRecord, Blob, ItemId, OutOfMemory};
use cf_table::Rows;
use cf_volume_image::AuxRecords;
use std::alloc::Global;

/// What is noted of the last point: its rows and records that have changed since or are gone, as they were.
#[derive(Drop)]
pub struct Earlier {
    /// Rows of items below `next`.
    pub rows: Rows,
    /// The id that the next item got at the last point.
    pub next: ItemId,
    pub records: AuxRecords,
    /// Records with the keys under which there was none.
    pub made: AuxRecords,
}

/// A key without a value, as `Earlier::made` holds it. OutOfMemory where there is none.
pub fn bare(alloc: Global, key: &[u8]) -> Result<AuxRecord, OutOfMemory>
    ensures { IfOk result (λ r. (r.key ≡ key.now) × (length r.value ≡ 0)) }
{
    Ok(AuxRecord {
        key: Blob::from_slice(alloc, key)?,
        value: Blob::from_slice(alloc, &[])?,
    })
}
