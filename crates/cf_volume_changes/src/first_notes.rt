//! What is noted where nothing has changed since the last point.

ghost use Rattle.std.specs.Prelude.{◌≡◌, [], IfOk};
ghost use Rattle.cf_volume_changes.specs.Notes.{NotesNothing};

use cf_base::{ItemId, OutOfMemory};
use cf_table::{ROOT, Rows};
use cf_volume_image::AuxRecords;
use cf_volume_points::Earlier;
use std::alloc::Global;

/// A table without a row.
pub(crate) fn no_rows(alloc: Global) -> Result<Rows, OutOfMemory>
    ensures { IfOk result (λ t. t.rows ≡ []) }
{
    let mut rows = Rows::new(alloc)?;
    rows.remove_row(ROOT);
    Ok(rows)
}

/// What is noted where nothing has changed since the last point. `next` is the id that the next item gets. OutOfMemory where
/// there is none.
pub fn nothing_noted(alloc: Global, next: ItemId) -> Result<Earlier, OutOfMemory>
    ensures { IfOk result (NotesNothing next) }
{
    Ok(Earlier {
        rows: no_rows(alloc)?,
        next,
        records: AuxRecords::new(alloc),
        made: AuxRecords::new(alloc),
    })
}
