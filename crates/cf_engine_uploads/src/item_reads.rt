//! What is read of an item before it is uploaded.

ghost use Rattle.std.specs.Prelude.{◌≡◌, IfOk, OnOk};
ghost use Rattle.cf_engine_uploads.specs.Reads.{IsBaseVersion, IsPlaceholder, is_there_at, is_whole_at};
ghost use Rattle.cf_filter_calls.specs.Planned.{ReadsAt, has_entries, stands_for};
ghost use Rattle.cf_filter_steps.specs.Answering.{Any as AnyFilter, Reads as FilterReads};
ghost use Rattle.cf_model.specs.Items.{Item, is_all_here, size_of};
ghost use Rattle.cf_table.specs.Means.{Means};

use cf_base::{ItemId, OutOfMemory, Version, no_such_state};
use cf_engine_queue::numbers_of;
use cf_filter_steps::Steps;
use cf_table::Row;

/// The version of the base of the row's item, 0 for none. An identity that no engine gave is out of memory.
pub(crate) fn base_version(row: &Row) -> Result<Version, OutOfMemory>
    ensures { IfOk result (IsBaseVersion row.now) }
{
    match numbers_of(&row.identity) {
        Some(numbers) => Ok(Version(numbers.version)),
        None => Err(no_such_state()),
    }
}

// Whether each byte is here.
fn is_row_whole(row: &Row) -> bool
    ensures { (i : Item) → Means row.now i → result ≡ is_all_here i }
{
    let size = row.size as u64;
    match row.here.runs() {
        [first, ..] => first.start == 0 && first.len >= size,
        [] => size == 0,
    }
}

/// Whether an item is there, and each of its bytes is here.
pub(crate) fn is_whole<S: Steps>(s: &S, id: ItemId) -> bool
    ensures { FilterReads S.sense AnyFilter (is_whole_at id) s.now result }
{
    match s.rows().get(id) {
        Some(row) => is_row_whole(row),
        None => false,
    }
}

/// Whether an item is there.
pub(crate) fn is_there<S: Steps>(s: &S, id: ItemId) -> bool
    ensures { FilterReads S.sense AnyFilter (is_there_at id) s.now result }
{
    s.rows().get(id).is_some()
}

/// Whether an item that is there is a directory.
pub(crate) fn is_directory<S: Steps>(s: &S, id: ItemId) -> bool
    ensures { ReadsAt S.sense id has_entries s.now result }
{
    match s.rows().get(id) {
        Some(row) => row.dir,
        None => false,
    }
}

/// Whether an item that is there is a placeholder.
pub(crate) fn is_placeholder<S: Steps>(s: &S, id: ItemId) -> bool
    ensures { ReadsAt S.sense id stands_for s.now result }
{
    match s.rows().get(id) {
        Some(row) => row.placeholder,
        None => false,
    }
}

/// An item that is there is a placeholder. No state has another to wait for: then it is out of memory.
pub(crate) fn check_placeholder<S: Steps>(s: &S, id: ItemId) -> Result<(), OutOfMemory>
    ensures { OnOk result (IsPlaceholder S.sense id s.now) }
{
    if is_placeholder(s, id) {
        Ok(())
    } else {
        Err(no_such_state())
    }
}

/// The size in bytes of an item that is there.
pub(crate) fn size_of<S: Steps>(s: &S, id: ItemId) -> u64
    ensures { ReadsAt S.sense id size_of s.now result }
{
    match s.rows().get(id) {
        Some(row) => row.size as u64,
        None => 0,
    }
}
