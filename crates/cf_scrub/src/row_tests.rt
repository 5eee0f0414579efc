//! Whether a row is sound, and its runs.

ghost use Rattle.std.specs.Prelude.{◌≡◌, IfOk, map};
ghost use Rattle.cf_model.specs.Texts.{is_name};
ghost use Rattle.cf_scrub.specs.RowTests.{has_child, has_no_run, has_sound_flags, has_sound_kind, has_sound_name, has_sound_numbers, has_sound_runs, has_sound_writes, is_bare, is_listed, is_small, is_sound_row};
ghost use Rattle.cf_table.specs.Spelling.{row_value};

use crate::places::{ends_by, has_all, has_span};
use cf_base::limits::{MOST_FILE_BYTES, MOST_IDENTITY_BYTES};
use cf_base::{ItemId, OutOfMemory, Usn, is_name};
use cf_table::{Row, Rows, is_above};

fn has_sound_numbers(row: &Row, next: ItemId, last: Usn) -> bool
    ensures { result ≡ has_sound_numbers next last (row_value row.now) }
{
    row.id.0 < next.0 && (!is_above(row.number, last) && !is_above(row.anchor, last))
}

// A law ties the two definitions of a name.
fn is_item_name(name: &[u8]) -> bool
    ensures { result ≡ is_name name.now }
{
    is_name(name)
}

fn has_sound_name(row: &Row) -> bool
    ensures { result ≡ has_sound_name (row_value row.now) }
{
    let name = row.name.as_slice();
    if row.id.0 == 1 {
        return name.is_empty();
    }
    is_item_name(name)
}

fn is_small(row: &Row) -> bool
    ensures { result ≡ is_small (row_value row.now) }
{
    row.identity.as_slice().len() <= MOST_IDENTITY_BYTES
        && (row.size as u64 <= MOST_FILE_BYTES && row.base.unwrap_or(0) as u64 <= MOST_FILE_BYTES)
}

fn has_sound_writes(row: &Row) -> bool
    ensures { result ≡ has_sound_writes (row_value row.now) }
{
    let modified = row.modified.runs();
    has_span(modified, row.base.unwrap_or(0) as u64, row.size as u64)
        && has_all(modified, row.modified_since.runs())
}

fn has_no_run(row: &Row) -> bool
    ensures { result ≡ has_no_run (row_value row.now) }
{
    row.here.runs().is_empty()
        && (row.valid.runs().is_empty()
            && (row.modified.runs().is_empty() && row.modified_since.runs().is_empty()))
}

fn is_bare(row: &Row) -> bool
    ensures { result ≡ is_bare (row_value row.now) }
{
    row.size == 0
        && (row.base.is_none()
            && (has_no_run(row)
                && (!row.dirty && (!row.dirty_since && (!row.keep && row.last == 0)))))
}

fn has_child(rows: &Rows, id: ItemId) -> Result<bool, OutOfMemory>
    ensures { IfOk result (λ b. b ≡ has_child (map row_value rows.now.rows) id) }
{
    let children = rows.children(id)?;
    Ok(!children.is_empty())
}

fn is_listed(rows: &Rows, row: &Row) -> Result<bool, OutOfMemory>
    ensures { IfOk result (λ b. b ≡ is_listed (map row_value rows.now.rows) (row_value row.now)) }
{
    if row.populated {
        return Ok(true);
    }
    if !row.placeholder {
        return Ok(false);
    }
    Ok(!has_child(rows, row.id)?)
}

fn has_sound_kind(rows: &Rows, row: &Row) -> Result<bool, OutOfMemory>
    ensures { IfOk result (λ b. b ≡ has_sound_kind (map row_value rows.now.rows) (row_value row.now)) }
{
    if !row.dir {
        return Ok(!row.populated);
    }
    if !is_bare(row) {
        return Ok(false);
    }
    is_listed(rows, row)
}

fn has_sound_flags(row: &Row) -> bool
    ensures { result ≡ has_sound_flags (row_value row.now) }
{
    let plain = row.placeholder
        || (row.identity.as_slice().is_empty() && (!row.in_sync && !row.keep));
    let synced = !(row.in_sync && row.dirty);
    let clean = row.dirty || (row.modified.runs().is_empty() && !row.dirty_since);
    plain && (synced && clean)
}

/// Whether the row is sound in a volume of these rows, whose next item is that of the rows and whose last number this is.
pub(crate) fn is_sound_row(rows: &Rows, row: &Row, last: Usn) -> Result<bool, OutOfMemory>
    ensures { IfOk result (λ b. b ≡ is_sound_row (map row_value rows.now.rows) rows.now.next last (row_value row.now)) }
{
    if !(has_sound_numbers(row, rows.next(), last) && has_sound_name(row)) {
        return Ok(false);
    }
    if !(is_small(row) && has_sound_writes(row)) {
        return Ok(false);
    }
    if !has_sound_kind(rows, row)? {
        return Ok(false);
    }
    Ok(has_sound_flags(row))
}

/// Whether the bytes that are here lie inside of the size and all others are here, and a directory has none.
pub(crate) fn has_sound_runs(row: &Row) -> bool
    ensures { result ≡ has_sound_runs (row_value row.now) }
{
    let here = row.here.runs();
    ends_by(here, row.size as u64)
        && (has_all(here, row.valid.runs())
            && (has_all(here, row.modified.runs())
                && (has_all(here, row.modified_since.runs()) && (!row.dir || has_no_run(row)))))
}
