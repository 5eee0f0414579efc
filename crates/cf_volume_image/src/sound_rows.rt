//! Whether a row is sound.

ghost use Rattle.std.specs.Prelude.{◌≡◌, ◌<◌, false, unwrap_or};
ghost use Rattle.std.specs.Bool.{Decides};
ghost use Rattle.cf_model.specs.Numbers.{above};
ghost use Rattle.cf_model.specs.Rows.{IsSoundRow};
ghost use Rattle.cf_model.specs.Texts.{is_name};
ghost use Rattle.cf_table.specs.Spelling.{row_value};
ghost use Rattle.cf_volume_image.specs.RowTests.{AreSmall, HasSoundName, HasSoundNumbers, HasSoundSets, IsBareRow, IsPlainRow, IsSoundButName, IsSoundFile};

use crate::sets::{has_all, has_span, is_below};
use cf_base::{ItemId, Usn, is_name};
use cf_table::{NO_USN, ROOT, Row};

const MOST_IDENTITY_BYTES: usize = 4096;

const MOST_FILE_BYTES: u32 = 16_777_216;

fn is_above(number: Usn, other: Usn) -> bool
    ensures { result ≡ above number other }
{
    number.epoch > other.epoch || number.epoch == other.epoch && number.place > other.place
}

fn has_sound_numbers(row: &Row, next: ItemId, last: Usn) -> bool
    ensures { Decides result (HasSoundNumbers next last row.now) }
{
    row.id.0 < next.0 && !is_above(row.number, last) && !is_above(row.anchor, last)
}

// A law ties the two definitions of a name.
fn is_item_name(name: &[u8]) -> bool
    ensures { result ≡ is_name name.now }
{
    is_name(name)
}

fn has_sound_name(row: &Row) -> bool
    ensures { Decides result (HasSoundName row.now) }
{
    let name = row.name.as_slice();
    if row.id.0 == ROOT.0 {
        return name.is_empty();
    }
    is_item_name(name)
}

fn is_small(row: &Row) -> bool
    ensures { Decides result (AreSmall row.now) }
{
    row.identity.as_slice().len() <= MOST_IDENTITY_BYTES
        && row.size <= MOST_FILE_BYTES
        && row.base.unwrap_or(0) <= MOST_FILE_BYTES
}

fn has_sound_sets(row: &Row) -> bool
    ensures { Decides result (HasSoundSets row.now) }
{
    let here = row.here.runs();
    let modified = row.modified.runs();
    is_below(here, row.size as u64)
        && has_all(here, row.valid.runs())
        && has_all(here, modified)
        && has_all(modified, row.modified_since.runs())
        && has_span(modified, row.base.unwrap_or(0) as u64, row.size as u64)
}

fn is_bare(row: &Row) -> bool
    ensures { Decides result (IsBareRow row.now) }
{
    row.size == 0
        && row.base.is_none()
        && row.here.runs().is_empty()
        && row.valid.runs().is_empty()
        && row.modified.runs().is_empty()
        && row.modified_since.runs().is_empty()
        && !row.dirty
        && !row.dirty_since
        && !row.keep
        && row.last == 0
        && (row.populated || row.placeholder)
}

fn is_plain(row: &Row) -> bool
    ensures { Decides result (IsPlainRow row.now) }
{
    row.placeholder || row.identity.as_slice().is_empty() && !row.in_sync && !row.keep
}

fn has_sound_flags(row: &Row) -> bool
    ensures { Decides result (IsSoundFile row.now) }
{
    let kind = if row.dir {
        is_bare(row)
    } else {
        !row.populated
    };
    let synced = !(row.in_sync && row.dirty);
    let clean = row.dirty || row.modified.runs().is_empty() && !row.dirty_since;
    kind && is_plain(row) && synced && clean
}

fn is_sound_but_name(row: &Row, next: ItemId, last: Usn) -> bool
    ensures { Decides result (IsSoundButName next last row.now) }
{
    has_sound_numbers(row, next, last)
        && is_small(row)
        && has_sound_sets(row)
        && has_sound_flags(row)
}

/// Whether the row is one of a volume whose next item and last number these are.
pub(crate) fn is_sound_row(row: &Row, next: ItemId, last: Usn) -> bool
    ensures { Decides result (IsSoundRow next last (row_value row.now)) }
{
    if !has_sound_name(row) {
        return false;
    }
    is_sound_but_name(row, next, last)
}
