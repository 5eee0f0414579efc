//! Whether a change fits the row of its item.

ghost use Rattle.std.specs.Prelude.{◌≡◌, ◌≤◌, ◌+◌, ◌↔◌, IsTrue};
ghost use Rattle.cf_table.specs.Applied.{FitsRow, IsSpellable};
ghost use Rattle.cf_table.specs.Means.{IsLater, is_rebase_point};

use cf_base::{Change, Usn};
use cf_table::{NO_USN, Row, is_above, same_usn};

/// The most bytes of a file.
pub const MOST_SIZE: u64 = 16_777_216;

/// The most bytes of a name.
pub const MOST_NAME: usize = 255;

/// The most bytes of an identity.
pub const MOST_IDENTITY: usize = 65_535;

/// What spans end at, or below.
const MOST_END: u64 = 1_099_511_627_776;

fn is_rebase_point(at: Usn, row: &Row) -> bool
    ensures { result ≡ is_rebase_point at row.now }
{
    same_usn(at, NO_USN) || same_usn(at, row.anchor) || same_usn(at, row.number)
}

// Whether a span ends by some place.
fn ends_by(start: u64, len: u64, end: u64) -> bool
    ensures { IsTrue result ↔ (start + len ≤ end) }
{
    len <= end && start <= end - len
}

/// Whether a change of an item that stays fits its row.
pub fn fits_row(change: &Change, row: &Row) -> bool
    ensures { IsTrue result ↔ FitsRow change.now row.now }
{
    match change {
        Change::Make { .. } | Change::Remove { .. } | Change::Copy { .. } => false,
        Change::Move { name, .. } => name.as_slice().len() <= MOST_NAME,
        Change::Write { at, bytes, .. } => ends_by(*at, bytes.as_slice().len() as u64, MOST_SIZE),
        Change::Size { size, .. } => *size <= MOST_SIZE,
        Change::Filled { start, bytes, .. } => {
            ends_by(*start, bytes.as_slice().len() as u64, MOST_END)
        }
        Change::Validated { start, len, .. } => ends_by(*start, *len, MOST_END),
        Change::Emptied { start, len, .. } => ends_by(*start, *len, MOST_END),
        Change::Convert { identity, .. } => identity.as_slice().len() <= MOST_IDENTITY,
        Change::Rebase {
            identity,
            len,
            at,
            ..
        } => {
            identity.as_slice().len() <= MOST_IDENTITY
                && *len <= MOST_SIZE
                && is_rebase_point(*at, row)
        }
        Change::Take { identity, size, .. } => {
            identity.as_slice().len() <= MOST_IDENTITY && *size <= MOST_SIZE
        }
        Change::SetPin { .. }
        | Change::Mark { .. }
        | Change::Clear { .. }
        | Change::Revert { .. }
        | Change::Populated { .. }
        | Change::Keep { .. } => true,
    }
}

/// Whether a number comes after the number and the anchor of a row.
pub(crate) fn is_later(number: Usn, row: &Row) -> bool
    ensures { IsTrue result ↔ IsLater number row.now }
{
    is_above(number, row.number) && is_above(number, row.anchor)
}

/// Whether a row has texts that can be spelled.
pub(crate) fn is_spellable(row: &Row) -> bool
    ensures { IsTrue result ↔ IsSpellable row.now }
{
    row.name.as_slice().len() <= MOST_NAME && row.identity.as_slice().len() <= MOST_IDENTITY
}
