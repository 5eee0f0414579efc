//! Whether a change is within the limits of a volume.

ghost use Rattle.std.specs.Prelude.{◌≤◌, ◌<◌, IsTrue, MatchOption, length, option_copied};
ghost use Rattle.cf_volume_points.specs.Keeping.{IsNextId};
ghost use Rattle.cf_table.specs.Applied.{FitsRow};
ghost use Rattle.cf_table.specs.Changing.{Fits, FitsRows, IsNewItem};

use cf_base::{Change, ItemId};
use cf_table::{Row, Rows, item_of};
use cf_volume::{MOST_IDENTITY, MOST_NAME, MOST_SIZE, VolumeOn, fits_row};
use cf_volume_ground::Ground;

/// How many bytes at the front of an identity name its target.
const TARGET: usize = 8;

// Whether an id comes after those of all rows, and is none that was given.
fn is_new(rows: &Rows, item: ItemId) -> bool
    ensures new { IsTrue result → IsNewItem item rows.now.rows }
    ensures next { IsTrue result → rows.now.next.0 ≤ item.0 }
{
    if item.0 < 1 {
        return false;
    }
    if item.0 >= u64::MAX {
        return false;
    }
    if item.0 < rows.next().0 {
        return false;
    }
    rows.after(Some(ItemId(item.0 - 1))).is_none()
}

// Whether a row is there whose identity has a place for its target.
fn has_target(row: Option<&Row>) -> bool
    ensures { IsTrue result → MatchOption (option_copied row.entry) ⊥ (λ r. 8 ≤ length r.identity) }
{
    match row {
        Some(row) => row.identity.as_slice().len() >= TARGET,
        None => false,
    }
}

// The same of the row that a change of an item that stays is of, if there is one.
fn fits_own(change: &Change, row: Option<&Row>) -> bool
    ensures { IsTrue result → MatchOption (option_copied row.entry) (Unit {0}) (λ r. FitsRow change.now r) }
{
    match row {
        Some(row) => fits_row(change, row),
        None => true,
    }
}

fn fits_stay(rows: &Rows, change: &Change) -> bool
    ensures { IsTrue result → FitsRows change.now rows.now.rows }
{
    let _ = rows.image_len();
    fits_own(change, rows.get(item_of(change)))
}

fn fits_rows(rows: &Rows, change: &Change) -> bool
    ensures fits { IsTrue result → Fits change.now rows.now.rows }
    ensures next { IsTrue result → IsNextId change.now rows.now.next }
{
    match change {
        Change::Make {
            item,
            name,
            size,
            identity,
            ..
        } => {
            is_new(rows, *item)
                && name.as_slice().len() <= MOST_NAME
                && identity.as_slice().len() <= MOST_IDENTITY
                && *size <= MOST_SIZE
        }
        Change::Copy {
            item,
            from,
            name,
            ..
        } => {
            is_new(rows, *item) && name.as_slice().len() <= MOST_NAME && has_target(rows.get(*from))
        }
        Change::Remove { .. } => true,
        Change::Move { .. }
        | Change::Write { .. }
        | Change::Size { .. }
        | Change::Filled { .. }
        | Change::Validated { .. }
        | Change::Emptied { .. }
        | Change::SetPin { .. }
        | Change::Mark { .. }
        | Change::Clear { .. }
        | Change::Convert { .. }
        | Change::Revert { .. }
        | Change::Rebase { .. }
        | Change::Take { .. }
        | Change::Populated { .. }
        | Change::Keep { .. } => fits_stay(rows, change),
    }
}

/// Whether a change is within the limits of a volume, so that it can be applied: names, identities, sizes and spans are not
/// too long, a Rebase is at a number of its item, what is copied is there, and a new item's id comes after all others.
pub(crate) fn fits<G: Ground>(volume: &VolumeOn<G>, change: &Change) -> bool
    ensures fits { IsTrue result → Fits change.now volume.now.known.table.rows }
    ensures next { IsTrue result → IsNextId change.now volume.now.known.table.next }
{
    fits_rows(volume.rows(), change)
}
