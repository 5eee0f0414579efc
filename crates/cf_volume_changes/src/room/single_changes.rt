//! One change of an item that stays: what it needs, without a draft.

ghost use Rattle.std.specs.Prelude.{◌≡◌, ◌≤◌, ◌<◌, ◌+◌, ◌^◌, ℕ, List, Some, length, min, IfOk, IfSome, IsTrue};
ghost use Rattle.cf_base.specs.declared.limits.TheConstants.{MOST_IMAGE_BYTES, MOST_NUMBER};
ghost use Rattle.cf_model.specs.Blocks.{puts_into};
ghost use Rattle.cf_model.specs.Changes.{put_change};
ghost use Rattle.cf_model.specs.Formats.{spell_image};
ghost use Rattle.cf_model.specs.Images.{is_table_full};
ghost use Rattle.cf_model.specs.Numbers.{usn_after};
ghost use Rattle.cf_model.specs.State.{Volume};
ghost use Rattle.cf_volume_changes.specs.Now.{IsNow};
ghost use Rattle.cf_table.specs.Applied.{FitsRow};
ghost use Rattle.cf_table.specs.Changing.{IsNext, item_of_change};
ghost use Rattle.cf_table.specs.Tables.{row_of};
ghost use Rattle.cf_volume_changes.specs.Growth.{AddsAtMost};
ghost use Rattle.cf_volume_changes.specs.Steady.{known_of};
ghost use Rattle.cf_volume_image.specs.Contents.{image_of};

use crate::fullness::has_place;
use crate::kinds::pin_for;
use crate::limits::fits_row;
use crate::parts::Parts;
use crate::plans::plan_item;
use crate::room::lengths::{has_bytes, is_too_long_with};
use crate::room::tallies::never_longer;
use cf_base::{Change, OutOfMemory, Usn};
use cf_table::{Row, item_of};
use cf_volume_blocks::blocks_put;
use cf_volume_image::Contents;

/// The row of the item of a change that fits it, where a number is left for the change. None for a change that makes or
/// removes an item.
pub(crate) fn fitting_row<'a>(contents: &'a Contents, change: &Change) -> Option<&'a Row>
    ensures found { IfSome result (λ r. row_of contents.now.rows.rows (item_of_change change.now) ≡ Some r.now) }
    ensures fits { IfSome result (λ r. FitsRow change.now r.now) }
    ensures place { IfSome result (λ r. contents.now.last.place < MOST_NUMBER) }
{
    if !has_place(contents) {
        return None;
    }
    match contents.rows.get(item_of(change)) {
        None => None,
        Some(row) => {
            if fits_row(change, row) {
                Some(row)
            } else {
                None
            }
        }
    }
}

/// Into how many blocks a change puts bytes that fits the row of its item.
pub(crate) fn blocks_asked(parts: &Parts, row: &Row, change: &Change) -> Result<usize, OutOfMemory>
    requires found { row_of parts.now.contents.rows.rows (item_of_change change.now) ≡ Some row.now }
    requires fits { FitsRow change.now row.now }
    ensures { (seen : List ℕ) (v : Volume) → IsNow seen (known_of parts.now) v → IfOk result (λ n. length (puts_into v.items change.now) ≡ n) }
{
    let blocks = blocks_put(parts.alloc, row, change)?;
    let count = blocks.len();
    drop(blocks);
    Ok(count)
}

// How many bytes longer a change makes the row of its item at most that puts bytes into so many blocks: each of them may need an
// extent, and a set that gets or loses one span has one run more. None where only the new row says.
fn most_added(change: &Change, blocks: usize) -> Option<u128>
    ensures small { IfSome result (λ more. more < 2 ^ 80) }
    ensures most { IfSome result (AddsAtMost change.now blocks) }
{
    if never_longer(change) {
        return Some(0);
    }
    match change {
        Change::Filled { .. } => Some(8 * (blocks as u128 + 1)),
        Change::Write { .. } => Some(8 * (blocks as u128 + 3)),
        _ => None,
    }
}

// Whether the image is short enough after a change that puts bytes into so many blocks, however long the new row is. No run is
// looked at.
fn surely_fits(contents: &Contents, change: &Change, blocks: usize) -> bool
    ensures { IsTrue result → (more : ℕ) × AddsAtMost change.now blocks more × (min (length (spell_image (image_of contents.now))) 18446744073709551615 + more ≤ MOST_IMAGE_BYTES) }
{
    match most_added(change, blocks) {
        None => false,
        Some(more) => has_bytes(contents, more),
    }
}

// Whether a change is refused where the table would be full after it, by its new row.
fn lacks_table_planned(parts: &Parts, row: &Row, change: &Change) -> Result<bool, OutOfMemory>
    requires later { IsNext (usn_after parts.now.contents.last.epoch parts.now.contents.last.place) parts.now.contents.rows.rows }
    requires found { row_of parts.now.contents.rows.rows (item_of_change change.now) ≡ Some row.now }
    requires fits { FitsRow change.now row.now }
    requires place { parts.now.contents.last.place < MOST_NUMBER }
    ensures { (seen : List ℕ) (v : Volume) → IsNow seen (known_of parts.now) v → IfOk result (λ full. is_table_full change.now (put_change change.now v).items (put_change change.now v).book ≡ full) }
{
    let _ = parts.contents.rows.image_len();
    let last = parts.contents.last;
    let number = Usn {
        epoch: last.epoch,
        place: last.place + 1,
    };
    let pin = pin_for(&parts.contents.rows, change);
    let planned = plan_item(parts.alloc, row, change, pin, number)?;
    let long = is_too_long_with(&parts.contents, row, &planned.row);
    drop(planned);
    Ok(long)
}

/// Whether a change that fits the row of its item, and puts bytes into so many blocks, is refused where the table would be full
/// after it. The new row is made only where the image has little room, or the change is of a kind whose row may get much longer.
pub(crate) fn lacks_table_after(
    parts: &Parts,
    row: &Row,
    change: &Change,
    blocks: usize,
) -> Result<bool, OutOfMemory>
    requires later { IsNext (usn_after parts.now.contents.last.epoch parts.now.contents.last.place) parts.now.contents.rows.rows }
    requires found { row_of parts.now.contents.rows.rows (item_of_change change.now) ≡ Some row.now }
    requires fits { FitsRow change.now row.now }
    requires place { parts.now.contents.last.place < MOST_NUMBER }
    ensures { (seen : List ℕ) (v : Volume) → IsNow seen (known_of parts.now) v → length (puts_into v.items change.now) ≡ blocks → IfOk result (λ full. is_table_full change.now (put_change change.now v).items (put_change change.now v).book ≡ full) }
{
    let _ = parts.contents.rows.image_len();
    if surely_fits(&parts.contents, change, blocks) {
        return Ok(false);
    }
    lacks_table_planned(parts, row, change)
}
