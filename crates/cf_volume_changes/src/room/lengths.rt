//! How long the table is after a change.

ghost use Rattle.std.specs.Prelude.{◌≡◌, ◌≤◌, ◌<◌, ◌+◌, ◌*◌, ◌^◌, ◌↔◌, ℕ, IsTrue, length, min, nat_lt};
ghost use Rattle.cf_base.specs.declared.limits.TheConstants.{MOST_IMAGE_BYTES};
ghost use Rattle.cf_volume_image.specs.Contents.{image_of};
ghost use Rattle.cf_model.specs.Formats.{spell_image};
ghost use Rattle.cf_volume_points.specs.Lengths.{len_with};
ghost use Rattle.cf_ranges.specs.Positions.{IsBelow, IsRuns, touched};
ghost use Rattle.cf_volume_changes.specs.Steady.{TestsLength};

use cf_base::Span;
use cf_table::Row;
use cf_volume_image::Contents;

/// The most bytes that an image has.
const MOST_IMAGE: u128 = 1_306_624;

/// How many bytes spell a row that has so many extents.
pub(crate) fn len_with(row: &Row, extents: u64) -> u128
    ensures len { result ≡ len_with row.now extents }
    ensures small { result < 2 ^ 80 }
{
    let runs = row.here.runs().len() as u128
        + row.valid.runs().len() as u128
        + row.modified.runs().len() as u128
        + row.modified_since.runs().len() as u128;
    let texts = row.name.as_slice().len() as u128 + row.identity.as_slice().len() as u128;
    74 + texts + 8 * (runs + extents as u128)
}

/// How many bytes spell a row in which each block with a byte has a cluster.
pub(crate) fn len_of(row: &Row) -> u128
    ensures len { (n : ℕ) → IsBelow row.now.here (4096 * n) → result ≡ len_with row.now (touched row.now.here 0 n) }
    ensures small { result < 2 ^ 80 }
{
    len_with(row, row.here.blocks())
}

// A number that is not less than that of the blocks with a place of the runs: that of all blocks up to the last of them.
fn most_blocks(runs: &[Span]) -> u64
    requires { IsRuns runs.now }
    ensures { (n : ℕ) → touched runs.now 0 n ≤ result }
{
    match runs.last() {
        None => 0,
        Some(last) => (last.start + last.len + 4095) / 4096,
    }
}

// A number that is not less than that of the bytes that spell a row in which each block with a byte has a cluster. No run is
// looked at but the last.
fn most_len(row: &Row) -> u128
    ensures most { (n : ℕ) → len_with row.now (touched row.now.here 0 n) ≤ result }
    ensures small { result < 2 ^ 80 }
{
    len_with(row, most_blocks(row.here.runs()))
}

/// Whether the image would be too long with a row of so many bytes in place of one.
pub fn is_too_long(contents: &Contents, old: u128, new: u128) -> bool
    requires old { old < 2 ^ 80 }
    requires new { new < 2 ^ 80 }
    ensures { result ≡ nat_lt (MOST_IMAGE_BYTES + old) (min (length (spell_image (image_of contents.now))) 18446744073709551615 + new) }
{
    contents.image_len() as u128 + new > MOST_IMAGE + old
}

/// Whether the image is short enough once it gets so many bytes longer.
pub(crate) fn has_bytes(contents: &Contents, more: u128) -> bool
    requires { more < 2 ^ 80 }
    ensures { IsTrue result ↔ (min (length (spell_image (image_of contents.now))) 18446744073709551615 + more ≤ MOST_IMAGE_BYTES) }
{
    contents.image_len() as u128 + more <= MOST_IMAGE
}

/// Whether the image would be too long with one row in place of another. In both, each block with a byte has a cluster. The
/// blocks are counted only where the image has little room.
pub(crate) fn is_too_long_with(contents: &Contents, old: &Row, new: &Row) -> bool
    ensures { TestsLength contents.now old.now new.now result }
{
    let most = contents.image_len() as u128 + most_len(new);
    if most <= MOST_IMAGE {
        return false;
    }
    is_too_long(contents, len_of(old), len_of(new))
}
