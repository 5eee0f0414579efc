//! Whether contents are those of a volume.

ghost use Rattle.std.specs.Prelude.{◌≡◌, ◌≤◌, IfOk, length, map};
ghost use Rattle.std.specs.Bool.{Decides};
ghost use Rattle.cf_base.specs.declared.limits.TheConstants.{MOST_ITEMS};
ghost use Rattle.cf_model.specs.Standing.{AreSound};
ghost use Rattle.cf_model.specs.Formats.{Header};
ghost use Rattle.cf_table.specs.Spelling.{row_value};
ghost use Rattle.cf_volume_image.specs.Contents.{image_of};
ghost use Rattle.cf_volume_image.specs.Sets.{AllBelow};
ghost use Rattle.cf_volume_image.specs.Sound.{AllHoldBytes, IsSoundIn, most_image_in, most_image_of};
ghost use Rattle.cf_volume_image.specs.Spelled.{spell_image_in};

use crate::blocks::are_blocks_of;
use crate::clusters::are_apart;
use crate::contents::Contents;
use crate::sound_rows::is_sound_row;
use crate::trees::is_tree;
use cf_base::{ItemId, OutOfMemory, Usn};
use cf_codec::Format;
use cf_table::Row;
use std::alloc::Global;

const MOST_ROWS: usize = 10_000;

const MOST_IMAGE_BYTES: u64 = 1_306_624;

const MOST_FIRST_IMAGE_BYTES: u64 = 1_044_480;

fn are_sound(rows: &[Row], next: ItemId, last: Usn) -> bool
    ensures { (h : Header) → h.next ≡ next → h.last ≡ last → Decides result (AreSound h (map row_value rows.now)) }
{
    for row in rows {
        if !is_sound_row(row, next, last) {
            return false;
        }
    }
    true
}

fn hold_bytes(rows: &[Row]) -> bool
    requires { AllBelow rows.now }
    ensures { Decides result (AllHoldBytes (map row_value rows.now)) }
{
    for row in rows {
        if !are_blocks_of(&row.extents, &row.here) {
            return false;
        }
    }
    true
}

// The most bytes of an image in format 2 that is within the limit of the format: format 1 spells no clock and no last access
// of a row, which take eight bytes each.
fn most_bytes(format: Format, rows: usize) -> u64
    requires { rows ≤ MOST_ITEMS }
    ensures { result ≡ most_image_of format rows }
{
    match format {
        Format::First => MOST_FIRST_IMAGE_BYTES + 8 + 8 * rows as u64,
        Format::Second => MOST_IMAGE_BYTES,
    }
}

fn is_small(contents: &Contents, format: Format) -> bool
    ensures { Decides result ((length contents.now.rows.rows ≤ MOST_ITEMS) × (length (spell_image_in format (image_of contents.now)) ≤ most_image_in format)) }
{
    let rows = contents.rows.as_slice().len();
    if rows > MOST_ROWS {
        return false;
    }
    contents.image_len() <= most_bytes(format, rows)
}

/// Whether the contents are those of a volume of so many clusters in this format.
pub(crate) fn is_sound(
    alloc: Global,
    contents: &Contents,
    format: Format,
    clusters: u32,
) -> Result<bool, OutOfMemory>
    ensures { IfOk result (λ b. Decides b (IsSoundIn format clusters (image_of contents.now))) }
{
    let rows = contents.rows.as_slice();
    if !is_small(contents, format) {
        return Ok(false);
    }
    if !are_sound(rows, contents.rows.next(), contents.last) {
        return Ok(false);
    }
    if !is_tree(&contents.rows) {
        return Ok(false);
    }
    if !hold_bytes(rows) {
        return Ok(false);
    }
    are_apart(alloc, rows, clusters)
}
