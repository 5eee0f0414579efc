//! The damages of a state.

ghost use Rattle.std.specs.Prelude.{◌≡◌, ◌++◌, ◌≤◌, [], ℕ, List, IfOk, OnOk, is_some, map};
ghost use Rattle.cf_scrub.specs.Blocks.{AreMarks, with_held};
ghost use Rattle.cf_scrub.specs.States.{damages, is_within, row_damages, rows_damages};
ghost use Rattle.cf_table.specs.Spelling.{extent_of, row_value};
ghost use Rattle.cf_table.specs.Tables.{AreTableRows, RisesFrom};
ghost use Rattle.cf_model.specs.Numbers.{root_id};
ghost use Rattle.cf_volume_image.specs.Contents.{image_of, row_at};
ghost use Rattle.cf_volume_image.specs.Sound.{most_image_of};

use crate::blocks::are_blocks_of;
use crate::clusters::{no_marks, push_clusters, push_unless};
use crate::damages::{Damage, DamageKind};
use crate::row_tests::{has_sound_runs, is_sound_row};
use crate::ways::is_in_tree;
use cf_base::limits::{MOST_IMAGE_BYTES, MOST_ITEMS};
use cf_base::{ItemId, OutOfMemory};
use cf_codec::Format;
use cf_table::{ROOT, Row, Rows};
use cf_volume_image::Contents;
use std::alloc::Global;

const MOST_FIRST_IMAGE_BYTES: u64 = 1_044_480;

// The most bytes of an image in format 2 that is within the limit of the format: format 1 spells no clock and no last access
// of a row, which take eight bytes each.
fn most_bytes(format: Format, rows: usize) -> u64
    requires { rows ≤ MOST_ITEMS }
    ensures { result ≡ most_image_of format rows }
{
    match format {
        Format::First => MOST_FIRST_IMAGE_BYTES + 8 + 8 * rows as u64,
        Format::Second => MOST_IMAGE_BYTES,
    }
}

fn is_within(contents: &Contents, format: Format) -> bool
    ensures { result ≡ is_within format (image_of contents.now) }
{
    let rows = contents.rows.as_slice().len();
    if rows as u64 > MOST_ITEMS {
        return false;
    }
    contents.image_len() <= most_bytes(format, rows)
}

fn has_root(rows: &Rows) -> bool
    ensures { result ≡ is_some (row_at (map row_value rows.now.rows) root_id) }
{
    match rows.get(ROOT) {
        Some(_) => true,
        None => false,
    }
}

// Adds the damages of a row, whose clusters are then marked.
fn push_row(
    out: &mut Vec<Damage>,
    marks: &mut Vec<bool>,
    contents: &Contents,
    row: &Row,
) -> Result<(), OutOfMemory>
    ensures { (clusters : ℕ) (held : List ℕ) → AreMarks clusters held marks.old.items
        → OnOk result ((out.new.items ≡ out.old.items ++ row_damages (image_of contents.now) clusters held (row_value row.now)) × AreMarks clusters (with_held held (map extent_of row.now.extents)) marks.new.items) }
{
    let rows = &contents.rows;
    let id = row.id.0;
    push_unless(out, is_in_tree(rows, row), DamageKind::Tree, id)?;
    push_unless(
        out,
        is_sound_row(rows, row, contents.last)?,
        DamageKind::Row,
        id,
    )?;
    push_unless(out, has_sound_runs(row), DamageKind::Runs, id)?;
    push_unless(
        out,
        are_blocks_of(&row.extents, &row.here),
        DamageKind::Extents,
        id,
    )?;
    push_clusters(out, marks, row.extents.pairs())
}

fn push_rows(
    alloc: Global,
    out: &mut Vec<Damage>,
    contents: &Contents,
    rows: &[Row],
    clusters: u32,
) -> Result<(), OutOfMemory>
    ensures { OnOk result (out.new.items ≡ out.old.items ++ rows_damages (image_of contents.now) clusters [] (map row_value rows.now)) }
{
    let mut marks = no_marks(alloc, clusters)?;
    for row in rows {
        push_row(out, &mut marks, contents, row)?;
    }
    Ok(())
}

// What is known of rows, which are kept in order.
fn are_kept(rows: &Rows)
    ensures rise { RisesFrom 0 rows.now.rows }
    ensures kept { AreTableRows rows.now.rows }
{
    rows.image_len();
}

/// The damages of contents in the format on a device of so many clusters. The work grows with what is held, but for a
/// logarithm.
pub(crate) fn damages_of(
    alloc: Global,
    contents: &Contents,
    format: Format,
    clusters: u32,
) -> Result<Vec<Damage>, OutOfMemory>
    ensures list { IfOk result (λ v. v.items ≡ damages format clusters (image_of contents.now)) }
    ensures rise { RisesFrom 0 contents.now.rows.rows }
    ensures kept { AreTableRows contents.now.rows.rows }
{
    are_kept(&contents.rows);
    let mut out = Vec::new(alloc);
    push_unless(&mut out, is_within(contents, format), DamageKind::Large, 0)?;
    push_unless(&mut out, has_root(&contents.rows), DamageKind::Tree, 1)?;
    push_rows(
        alloc,
        &mut out,
        contents,
        contents.rows.as_slice(),
        clusters,
    )?;
    Ok(out)
}
