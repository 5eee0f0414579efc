//! The table as changes would leave it that are not made.

ghost use Rattle.std.specs.Prelude.{◌≡◌, ◌+◌, ◌*◌, ◌∷◌, [], ◌++◌, ℕ, length, min, option_copied, IfOk, IfSome, OnOk};
ghost use Rattle.cf_clusters.specs.Roles.{how_many, is_now};
ghost use Rattle.cf_volume_image.specs.Contents.{image_of};
ghost use Rattle.cf_model.specs.Formats.{spell_image};
ghost use Rattle.cf_ranges.specs.Positions.{IsBelow, touched};
ghost use Rattle.cf_table.specs.Applied.{IsSpellable};
ghost use Rattle.cf_table.specs.Tables.{IsStored, IsTableRow, RisesFrom, row_of, with_row, without_row};
ghost use Rattle.cf_volume_changes.specs.Drafts.{added, is_gone, pin_in, row_in, row_sizes};

use crate::first_notes::no_rows;
use crate::plans::tell_stored;
use crate::room::lengths::len_with;
use cf_base::{ItemId, OutOfMemory, Pin};
use cf_clusters::Data;
use cf_table::{Row, Rows};
use cf_volume_image::Contents;
use std::alloc::Global;

/// Bytes in the image, items, and blocks that hold a byte.
#[derive(Clone, Copy)]
pub(crate) struct Sizes {
    pub(crate) bytes: u128,
    pub(crate) items: u128,
    pub(crate) blocks: u128,
}

/// A table as changes would leave it that are not made.
#[derive(Drop)]
pub(crate) struct Draft {
    // Rows that would be new, or other ones than in the table.
    pub(crate) changed: Rows,
    // Items that would be removed; one of them may be made again.
    pub(crate) gone: Vec<ItemId>,
    // What the table has and would get, and what of that would go again.
    pub(crate) more: Sizes,
    pub(crate) less: Sizes,
}

/// A sum, for which there is no memory where it is not below 2 ^ 128.
pub(crate) fn sum(a: u128, b: u128) -> Result<u128, OutOfMemory>
    ensures { IfOk result (λ n. n ≡ a + b) }
{
    match a.checked_add(b) {
        Some(n) => Ok(n),
        None => Err(OutOfMemory),
    }
}

fn sum_sizes(a: Sizes, b: Sizes) -> Result<Sizes, OutOfMemory>
    ensures { IfOk result (λ s. s ≡ added a b) }
{
    Ok(Sizes {
        bytes: sum(a.bytes, b.bytes)?,
        items: sum(a.items, b.items)?,
        blocks: sum(a.blocks, b.blocks)?,
    })
}

/// The sizes of a row.
pub(crate) fn sizes_of(row: &Row) -> Sizes
    ensures { (n : ℕ) → IsBelow row.now.here (4096 * n) → result ≡ row_sizes row.now (touched row.now.here 0 n) }
{
    let blocks = row.here.blocks();
    Sizes {
        bytes: len_with(row, blocks),
        items: 1,
        blocks: blocks as u128,
    }
}

/// The draft of no change.
pub(crate) fn draft_of(
    alloc: Global,
    contents: &Contents,
    held: &Data,
) -> Result<Draft, OutOfMemory>
    ensures changed { IfOk result (λ d. d.changed.rows ≡ []) }
    ensures gone { IfOk result (λ d. d.gone.items ≡ []) }
    ensures more { IfOk result (λ d. d.more ≡ record { bytes = min (length (spell_image (image_of contents.now))) 18446744073709551615; items = length contents.now.rows.rows; blocks = how_many is_now held.now }) }
    ensures less { IfOk result (λ d. d.less ≡ record { bytes = 0; items = 0; blocks = 0 }) }
{
    Ok(Draft {
        changed: no_rows(alloc)?,
        gone: Vec::new(alloc),
        more: Sizes {
            bytes: contents.image_len() as u128,
            items: contents.rows.as_slice().len() as u128,
            blocks: held.used() as u128,
        },
        less: Sizes {
            bytes: 0,
            items: 0,
            blocks: 0,
        },
    })
}

/// Whether an item would be removed. It may be made again.
pub(crate) fn is_gone(draft: &Draft, id: ItemId) -> bool
    ensures { result ≡ is_gone draft.now.gone.items id }
{
    draft.gone.iter().any(|gone| gone.0 == id.0)
}

// A row of a table, as a table keeps it.
fn kept_row(rows: &Rows, id: ItemId) -> Option<&Row>
    ensures value { option_copied result ≡ row_of rows.now.rows id }
    ensures table { IfSome result (λ r. IsTableRow r.now) }
{
    let _ = rows.image_len();
    match rows.get(id) {
        Some(row) => Some(row),
        None => None,
    }
}

/// The row of an item.
pub(crate) fn row_in<'a>(draft: &'a Draft, contents: &'a Contents, id: ItemId) -> Option<&'a Row>
    ensures value { option_copied result ≡ row_in draft.now contents.now.rows.rows id }
    ensures table { IfSome result (λ r. IsTableRow r.now) }
{
    match kept_row(&draft.changed, id) {
        Some(row) => Some(row),
        None => {
            if is_gone(draft, id) {
                None
            } else {
                kept_row(&contents.rows, id)
            }
        }
    }
}

/// The pin of an item, and Unspecified where there is none.
pub(crate) fn pin_in(draft: &Draft, contents: &Contents, id: ItemId) -> Pin
    ensures { result ≡ pin_in (row_in draft.now contents.now.rows.rows id) }
{
    match row_in(draft, contents, id) {
        Some(row) => row.pin,
        None => Pin::Unspecified,
    }
}

/// Puts a row that would be new, or stand in place of the one with its id.
pub(crate) fn draft_row(draft: &mut Draft, row: Row) -> Result<(), OutOfMemory>
    requires { IsSpellable row }
    ensures rises { RisesFrom 0 draft.old.changed.rows }
    ensures stored { IsStored row }
    ensures changed { OnOk result (draft.new.changed.rows ≡ with_row row draft.old.changed.rows) }
    ensures gone { draft.new.gone ≡ draft.old.gone }
    ensures more { OnOk result ((n : ℕ) → IsBelow row.here (4096 * n) → draft.new.more ≡ added draft.old.more (row_sizes row (touched row.here 0 n))) }
    ensures less { draft.new.less ≡ draft.old.less }
{
    let _ = draft.changed.image_len();
    let _ = tell_stored(&row);
    draft.more = sum_sizes(draft.more, sizes_of(&row))?;
    draft.changed.put_row(row)?;
    Ok(())
}

/// Leaves something out.
pub(crate) fn leave_out(draft: &mut Draft, sizes: Sizes) -> Result<(), OutOfMemory>
    ensures same { (draft.new.changed ≡ draft.old.changed) × (draft.new.gone ≡ draft.old.gone) × (draft.new.more ≡ draft.old.more) }
    ensures less { OnOk result (draft.new.less ≡ added draft.old.less sizes) }
{
    draft.less = sum_sizes(draft.less, sizes)?;
    Ok(())
}

/// Removes an item, whose sizes are left out already.
pub(crate) fn remove_row(draft: &mut Draft, id: ItemId) -> Result<(), OutOfMemory>
    ensures changed { OnOk result (draft.new.changed.rows ≡ without_row id draft.old.changed.rows) }
    ensures gone { OnOk result (draft.new.gone.items ≡ draft.old.gone.items ++ id ∷ []) }
    ensures sizes { (draft.new.more ≡ draft.old.more) × (draft.new.less ≡ draft.old.less) }
{
    draft.changed.remove_row(id);
    draft.gone.push(id)?;
    Ok(())
}
