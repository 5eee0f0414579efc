//! Changes of items that stay, planned and judged.

ghost use Rattle.std.specs.Prelude.{◌≡◌, ◌≤◌, ◌<◌, ◌+◌, ◌∷◌, [], ℕ, List, None, Some, length, true, IfNone, IfOk, IfSome};
ghost use Rattle.cf_base.specs.declared.limits.TheConstants.{MOST_NUMBER};
ghost use Rattle.cf_clusters.specs.Roles.{how_many, is_now};
ghost use Rattle.cf_model.specs.Changes.{put_change, why_no_room};
ghost use Rattle.cf_model.specs.Items.{Item};
ghost use Rattle.cf_model.specs.Numbers.{usn_after};
ghost use Rattle.cf_model.specs.State.{Volume};
ghost use Rattle.cf_volume_blocks.specs.Bytes.{puts_in};
ghost use Rattle.cf_volume_changes.specs.Now.{IsNow};
ghost use Rattle.cf_volume_points.specs.Holding.{FitsTable};
ghost use Rattle.cf_table.specs.Applied.{FitsRow, IsSpellable, item_effect};
ghost use Rattle.cf_table.specs.Changing.{Fits, IsNext, item_of_change, pin_for, stays};
ghost use Rattle.cf_table.specs.Means.{IsLater, KeepsRest, Means, StaysBefore};
ghost use Rattle.cf_table.specs.Tables.{IsStored, row_of};
ghost use Rattle.cf_table.specs.declared.rows.Row.{Row};
ghost use Rattle.cf_volume_changes.specs.Calls.{IsFullness};
ghost use Rattle.cf_volume_changes.specs.Laid.{Plans};
ghost use Rattle.cf_volume_changes.specs.Steady.{TestsLength, known_of};

use crate::fullness::is_full;
use crate::kinds::pin_for;
use crate::parts::Parts;
use crate::room::lengths::is_too_long_with;
use cf_base::{Change, Code, OutOfMemory, Pin, Usn};
use cf_table::{Row, Rows, item_of};
use cf_volume_blocks::blocks_put;
use cf_volume_image::Contents;
use std::alloc::Global;

/// What a change makes of the row of an item that stays, and the blocks into which it puts bytes. The extents are those
/// before.
#[derive(Drop)]
pub struct Planned {
    pub row: Row,
    pub blocks: Vec<u32>,
}

/// The sets of a row tell that their runs are in order, and the map that its blocks rise.
pub(crate) fn tell_stored(row: &Row) -> u32
    ensures { IsStored row.now }
{
    let _ = row.here.runs();
    let _ = row.valid.runs();
    let _ = row.modified.runs();
    let _ = row.modified_since.runs();
    let _ = row.extents.pairs();
    row.size
}

/// Plans a change of an item that stays. `pin` is that of the parent that a Move names.
pub(crate) fn plan_item(
    alloc: Global,
    row: &Row,
    change: &Change,
    pin: Pin,
    number: Usn,
) -> Result<Planned, OutOfMemory>
    requires fits { FitsRow change.now row.now }
    requires later { IsLater number row.now }
    ensures means { IfOk result (λ p. (i : Item) → Means row.now i → Means p.row (item_effect change.now pin number i)) }
    ensures rest { IfOk result (λ p. KeepsRest row.now p.row) }
    ensures later { IfOk result (λ p. StaysBefore number row.now p.row) }
    ensures stored { IfOk result (λ p. IsStored p.row) }
    ensures spellable { IfOk result (λ p. IsSpellable row.now → IsSpellable p.row) }
    ensures blocks { IfOk result (λ p. (i : Item) → Means row.now i → p.blocks.items ≡ puts_in change.now i.held) }
{
    let mut after = row.copy()?;
    after.apply(alloc, change, pin, number)?;
    let blocks = blocks_put(alloc, row, change)?;
    let _ = tell_stored(&after);
    Ok(Planned { row: after, blocks })
}

/// Plans a change of an item that is there and stays. OutOfMemory where there is none.
pub fn plan_change(
    alloc: Global,
    rows: &Rows,
    change: &Change,
    number: Usn,
) -> Result<Planned, OutOfMemory>
    requires kind { stays change.now ≡ true }
    requires there { row_of rows.now.rows (item_of_change change.now) ≡ None → ⊥ }
    requires fits { Fits change.now rows.now.rows }
    requires later { IsNext number rows.now.rows }
    ensures { IfOk result (λ p. (r : Row) → row_of rows.now.rows (item_of_change change.now) ≡ Some r → Plans change.now (pin_for change.now rows.now.rows) number r p.row p.blocks.items) }
{
    let _ = rows.image_len();
    let pin = pin_for(rows, change);
    match rows.get(item_of(change)) {
        None => unreachable!(),
        Some(row) => plan_item(alloc, row, change, pin, number),
    }
}

// Whether the image would be too long after a planned change.
fn lacks_table(contents: &Contents, change: &Change, planned: &Planned) -> bool
    requires there { row_of contents.now.rows.rows (item_of_change change.now) ≡ None → ⊥ }
    ensures { (r : Row) → row_of contents.now.rows.rows (item_of_change change.now) ≡ Some r → TestsLength contents.now r planned.now.row result }
{
    match contents.rows.get(item_of(change)) {
        None => unreachable!(),
        Some(row) => is_too_long_with(contents, row, &planned.row),
    }
}

/// Why a planned change of an item that is there and stays would be refused, where a number is left for it.
pub fn refusal_of(parts: &Parts, change: &Change, planned: &Planned) -> Option<Code>
    requires kind { stays change.now ≡ true }
    requires place { parts.now.contents.last.place < MOST_NUMBER }
    requires there { row_of parts.now.contents.rows.rows (item_of_change change.now) ≡ None → ⊥ }
    requires plan { (r : Row) → row_of parts.now.contents.rows.rows (item_of_change change.now) ≡ Some r → Plans change.now (pin_for change.now parts.now.contents.rows.rows) (usn_after parts.now.contents.last.epoch parts.now.contents.last.place) r planned.now.row planned.now.blocks.items }
    ensures why { (seen : List ℕ) (v : Volume) → IsNow seen (known_of parts.now) v → why_no_room (change.now ∷ []) v ≡ result }
    ensures fits { IfNone result ((seen : List ℕ) (v : Volume) → IsNow seen (known_of parts.now) v → FitsTable (put_change change.now v).items (put_change change.now v).book) }
    ensures blocks { IfNone result (0 < length planned.now.blocks.items → how_many is_now parts.now.held + length planned.now.blocks.items ≤ parts.now.limit) }
    ensures only { IfSome result IsFullness }
{
    let _ = parts.contents.rows.image_len();
    if lacks_table(&parts.contents, change, planned) {
        return Some(Code::TableFull);
    }
    if is_full(parts, planned.blocks.len() as u128) {
        return Some(Code::Full);
    }
    None
}
