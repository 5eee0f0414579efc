//! Rows of new items, planned.

ghost use Rattle.std.specs.Prelude.{◌≡◌, ◌≤◌, true, Some, length, IfOk, MatchOption};
ghost use Rattle.cf_base.specs.declared.limits.TheConstants.{MOST_FILE_BYTES};
ghost use Rattle.cf_model.specs.Effects.{copied, made};
ghost use Rattle.cf_model.specs.Items.{Item};
ghost use Rattle.cf_model.specs.Numbers.{above, no_usn};
ghost use Rattle.cf_table.specs.Applied.{IsSpellable};
ghost use Rattle.cf_table.specs.Means.{IsFresh, Means};
ghost use Rattle.cf_table.specs.Changing.{IsNext};
ghost use Rattle.cf_table.specs.Tables.{pin_at, row_of};
ghost use Rattle.cf_table.specs.declared.rows.Row.{Row};

use crate::kinds::pin_of;
use cf_base::{Blob, Identity, ItemId, Kind, Name, OutOfMemory, Pin, Usn};
use cf_table::{Place, Row, Rows};
use std::alloc::Global;

/// Where a new item stands. `pin` is that of its parent.
pub(crate) fn place_of(
    alloc: Global,
    item: ItemId,
    parent: ItemId,
    name: &Name,
    pin: Pin,
    number: Usn,
) -> Result<Place, OutOfMemory>
    ensures { IfOk result (λ p. p ≡ record { id = item; parent = parent; name = name.now; pin = pin; number = number }) }
{
    Ok(Place {
        id: item,
        parent,
        name: Blob::from_slice(alloc, name.as_slice())?,
        pin,
        number,
    })
}

/// Plans the row of a new item without a byte. OutOfMemory where there is none.
pub fn plan_made(
    alloc: Global,
    rows: &Rows,
    item: ItemId,
    parent: ItemId,
    name: &Name,
    kind: Kind,
    size: u64,
    identity: &Identity,
    number: Usn,
) -> Result<Row, OutOfMemory>
    requires size { size ≤ MOST_FILE_BYTES }
    requires after { above number no_usn ≡ true }
    ensures means { IfOk result (λ r. Means r (made item parent name.now kind size identity.now (pin_at rows.now.rows parent) number)) }
    ensures fresh { IfOk result IsFresh }
{
    let place = place_of(alloc, item, parent, name, pin_of(rows, parent), number)?;
    Ok(Row::made(alloc, place, kind, size as u32, identity.copy()?))
}

/// Plans the row of a copy of a file, whose blocks have no clusters yet. OutOfMemory where there is none.
pub fn plan_copied(
    alloc: Global,
    rows: &Rows,
    item: ItemId,
    from: ItemId,
    parent: ItemId,
    name: &Name,
    number: Usn,
) -> Result<Row, OutOfMemory>
    requires source { MatchOption (row_of rows.now.rows from) ⊥ (λ r. 8 ≤ length r.identity) }
    requires name { length name.now ≤ 255 }
    requires later { IsNext number rows.now.rows }
    ensures means { IfOk result (λ p. (r : Row) → row_of rows.now.rows from ≡ Some r → (i : Item) → Means r i → Means p (copied item parent name.now (pin_at rows.now.rows parent) number i)) }
    ensures fresh { IfOk result IsFresh }
    ensures id { IfOk result (λ p. p.id ≡ item) }
    ensures number { IfOk result (λ p. p.number ≡ number) }
    ensures spellable { IfOk result IsSpellable }
{
    let _ = rows.image_len();
    let place = place_of(alloc, item, parent, name, pin_of(rows, parent), number)?;
    match rows.get(from) {
        None => unreachable!(),
        Some(row) => row.copied(alloc, place),
    }
}
