//! Rows that are read, each in a slot.

ghost use Rattle.std.specs.Prelude.{◌≡◌, IfErr, IfOk, OnErr, OnOk, length, true};
ghost use Rattle.cf_table.specs.Applied.{IsSpellable};
ghost use Rattle.cf_table.specs.Slots.{all_rows, AreSlots, rows_there};
ghost use Rattle.cf_table.specs.Tables.{IsRowAt, IsRowGap, RisesFrom, with_row, without_row};

use crate::rows::Row;
use cf_base::{ItemId, OutOfMemory};

/// A row that was read, and whether it is still there. One that goes stays in its slot, so that no other moves.
#[derive(Drop)]
pub(crate) struct Slot {
    pub(crate) row: Row,
    pub(crate) is_there: bool,
}

// Whether the last row has a lower id, or there is none.
fn is_past(slots: &[Slot], id: u64) -> bool
    requires { RisesFrom 0 (all_rows slots.now) }
    ensures { result ≡ true → IsRowGap (all_rows slots.now) id (length slots.now) }
{
    match slots.last() {
        Some(slot) => slot.row.id.0 < id,
        None => true,
    }
}

// Where the row with the id is, or where it would go.
fn find_slot(slots: &[Slot], id: u64) -> Result<usize, usize>
    requires { RisesFrom 0 (all_rows slots.now) }
    ensures found { IfOk result (IsRowAt (all_rows slots.now) id) }
    ensures absent { IfErr result (IsRowGap (all_rows slots.now) id) }
{
    if is_past(slots, id) {
        return Err(slots.len());
    }
    slots.binary_search_by_key(&id, |slot| slot.row.id.0)
}

fn replace_slot(slots: &mut Vec<Slot>, place: usize, row: Row)
    requires place { IsRowAt (all_rows slots.old.items) row.id.0 place }
    requires slots { AreSlots slots.old.items }
    requires spellable { IsSpellable row }
    ensures slots { AreSlots slots.new.items }
    ensures puts { rows_there slots.new.items ≡ with_row row (rows_there slots.old.items) }
{
    let slot = &mut slots[place];
    slot.row = row;
    slot.is_there = true;
}

fn insert_slot(slots: &mut Vec<Slot>, place: usize, row: Row) -> Result<(), OutOfMemory>
    requires place { IsRowGap (all_rows slots.old.items) row.id.0 place }
    requires slots { AreSlots slots.old.items }
    requires spellable { IsSpellable row }
    ensures slots { AreSlots slots.new.items }
    ensures puts { OnOk result (rows_there slots.new.items ≡ with_row row (rows_there slots.old.items)) }
    ensures err { OnErr result (slots.new.items ≡ slots.old.items) }
{
    let slot = Slot {
        row,
        is_there: true,
    };
    if place == slots.len() {
        slots.push(slot)?;
        return Ok(());
    }
    slots.insert(place, slot)?;
    Ok(())
}

/// Puts the row in place of the one with its id, or adds it. Without memory the rows are as before.
pub(crate) fn put_slot(slots: &mut Vec<Slot>, row: Row) -> Result<(), OutOfMemory>
    requires slots { AreSlots slots.old.items }
    requires spellable { IsSpellable row }
    ensures slots { AreSlots slots.new.items }
    ensures puts { OnOk result (rows_there slots.new.items ≡ with_row row (rows_there slots.old.items)) }
    ensures err { OnErr result (slots.new.items ≡ slots.old.items) }
{
    match find_slot(slots, row.id.0) {
        Ok(place) => {
            replace_slot(slots, place, row);
            Ok(())
        }
        Err(place) => insert_slot(slots, place, row),
    }
}

fn clear_slot(slots: &mut Vec<Slot>, place: usize, id: ItemId)
    requires place { IsRowAt (all_rows slots.old.items) id.0 place }
    requires slots { AreSlots slots.old.items }
    ensures slots { AreSlots slots.new.items }
    ensures removes { rows_there slots.new.items ≡ without_row id (rows_there slots.old.items) }
{
    slots[place].is_there = false;
}

/// Takes the row with the id out, if there is one.
pub(crate) fn remove_slot(slots: &mut Vec<Slot>, id: ItemId)
    requires slots { AreSlots slots.old.items }
    ensures slots { AreSlots slots.new.items }
    ensures removes { rows_there slots.new.items ≡ without_row id (rows_there slots.old.items) }
{
    match find_slot(slots, id.0) {
        Ok(place) => clear_slot(slots, place, id),
        Err(_) => {}
    }
}
