//! Rows while they are read, before they have an index.

ghost use Rattle.std.specs.Prelude.{◌≡◌, ◌<◌, ◌++◌, ◌∷◌, [], All, IfOk, OnErr, OnOk};
ghost use Rattle.cf_table.specs.Applied.{IsSpellable};
ghost use Rattle.cf_table.specs.Slots.{AreSlots, rows_there};
ghost use Rattle.cf_table.specs.Tables.{RisesFrom, with_row, without_row};

use crate::listed_rows::ListedRows;
use crate::rows::Row;
use crate::slots::{Slot, put_slot, remove_slot};
use crate::tables::Rows;
use cf_base::{ItemId, OutOfMemory};
use std::alloc::Global;
use std::marker::Model;

/// Rows in order of id that are not looked up by parent and name yet: a change of them keeps no index. `into_rows` makes the index of
/// all of them at once. A row that goes leaves its slot empty until then. Contracts see the rows in order of id.
#[derive(Drop)]
pub struct UnindexedRows {
    slots: Vec<Slot>,
    alloc: Global,
}

impl Model for UnindexedRows {
    ghost use Rattle.std.specs.Prelude.{List};
    ghost use Rattle.cf_table.specs.declared.rows.Row.{Row};
    ghost use Rattle.cf_table.specs.Slots.{AreSlots, rows_there};

    ghost Value = { List Row };

    ghost view = { λ t. rows_there t.slots.items };

    ghost invariant = { λ t. AreSlots t.slots.items };
}

// Adds the row of a slot, whose id is above all others, if it is still there.
fn push_slot(rows: &mut ListedRows, slot: Slot) -> Result<(), OutOfMemory>
    requires above { All (λ r. r.id.0 < slot.row.id.0) rows.old }
    requires spellable { IsSpellable slot.row }
    ensures { OnOk result (rows.new ≡ rows.old ++ rows_there (slot ∷ [])) }
{
    let Slot { row, is_there } = slot;
    if is_there {
        return rows.push_row(row);
    }
    drop(row);
    Ok(())
}

// The rows that are still there, without the empty slots between them.
fn gathered(alloc: Global, slots: Vec<Slot>) -> Result<ListedRows, OutOfMemory>
    requires { AreSlots slots.items }
    ensures { IfOk result (λ t. t ≡ rows_there slots.items) }
{
    let mut rows = ListedRows::with_capacity(alloc, slots.len())?;
    for slot in slots {
        push_slot(&mut rows, slot)?;
    }
    Ok(rows)
}

impl UnindexedRows {
    /// No rows, with room for so many.
    pub(crate) fn with_capacity(alloc: Global, count: usize) -> Result<UnindexedRows, OutOfMemory>
        ensures { IfOk result (λ t. t ≡ []) }
    {
        Ok(UnindexedRows {
            slots: Vec::with_capacity(alloc, count)?,
            alloc,
        })
    }

    /// Adds a row whose id is above all others. Without memory the rows are as before.
    pub(crate) fn push_row(&mut self, row: Row) -> Result<(), OutOfMemory>
        requires above { All (λ r. r.id.0 < row.id.0) self.old }
        requires spellable { IsSpellable row }
        ensures ok { OnOk result (self.new ≡ self.old ++ row ∷ []) }
        ensures err { OnErr result (self.new ≡ self.old) }
    {
        put_slot(&mut self.slots, row)
    }

    /// Puts the row in place of the one with its id, or adds it. Without memory the rows are as before.
    pub fn put_row(&mut self, row: Row) -> Result<(), OutOfMemory>
        requires { IsSpellable row }
        ensures ok { OnOk result (self.new ≡ with_row row self.old) }
        ensures err { OnErr result (self.new ≡ self.old) }
        ensures rises { RisesFrom 0 self.old }
    {
        put_slot(&mut self.slots, row)
    }

    /// Takes the row with the id out, if there is one.
    pub fn remove_row(&mut self, id: ItemId)
        ensures { self.new ≡ without_row id self.old }
    {
        remove_slot(&mut self.slots, id);
    }

    /// The rows with their index and the id that the next item gets. It takes memory for them once more.
    pub fn into_rows(self, next: ItemId) -> Result<Rows, OutOfMemory>
        ensures rows { IfOk result (λ t. t.rows ≡ self) }
        ensures next { IfOk result (λ t. t.next ≡ next) }
    {
        let UnindexedRows { slots, alloc } = self;
        let rows = gathered(alloc, slots)?;
        rows.into_rows(next)
    }
}
