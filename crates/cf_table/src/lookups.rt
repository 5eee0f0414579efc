//! Look-ups in the rows of a volume.

ghost use Rattle.std.specs.List.{list_any};
ghost use Rattle.std.specs.Prelude.{◌≡◌, ◌≤◌, ◌<◌, ◌&&◌, ℕ, Option, not, find, filter, IfOk, length, get_or, true, false};
ghost use Rattle.cf_model.specs.Numbers.{above};
ghost use Rattle.cf_table.specs.Tables.{child_rows, comes_after, id_of, ids_of, is_child_row, RisesFrom, rows_by_name};
ghost use Rattle.cf_table.specs.declared.rows.Row.{Row};

use crate::entries::{child_at, children_at};
use crate::row_lists::find_row;
use crate::rows::Row;
use crate::tables::Rows;
use crate::usns::is_above;
use cf_base::{ItemId, OutOfMemory, Usn};
use std::alloc::Global;

// How many rows do not come after the id.
fn place_after(rows: &[Row], id: Option<ItemId>) -> usize
    requires { RisesFrom 0 rows.now }
    ensures in_range { result ≤ length rows.now }
    ensures before { (k : ℕ) (d : Row) → k < result → comes_after id (get_or rows.now k d) ≡ false }
    ensures from { (k : ℕ) (d : Row) → result ≤ k → k < length rows.now → comes_after id (get_or rows.now k d) ≡ true }
{
    match id {
        None => 0,
        Some(id) => match find_row(rows, id.0) {
            Ok(place) => place + 1,
            Err(place) => place,
        },
    }
}

fn id_after(rows: &[Row], id: Option<ItemId>) -> Option<ItemId>
    requires { RisesFrom 0 rows.now }
    ensures { result ≡ id_of (find (comes_after id) rows.now) }
{
    let place = place_after(rows, id);
    if place < rows.len() {
        Some(rows[place].id)
    } else {
        None
    }
}

fn changed_in(alloc: Global, rows: &[Row], number: Usn) -> Result<Vec<ItemId>, OutOfMemory>
    ensures { IfOk result (λ v. v.items ≡ ids_of (filter (λ r. above r.number number) rows.now)) }
{
    let mut ids = Vec::new(alloc);
    for row in rows {
        if is_above(row.number, number) {
            ids.push(row.id)?;
        }
    }
    Ok(ids)
}

impl Rows {
    /// The id of the row after this one in order of id, of the first one after None. Takes no memory.
    pub fn after(&self, id: Option<ItemId>) -> Option<ItemId>
        ensures { result ≡ id_of (find (comes_after id) self.now.rows) }
    {
        id_after(self.rows.as_slice(), id)
    }

    /// The item with this parent and name. By a binary search. Takes no memory.
    pub fn child(&self, parent: ItemId, name: &[u8]) -> Option<ItemId>
        ensures { result ≡ id_of (find (is_child_row parent name.now) self.now.rows) }
    {
        child_at(&self.index, parent, name)
    }

    /// The children of a directory by name. The work grows with them alone.
    pub fn children(&self, id: ItemId) -> Result<Vec<ItemId>, OutOfMemory>
        ensures { IfOk result (λ v. v.items ≡ ids_of (rows_by_name (child_rows self.now.rows id))) }
    {
        children_at(self.alloc, &self.index, id)
    }

    /// The items whose number is above this one, in order of id.
    pub fn changes_since(&self, number: Usn) -> Result<Vec<ItemId>, OutOfMemory>
        ensures { IfOk result (λ v. v.items ≡ ids_of (filter (λ r. above r.number number) self.now.rows)) }
    {
        changed_in(self.alloc, self.rows.as_slice(), number)
    }

    /// Whether the entries of a directory are not known. Takes no walk over the rows and no memory.
    pub fn has_unlisted(&self) -> bool
        ensures { result ≡ list_any (λ r. r.dir && not r.populated) self.now.rows }
    {
        self.unlisted > 0
    }
}
