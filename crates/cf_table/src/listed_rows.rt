//! Rows that have no index yet.

ghost use Rattle.std.specs.Prelude.{◌≡◌, ◌<◌, ◌++◌, ◌∷◌, [], All, IfOk, OnErr, OnOk};
ghost use Rattle.cf_table.specs.Applied.{IsSpellable};
ghost use Rattle.cf_table.specs.Index.{entries_of, index_of};
ghost use Rattle.cf_table.specs.Tables.{RisesFrom};

use crate::entries::{Entry, order};
use crate::listings::unlisted;
use crate::row_lists::push_row;
use crate::rows::{ROOT, Row};
use crate::tables::Rows;
use crate::targets::raised;
use cf_base::{ItemId, OutOfMemory};
use cf_collections::{ChunkedList, SpareList};
use std::alloc::Global;
use std::marker::Model;

/// Rows in order of id, with all that `Rows` keeps beside them but the index, which `into_rows` makes at once. Contracts see the rows.
#[derive(Drop)]
pub(crate) struct ListedRows {
    rows: SpareList<Row>,
    len: u128,
    // As those of `Rows`.
    bound: Option<u64>,
    unlisted: usize,
    alloc: Global,
}

impl Model for ListedRows {
    ghost use Rattle.std.specs.Prelude.{List};
    ghost use Rattle.cf_table.specs.declared.rows.Row.{Row};
    ghost use Rattle.cf_table.specs.Listed.{AreListed};

    ghost Value = { List Row };

    ghost view = { λ t. t.rows };

    ghost invariant = { λ t. AreListed t.rows t.len t.bound t.unlisted };
}

// The entries of rows, in order of id.
fn entries_of(alloc: Global, rows: &[Row]) -> Result<Vec<Entry>, OutOfMemory>
    ensures { IfOk result (λ v. v.items ≡ entries_of rows.now) }
{
    let mut entries = Vec::with_capacity(alloc, rows.len())?;
    for row in rows {
        let entry = Entry::of(alloc, row)?;
        entries.push(entry)?;
    }
    Ok(entries)
}

// The index of rows that have none yet: their entries, sorted at once.
fn index_rows(alloc: Global, rows: &[Row]) -> Result<ChunkedList<Entry>, OutOfMemory>
    requires { RisesFrom 0 rows.now }
    ensures { IfOk result (λ i. i ≡ index_of rows.now) }
{
    let mut entries = entries_of(alloc, rows)?;
    entries.sort_unstable_by(|a, b| order(a, b.parent, b.name.as_slice(), b.id));
    ChunkedList::from_vec(alloc, entries)
}

impl ListedRows {
    /// No rows, with room for so many.
    pub(crate) fn with_capacity(alloc: Global, count: usize) -> Result<ListedRows, OutOfMemory>
        ensures { IfOk result (λ t. t ≡ []) }
    {
        let rows = Vec::with_capacity(alloc, count)?;
        Ok(ListedRows {
            rows: SpareList::from_vec(alloc, rows),
            len: 0,
            bound: Some(ROOT.0),
            unlisted: 0,
            alloc,
        })
    }

    /// Adds a row whose id is above all others. Without memory the rows are as before.
    pub(crate) fn push_row(&mut self, row: Row) -> Result<(), OutOfMemory>
        requires above { All (λ r. r.id.0 < row.id.0) self.old }
        requires spellable { IsSpellable row }
        ensures ok { OnOk result (self.new ≡ self.old ++ row ∷ []) }
        ensures err { OnErr result (self.new ≡ self.old) }
    {
        let bound = raised(self.bound, &row.identity);
        let after = unlisted(&row);
        self.len = push_row(&mut self.rows, row, self.len)?;
        self.bound = bound;
        self.unlisted += after;
        Ok(())
    }

    /// The rows with their index and the id that the next item gets.
    pub(crate) fn into_rows(self, next: ItemId) -> Result<Rows, OutOfMemory>
        ensures rows { IfOk result (λ t. t.rows ≡ self) }
        ensures next { IfOk result (λ t. t.next ≡ next) }
    {
        let ListedRows {
            rows,
            len,
            bound,
            unlisted,
            alloc,
        } = self;
        let index = index_rows(alloc, rows.as_slice())?;
        Ok(Rows {
            rows,
            index,
            next,
            len,
            bound,
            unlisted,
            alloc,
        })
    }
}
