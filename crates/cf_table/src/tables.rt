//! The rows of a volume.

ghost use Rattle.std.specs.Prelude.{◌≡◌, ◌<◌, ◌∷◌, [], All, List, min, true, OnOk, OnErr, IfOk, MatchOption, None, option_copied};
ghost use Rattle.cf_base.specs.declared.ids.Usn.{Usn};
ghost use Rattle.cf_model.specs.Identities.{target_of};
ghost use Rattle.cf_model.specs.Items.{Item, root};
ghost use Rattle.cf_model.specs.Numbers.{above, no_usn};
ghost use Rattle.cf_ranges.specs.Pairs.{cluster_at};
ghost use Rattle.cf_table.specs.Applied.{SetsAnchor, SetsExtent, Touches, IsSpellable};
ghost use Rattle.cf_table.specs.Changing.{AreBelow, IsNext};
ghost use Rattle.cf_table.specs.Means.{IsFresh};
ghost use Rattle.cf_table.specs.Tables.{AreTableRows, MeansAll, RisesFrom, row_of, rows_len, SetsRow, with_row, without_row};

use crate::entries::Entry;
use crate::indexed_rows::{push_indexed, put_indexed, remove_indexed};
use crate::listings::{unlisted, unlisted_at};
use crate::row_lists::{anchor_at, extent_at, find_row, touch_at};
use crate::rows::{ROOT, Row};
use crate::targets::raised;
use cf_base::{ItemId, OutOfMemory, Rid};
use cf_collections::{ChunkedList, SpareList};
use std::alloc::Global;
use std::marker::Model;

/// The rows of a volume, by id. Contracts see them in order of id, with the id that the next item gets.
#[derive(Drop)]
pub struct Rows {
    pub(crate) rows: SpareList<Row>,
    pub(crate) index: ChunkedList<Entry>,
    pub(crate) next: ItemId,
    pub(crate) len: u128,
    // No identity of a row begins with a greater number, and it is at least 1. None where that is not known.
    pub(crate) bound: Option<u64>,
    // How many rows are of a directory whose entries are not known.
    pub(crate) unlisted: usize,
    pub(crate) alloc: Global,
}

impl Model for Rows {
    ghost use Rattle.cf_table.specs.Tables.{Table};
    ghost use Rattle.cf_table.specs.Targets.{AreKept};

    ghost Value = { Table };

    ghost view = { λ t. record { rows = t.rows; next = t.next } };

    ghost invariant = { λ t. AreKept t.rows t.index t.len t.bound t.unlisted };
}

impl Rows {
    /// The rows of a new volume: the root alone. They keep their allocator.
    pub fn new(alloc: Global) -> Result<Rows, OutOfMemory>
        ensures means { IfOk result (λ t. MeansAll t.rows (root ∷ [])) }
        ensures next { IfOk result (λ t. t.next.0 ≡ 2) }
        ensures fresh { IfOk result (λ t. All IsFresh t.rows) }
        ensures later { IfOk result (λ t. (n : Usn) → above n no_usn ≡ true → IsNext n t.rows) }
        ensures below { IfOk result AreBelow }
    {
        let row = Row::root(alloc)?;
        let unlisted = unlisted(&row);
        let mut rows = SpareList::new(alloc);
        let mut index = ChunkedList::new(alloc);
        let len = push_indexed(alloc, &mut rows, &mut index, row, 0)?;
        Ok(Rows {
            rows,
            index,
            next: ItemId(2),
            len,
            bound: Some(ROOT.0),
            unlisted,
            alloc,
        })
    }

    /// The row of an item. By a binary search.
    pub fn get(&self, id: ItemId) -> Option<&Row>
        ensures { option_copied result ≡ row_of self.now.rows id }
    {
        match find_row(self.rows.as_slice(), id.0) {
            Ok(place) => Some(&self.rows[place]),
            Err(_) => None,
        }
    }

    /// Whether each item's target, the item of the remote that its identity names, comes before this one. It takes no walk over the
    /// rows, and may be false also where it is so: targets that rows named before count too.
    pub fn is_above_targets(&self, rid: Rid) -> bool
        ensures { result ≡ true → (items : List Item) → MeansAll self.now.rows items → All (λ i. (target_of i).0 < rid.0) items }
    {
        match self.bound {
            Some(bound) => bound < rid.0,
            None => false,
        }
    }

    /// The id that the next item gets.
    pub fn next(&self) -> ItemId
        ensures { result ≡ self.now.next }
    {
        self.next
    }

    /// How many bytes spell the rows, after the four of their count; the greatest u64 where that is less. It is kept and
    /// not computed.
    pub fn image_len(&self) -> u64
        ensures value { result ≡ min (rows_len self.now.rows) 18446744073709551615 }
        ensures kept { AreTableRows self.now.rows }
        ensures rises { RisesFrom 0 self.now.rows }
    {
        self.len.min(u64::MAX as u128) as u64
    }

    /// Puts the row in place of the one with its id, or adds it. Without memory the rows are as before.
    pub fn put_row(&mut self, row: Row) -> Result<(), OutOfMemory>
        requires { IsSpellable row }
        ensures ok { OnOk result (self.new ≡ record self.old { rows = with_row row self.old.rows }) }
        ensures err { OnErr result (self.new ≡ self.old) }
    {
        let bound = raised(self.bound, &row.identity);
        let rows = self.rows.as_slice();
        let found = find_row(rows, row.id.0);
        let before = unlisted_at(rows, found);
        let after = unlisted(&row);
        self.len = put_indexed(
            self.alloc,
            &mut self.rows,
            &mut self.index,
            found,
            row,
            self.len,
        )?;
        self.bound = bound;
        self.unlisted = self.unlisted - before + after;
        Ok(())
    }

    /// Takes the row with the id out, if there is one.
    pub fn remove_row(&mut self, id: ItemId)
        ensures { self.new ≡ record self.old { rows = without_row id self.old.rows } }
    {
        match find_row(self.rows.as_slice(), id.0) {
            Ok(place) => {
                self.unlisted -= unlisted(&self.rows[place]);
                self.len = remove_indexed(&mut self.rows, &mut self.index, place, self.len);
            }
            Err(_) => {}
        }
    }

    /// Sets the id that the next item gets.
    pub fn set_next(&mut self, next: ItemId)
        ensures { self.new ≡ record self.old { next = next } }
    {
        self.next = next;
    }

    /// Makes the cluster that of a block of the item, or takes the block out where there is none. Gives the one before,
    /// and None where there is no such item, where nothing changes. Without memory the rows are as before.
    pub fn set_extent(
        &mut self,
        id: ItemId,
        block: u32,
        cluster: Option<u32>,
    ) -> Result<Option<u32>, OutOfMemory>
        ensures before { IfOk result (λ before. MatchOption (row_of self.old.rows id) (before ≡ None) (λ r. before ≡ cluster_at r.extents block)) }
        ensures ok { OnOk result (SetsRow (SetsExtent block cluster) id self.old.rows self.new.rows) }
        ensures next { self.new.next ≡ self.old.next }
        ensures err { OnErr result (self.new ≡ self.old) }
    {
        match find_row(self.rows.as_slice(), id.0) {
            Ok(place) => extent_at(&mut self.rows, place, &mut self.len, block, cluster),
            Err(_) => Ok(None),
        }
    }

    /// Makes the anchor of the item its number.
    pub fn set_anchor(&mut self, id: ItemId)
        ensures sets { SetsRow SetsAnchor id self.old.rows self.new.rows }
        ensures next { self.new.next ≡ self.old.next }
    {
        match find_row(self.rows.as_slice(), id.0) {
            Ok(place) => self.len = anchor_at(self.alloc, &mut self.rows, place, self.len),
            Err(_) => {}
        }
    }

    /// Sets the clock of the item's last access.
    pub fn touch(&mut self, id: ItemId, clock: u64)
        ensures sets { SetsRow (Touches clock) id self.old.rows self.new.rows }
        ensures next { self.new.next ≡ self.old.next }
    {
        match find_row(self.rows.as_slice(), id.0) {
            Ok(place) => touch_at(&mut self.rows, place, clock),
            Err(_) => {}
        }
    }
}
