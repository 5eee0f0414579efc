//! Changes applied to the rows of a volume.

ghost use Rattle.std.specs.Prelude.{◌≡◌, ◌≤◌, ◌<◌, ◌+◌, ◌∷◌, ◌++◌, [], List, MatchOption, get_or, length, max, true, false, OnOk, OnErr, IfOk};
ghost use Rattle.cf_base.specs.declared.ids.Usn.{Usn};
ghost use Rattle.cf_model.specs.Effects.{copied, copies, effect, made};
ghost use Rattle.cf_model.specs.Items.{Item, item_of, pin_of};
ghost use Rattle.cf_model.specs.Numbers.{above, no_usn};
ghost use Rattle.cf_table.specs.Applied.{IsSpellable};
ghost use Rattle.cf_table.specs.Changing.{AddsRow, AreBelow, Fits, FitsRows, IsNewItem, IsNext, item_of_change, Leaves, next_after, pin_for, stays};
ghost use Rattle.cf_table.specs.Means.{IsFresh, Means};
ghost use Rattle.cf_table.specs.Tables.{MeansAll, RisesFrom, row_of};
ghost use Rattle.cf_table.specs.declared.rows.Row.{Row};

use crate::indexed_rows::{change_indexed, push_indexed};
use crate::kinds::{item_of, stays};
use crate::listings::unlisted;
use crate::new_rows::Place;
use crate::row_lists::{find_row, pin_of};
use crate::rows::Row;
use crate::tables::Rows;
use crate::targets::raised;
use cf_base::{Blob, Change, Identity, ItemId, Kind, Name, OutOfMemory, Pin, Usn};
use std::alloc::Global;

fn pin_for(rows: &[Row], change: &Change) -> Pin
    requires { RisesFrom 0 rows.now }
    ensures { result ≡ pin_for change.now rows.now }
{
    match change {
        Change::Move { parent, .. } => pin_of(rows, *parent),
        _ => Pin::Unspecified,
    }
}

fn copied_row(alloc: Global, rows: &[Row], source: usize, place: Place) -> Result<Row, OutOfMemory>
    requires source { source < length rows.now }
    requires later { (d : Row) → above place.number (get_or rows.now source d).number ≡ true }
    requires identity { (d : Row) → 8 ≤ length (get_or rows.now source d).identity }
    requires name { length place.name ≤ 255 }
    requires spellable { (d : Row) → length (get_or rows.now source d).identity ≤ 65535 }
    ensures means { IfOk result (λ r. (i : Item) → Means (get_or rows.now source r) i → Means r (copied place.id place.parent place.name place.pin place.number i)) }
    ensures fresh { IfOk result IsFresh }
    ensures id { IfOk result (λ r. r.id ≡ place.id) }
    ensures number { IfOk result (λ r. r.number ≡ place.number) }
    ensures spellable { IfOk result IsSpellable }
{
    rows[source].copied(alloc, place)
}

impl Rows {
    /// Applies a change under its number. Without memory the rows are as before.
    pub fn apply(&mut self, change: &Change, number: Usn) -> Result<(), OutOfMemory>
        requires fits { Fits change.now self.old.rows }
        requires after { above number no_usn ≡ true }
        requires later { IsNext number self.old.rows }
        ensures ok { OnOk result ((items : List Item) → MeansAll self.old.rows items → MeansAll self.new.rows (effect items change.now number)) }
        ensures leaves { OnOk result (Leaves change.now self.old.rows self.new.rows) }
        ensures later { OnOk result ((m : Usn) → above m number ≡ true → IsNext m self.new.rows) }
        ensures below { OnOk result (AreBelow self.old → AreBelow self.new) }
        ensures next { OnOk result (self.new.next ≡ next_after change.now self.old.next) }
        ensures err { OnErr result (self.new ≡ self.old) }
    {
        if stays(change) {
            self.change(item_of(change), change, number)
        } else {
            self.come_or_go(change, number)
        }
    }

    fn come_or_go(&mut self, change: &Change, number: Usn) -> Result<(), OutOfMemory>
        requires kind { stays change.now ≡ false }
        requires fits { Fits change.now self.old.rows }
        requires after { above number no_usn ≡ true }
        requires later { IsNext number self.old.rows }
        ensures ok { OnOk result ((items : List Item) → MeansAll self.old.rows items → MeansAll self.new.rows (effect items change.now number)) }
        ensures leaves { OnOk result (Leaves change.now self.old.rows self.new.rows) }
        ensures later { OnOk result ((m : Usn) → above m number ≡ true → IsNext m self.new.rows) }
        ensures below { OnOk result (AreBelow self.old → AreBelow self.new) }
        ensures next { OnOk result (self.new.next ≡ next_after change.now self.old.next) }
        ensures err { OnErr result (self.new ≡ self.old) }
    {
        match change {
            Change::Make {
                item,
                parent,
                name,
                kind,
                size,
                identity,
            } => self.make(*item, *parent, name, *kind, *size as u32, identity, number),
            Change::Copy {
                item,
                from,
                parent,
                name,
            } => self.add_copy(*item, *from, *parent, name, number),
            Change::Remove { item } => {
                self.remove_row(*item);
                Ok(())
            }
            _ => unreachable!(),
        }
    }

    fn make(
        &mut self,
        item: ItemId,
        parent: ItemId,
        name: &Name,
        kind: Kind,
        size: u32,
        identity: &Identity,
        number: Usn,
    ) -> Result<(), OutOfMemory>
        requires new { IsNewItem item self.old.rows }
        requires name { length name.now ≤ 255 }
        requires identity { length identity.now ≤ 65535 }
        requires after { above number no_usn ≡ true }
        requires later { IsNext number self.old.rows }
        ensures ok { OnOk result ((items : List Item) → MeansAll self.old.rows items → MeansAll self.new.rows (items ++ made item parent name.now kind size identity.now (pin_of items parent) number ∷ [])) }
        ensures adds { OnOk result (AddsRow item self.old.rows self.new.rows) }
        ensures later { OnOk result ((m : Usn) → above m number ≡ true → IsNext m self.new.rows) }
        ensures below { OnOk result (AreBelow self.old → AreBelow self.new) }
        ensures next { OnOk result (self.new.next ≡ record { 0 = max self.old.next.0 (item.0 + 1) }) }
        ensures err { OnErr result (self.new ≡ self.old) }
    {
        let place = Place {
            id: item,
            parent,
            name: Blob::from_slice(self.alloc, name.as_slice())?,
            pin: pin_of(self.rows.as_slice(), parent),
            number,
        };
        let row = Row::made(self.alloc, place, kind, size, identity.copy()?);
        self.add(row)
    }

    fn add_copy(
        &mut self,
        item: ItemId,
        from: ItemId,
        parent: ItemId,
        name: &Name,
        number: Usn,
    ) -> Result<(), OutOfMemory>
        requires new { IsNewItem item self.old.rows }
        requires name { length name.now ≤ 255 }
        requires source { MatchOption (row_of self.old.rows from) ⊥ (λ r. 8 ≤ length r.identity) }
        requires after { above number no_usn ≡ true }
        requires later { IsNext number self.old.rows }
        ensures ok { OnOk result ((items : List Item) → MeansAll self.old.rows items → MeansAll self.new.rows (items ++ copies item parent name.now (pin_of items parent) number (item_of items from))) }
        ensures adds { OnOk result (AddsRow item self.old.rows self.new.rows) }
        ensures later { OnOk result ((m : Usn) → above m number ≡ true → IsNext m self.new.rows) }
        ensures below { OnOk result (AreBelow self.old → AreBelow self.new) }
        ensures next { OnOk result (self.new.next ≡ record { 0 = max self.old.next.0 (item.0 + 1) }) }
        ensures err { OnErr result (self.new ≡ self.old) }
    {
        match find_row(self.rows.as_slice(), from.0) {
            Ok(source) => {
                let place = Place {
                    id: item,
                    parent,
                    name: Blob::from_slice(self.alloc, name.as_slice())?,
                    pin: pin_of(self.rows.as_slice(), parent),
                    number,
                };
                let row = copied_row(self.alloc, self.rows.as_slice(), source, place)?;
                self.add(row)
            }
            Err(_) => unreachable!(),
        }
    }

    fn add(&mut self, row: Row) -> Result<(), OutOfMemory>
        requires new { IsNewItem row.id self.old.rows }
        requires spellable { IsSpellable row }
        ensures ok { OnOk result (self.new ≡ record { rows = self.old.rows ++ row ∷ []; next = record { 0 = max self.old.next.0 (row.id.0 + 1) } }) }
        ensures err { OnErr result (self.new ≡ self.old) }
    {
        let next = self.next.0.max(row.id.0 + 1);
        let bound = raised(self.bound, &row.identity);
        let after = unlisted(&row);
        self.len = push_indexed(self.alloc, &mut self.rows, &mut self.index, row, self.len)?;
        self.next = ItemId(next);
        self.bound = bound;
        self.unlisted += after;
        Ok(())
    }

    // A change of an item that stays.
    fn change(&mut self, id: ItemId, change: &Change, number: Usn) -> Result<(), OutOfMemory>
        requires kind { stays change.now ≡ true }
        requires id { id ≡ item_of_change change.now }
        requires fits { FitsRows change.now self.old.rows }
        requires later { IsNext number self.old.rows }
        ensures ok { OnOk result ((items : List Item) → MeansAll self.old.rows items → MeansAll self.new.rows (effect items change.now number)) }
        ensures rest { OnOk result (Leaves change.now self.old.rows self.new.rows) }
        ensures later { OnOk result ((m : Usn) → above m number ≡ true → IsNext m self.new.rows) }
        ensures below { OnOk result (AreBelow self.old → AreBelow self.new) }
        ensures next { self.new.next ≡ next_after change.now self.old.next }
        ensures err { OnErr result (self.new ≡ self.old) }
    {
        let pin = pin_for(self.rows.as_slice(), change);
        match find_row(self.rows.as_slice(), id.0) {
            Ok(place) => {
                let before = unlisted(&self.rows[place]);
                self.len = change_indexed(
                    self.alloc,
                    &mut self.rows,
                    &mut self.index,
                    place,
                    self.len,
                    change,
                    pin,
                    number,
                )?;
                self.bound = raised(self.bound, &self.rows[place].identity);
                self.unlisted = self.unlisted - before + unlisted(&self.rows[place]);
                Ok(())
            }
            Err(_) => Ok(()),
        }
    }
}
