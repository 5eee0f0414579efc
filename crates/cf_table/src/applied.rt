//! A change applied to the row of its item.

ghost use Rattle.std.specs.Prelude.{◌≡◌, false, true, OnOk, OnErr};
ghost use Rattle.cf_model.specs.Effects.{converted, moved, rebased, took};
ghost use Rattle.cf_model.specs.Items.{Item};
ghost use Rattle.cf_table.specs.Applied.{FitsRow, IsSpellable, item_effect, moves};
ghost use Rattle.cf_table.specs.Means.{is_rebase_point, IsLater, KeepsPlace, KeepsRest, Means, StaysBefore};

use crate::rows::Row;
use cf_base::{Blob, Change, Identity, ItemId, Name, OutOfMemory, Pin, Span, Usn};
use std::alloc::Global;

impl Row {
    /// What a change of an item that stays makes of its row. `pin` is the pin of the parent that a Move names. The item
    /// that the change names is not looked at. Without memory the row is as before.
    pub fn apply(
        &mut self,
        alloc: Global,
        change: &Change,
        pin: Pin,
        number: Usn,
    ) -> Result<(), OutOfMemory>
        requires fits { FitsRow change.now self.old }
        requires later { IsLater number self.old }
        ensures ok { OnOk result ((i : Item) → Means self.old i → Means self.new (item_effect change.now pin number i)) }
        ensures err { OnErr result (self.new ≡ self.old) }
        ensures rest { KeepsRest self.old self.new }
        ensures later { StaysBefore number self.old self.new }
        ensures place { moves change.now ≡ false → KeepsPlace self.old self.new }
        ensures spellable { IsSpellable self.old → IsSpellable self.new }
    {
        match change {
            Change::Write { item: _, at, bytes } => {
                self.write(*at, bytes.as_slice().len() as u64, number)
            }
            Change::Size { item: _, size } => self.set_size(*size as u32, number),
            Change::Filled {
                item: _,
                start,
                bytes,
            } => self.fill(Span {
                start: *start,
                len: bytes.as_slice().len() as u64,
            }),
            Change::Validated {
                item: _,
                start,
                len,
            } => self.validate(
                alloc,
                Span {
                    start: *start,
                    len: *len,
                },
            ),
            Change::Emptied {
                item: _,
                start,
                len,
            } => self.empty(Span {
                start: *start,
                len: *len,
            }),
            Change::SetPin { item: _, pin } => {
                self.set_pin(*pin);
                Ok(())
            }
            Change::Mark { item: _, number: _ } => {
                self.mark(alloc);
                Ok(())
            }
            Change::Clear { item: _ } => {
                self.clear();
                Ok(())
            }
            Change::Convert { item: _, identity } => self.convert_to(identity, number),
            Change::Revert { item: _ } => self.revert(alloc, number),
            Change::Rebase {
                item: _,
                identity,
                len,
                at,
            } => self.rebase_to(alloc, identity, *len as u32, *at),
            Change::Take {
                item: _,
                identity,
                size,
            } => self.take_to(alloc, identity, *size as u32, number),
            Change::Move {
                item: _,
                parent,
                name,
            } => self.move_with(alloc, *parent, name, pin, number),
            Change::Populated { item: _ } => {
                self.populate();
                Ok(())
            }
            Change::Keep { item: _, on } => {
                self.set_keep(*on);
                Ok(())
            }
            _ => unreachable!(),
        }
    }

    fn convert_to(&mut self, identity: &Identity, number: Usn) -> Result<(), OutOfMemory>
        requires { IsLater number self.old }
        ensures ok { OnOk result ((i : Item) → Means self.old i → Means self.new (converted identity.now number i)) }
        ensures err { OnErr result (self.new ≡ self.old) }
        ensures rest { KeepsRest self.old self.new }
        ensures later { StaysBefore number self.old self.new }
        ensures place { KeepsPlace self.old self.new }
        ensures identity { OnOk result (self.new.identity ≡ identity.now) }
    {
        let identity = identity.copy()?;
        self.convert(identity, number);
        Ok(())
    }

    fn rebase_to(
        &mut self,
        alloc: Global,
        identity: &Identity,
        len: u32,
        at: Usn,
    ) -> Result<(), OutOfMemory>
        requires { is_rebase_point at self.old ≡ true }
        ensures ok { OnOk result ((i : Item) → Means self.old i → Means self.new (rebased identity.now len at i)) }
        ensures err { OnErr result (self.new ≡ self.old) }
        ensures rest { KeepsRest self.old self.new }
        ensures number { self.new.number ≡ self.old.number }
        ensures place { KeepsPlace self.old self.new }
        ensures identity { OnOk result (self.new.identity ≡ identity.now) }
    {
        let identity = identity.copy()?;
        self.rebase(alloc, identity, len, at)
    }

    fn take_to(
        &mut self,
        alloc: Global,
        identity: &Identity,
        size: u32,
        number: Usn,
    ) -> Result<(), OutOfMemory>
        requires { IsLater number self.old }
        ensures ok { OnOk result ((i : Item) → Means self.old i → Means self.new (took identity.now size number i)) }
        ensures err { OnErr result (self.new ≡ self.old) }
        ensures rest { KeepsRest self.old self.new }
        ensures later { StaysBefore number self.old self.new }
        ensures place { KeepsPlace self.old self.new }
        ensures identity { OnOk result (self.new.identity ≡ identity.now) }
    {
        let identity = identity.copy()?;
        self.take(alloc, identity, size, number);
        Ok(())
    }

    fn move_with(
        &mut self,
        alloc: Global,
        parent: ItemId,
        name: &Name,
        pin: Pin,
        number: Usn,
    ) -> Result<(), OutOfMemory>
        requires { IsLater number self.old }
        ensures ok { OnOk result ((i : Item) → Means self.old i → Means self.new (moved parent name.now pin number i)) }
        ensures err { OnErr result (self.new ≡ self.old) }
        ensures rest { KeepsRest self.old self.new }
        ensures later { StaysBefore number self.old self.new }
        ensures name { OnOk result (self.new.name ≡ name.now) }
        ensures identity { self.new.identity ≡ self.old.identity }
    {
        let name = Blob::from_slice(alloc, name.as_slice())?;
        self.move_to(parent, name, pin, number);
        Ok(())
    }
}
