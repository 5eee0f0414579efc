//! Changes of a row by what is said of its item, and of what counts as modified.

ghost use Rattle.std.specs.Prelude.{◌≡◌, ◌<◌, ◌&&◌, ◌==◌, ℕ, [], true, false, cond, Some, not, nat_lt, OnOk, OnErr, IfOk};
ghost use Rattle.cf_base.specs.declared.ids.Usn.{Usn};
ghost use Rattle.cf_model.specs.Effects.{converted, kept, marked, moved, pinned, populated, rebased, reverted, took, unmarked};
ghost use Rattle.cf_model.specs.Items.{Item};
ghost use Rattle.cf_ranges.specs.Positions.{contains};
ghost use Rattle.cf_model.specs.Numbers.{is_no_usn};
ghost use Rattle.cf_table.specs.Means.{is_rebase_point, IsLater, KeepsPlace, KeepsRest, KeepsTexts, Means, StaysBefore};

use crate::rows::{NO_USN, Row};
use cf_base::{Blob, Identity, ItemId, OutOfMemory, Pin, Span, Usn};
use cf_ranges::RangeSet;
use std::alloc::Global;

impl Row {
    /// Stores a pin state.
    pub fn set_pin(&mut self, pin: Pin)
        ensures means { (i : Item) → Means self.old i → Means self.new (pinned pin i) }
        ensures rest { KeepsRest self.old self.new }
        ensures number { self.new.number ≡ self.old.number }
        ensures texts { KeepsTexts self.old self.new }
    {
        self.pin = pin;
    }

    /// In sync: the base has taken all writes in. The base length of a file becomes its size.
    pub fn mark(&mut self, alloc: Global)
        ensures means { (i : Item) → Means self.old i → Means self.new (marked i) }
        ensures rest { KeepsRest self.old self.new }
        ensures number { self.new.number ≡ self.old.number }
        ensures texts { KeepsTexts self.old self.new }
    {
        self.in_sync = true;
        self.base = if self.dir { None } else { Some(self.size) };
        self.take_in_all(alloc);
    }

    // No write counts as modified any more.
    fn take_in_all(&mut self, alloc: Global)
        ensures { self.new ≡ record self.old { dirty = false; dirty_since = false; modified = []; modified_since = [] } }
    {
        self.dirty = false;
        self.dirty_since = false;
        self.modified = RangeSet::new(alloc);
        self.modified_since = RangeSet::new(alloc);
    }

    /// Not in sync.
    pub fn clear(&mut self)
        ensures means { (i : Item) → Means self.old i → Means self.new (unmarked i) }
        ensures rest { KeepsRest self.old self.new }
        ensures number { self.new.number ≡ self.old.number }
        ensures texts { KeepsTexts self.old self.new }
    {
        self.in_sync = false;
    }

    /// A placeholder with this identity.
    pub fn convert(&mut self, identity: Identity, number: Usn)
        requires { IsLater number self.old }
        ensures means { (i : Item) → Means self.old i → Means self.new (converted identity number i) }
        ensures rest { KeepsRest self.old self.new }
        ensures later { StaysBefore number self.old self.new }
        ensures place { KeepsPlace self.old self.new }
        ensures identity { self.new.identity ≡ identity }
    {
        self.placeholder = true;
        self.identity = identity;
        self.in_sync = false;
        self.number = number;
    }

    /// No placeholder any more: no identity, no base, and every byte of a file is modified. Without memory the row is as
    /// before.
    pub fn revert(&mut self, alloc: Global, number: Usn) -> Result<(), OutOfMemory>
        requires { IsLater number self.old }
        ensures ok { OnOk result ((i : Item) → Means self.old i → Means self.new (reverted number i)) }
        ensures err { OnErr result (self.new ≡ self.old) }
        ensures rest { KeepsRest self.old self.new }
        ensures later { StaysBefore number self.old self.new }
        ensures place { KeepsPlace self.old self.new }
        ensures identity { OnOk result (self.new.identity ≡ []) }
    {
        let identity = Identity::new(alloc, &[])?;
        let modified = self.all_of_file(alloc)?;
        let modified_since = modified.copy()?;
        self.placeholder = false;
        self.identity = identity;
        self.base = None;
        self.keep = false;
        self.in_sync = false;
        self.number = number;
        self.dirty = !self.dir;
        self.dirty_since = !self.dir;
        self.modified = modified;
        self.modified_since = modified_since;
        Ok(())
    }

    // All positions of a file, none of a directory.
    fn all_of_file(&self, alloc: Global) -> Result<RangeSet, OutOfMemory>
        ensures { IfOk result (λ r. (p : ℕ) → contains r p ≡ (not self.now.dir && nat_lt p self.now.size)) }
    {
        let len = if self.dir { 0 } else { self.size as u64 };
        RangeSet::new(alloc).with(Span { start: 0, len })
    }

    /// Another identity. The base takes the writes up to `at` in: none at 0.0, which leaves the base length, those up to
    /// the anchor, or all at the number of the row. At the last two a file has the base length `len`. Without memory the
    /// row is as before.
    pub fn rebase(
        &mut self,
        alloc: Global,
        identity: Identity,
        len: u32,
        at: Usn,
    ) -> Result<(), OutOfMemory>
        requires { is_rebase_point at self.old ≡ true }
        ensures ok { OnOk result ((i : Item) → Means self.old i → Means self.new (rebased identity len at i)) }
        ensures err { OnErr result (self.new ≡ self.old) }
        ensures rest { KeepsRest self.old self.new }
        ensures number { self.new.number ≡ self.old.number }
        ensures place { KeepsPlace self.old self.new }
        ensures identity { OnOk result (self.new.identity ≡ identity) }
    {
        if at == NO_USN {
            self.identity = identity;
            Ok(())
        } else if at == self.number {
            self.rebase_at_number(alloc, identity, len);
            Ok(())
        } else {
            self.rebase_at_anchor(identity, len)
        }
    }

    fn base_length(&self, len: u32) -> Option<u32>
        ensures { result ≡ cond self.now.dir self.now.base (Some len) }
    {
        if self.dir { self.base } else { Some(len) }
    }

    fn rebase_at_number(&mut self, alloc: Global, identity: Identity, len: u32)
        requires { is_no_usn self.old.number ≡ false }
        ensures means { (i : Item) → Means self.old i → Means self.new (rebased identity len self.old.number i) }
        ensures rest { KeepsRest self.old self.new }
        ensures number { self.new.number ≡ self.old.number }
        ensures place { KeepsPlace self.old self.new }
        ensures identity { self.new.identity ≡ identity }
    {
        self.base = self.base_length(len);
        self.identity = identity;
        self.take_in_all(alloc);
    }

    fn rebase_at_anchor(&mut self, identity: Identity, len: u32) -> Result<(), OutOfMemory>
        requires { is_no_usn self.old.anchor ≡ false }
        ensures ok { OnOk result ((i : Item) → Means self.old i → Means self.new (rebased identity len self.old.anchor i)) }
        ensures err { OnErr result (self.new ≡ self.old) }
        ensures rest { KeepsRest self.old self.new }
        ensures number { self.new.number ≡ self.old.number }
        ensures place { KeepsPlace self.old self.new }
        ensures identity { OnOk result (self.new.identity ≡ identity) }
    {
        let modified = self.modified_since.copy()?;
        self.base = self.base_length(len);
        self.identity = identity;
        self.dirty = self.dirty_since;
        self.modified = modified;
        Ok(())
    }

    /// Another version in place of the file: no byte here, nothing modified.
    pub fn take(&mut self, alloc: Global, identity: Identity, size: u32, number: Usn)
        requires { IsLater number self.old }
        ensures means { (i : Item) → Means self.old i → Means self.new (took identity size number i) }
        ensures rest { KeepsRest self.old self.new }
        ensures later { StaysBefore number self.old self.new }
        ensures place { KeepsPlace self.old self.new }
        ensures identity { self.new.identity ≡ identity }
    {
        self.identity = identity;
        self.base = Some(size);
        self.size = size;
        self.in_sync = false;
        self.number = number;
        self.here = RangeSet::new(alloc);
        self.valid = RangeSet::new(alloc);
        self.take_in_all(alloc);
    }

    /// The directory's entries have come.
    pub fn populate(&mut self)
        ensures means { (i : Item) → Means self.old i → Means self.new (populated i) }
        ensures rest { KeepsRest self.old self.new }
        ensures number { self.new.number ≡ self.old.number }
        ensures texts { KeepsTexts self.old self.new }
    {
        self.populated = true;
    }

    /// Whether the file is kept full.
    pub fn set_keep(&mut self, on: bool)
        ensures means { (i : Item) → Means self.old i → Means self.new (kept on i) }
        ensures rest { KeepsRest self.old self.new }
        ensures number { self.new.number ≡ self.old.number }
        ensures texts { KeepsTexts self.old self.new }
    {
        self.keep = on;
    }

    /// Another place. Another parent gives its pin.
    pub fn move_to(&mut self, parent: ItemId, name: Blob, pin: Pin, number: Usn)
        requires { IsLater number self.old }
        ensures means { (i : Item) → Means self.old i → Means self.new (moved parent name pin number i) }
        ensures rest { KeepsRest self.old self.new }
        ensures later { StaysBefore number self.old self.new }
        ensures place { (self.new.parent ≡ parent) × (self.new.name ≡ name) }
        ensures identity { self.new.identity ≡ self.old.identity }
    {
        self.pin = self.pin_under(parent, pin);
        self.parent = parent;
        self.name = name;
        self.in_sync = false;
        self.number = number;
    }

    fn pin_under(&self, parent: ItemId, pin: Pin) -> Pin
        ensures { result ≡ cond (self.now.parent.0 == parent.0) self.now.pin pin }
    {
        if self.parent == parent { self.pin } else { pin }
    }
}
