//! An index of the local items by the item of the remote that each is.

ghost use Rattle.std.specs.Prelude.{◌≡◌, ℕ, None, OnOk, Some};
ghost use Rattle.cf_base.specs.declared.ids.ItemId.{ItemId};
ghost use Rattle.cf_engine_feed.specs.Indexes.{Changes, IsIndex, Puts, entry_of, is_of, with_item};

use cf_base::{ItemId, OutOfMemory};
use std::alloc::Global;
use std::collections::BTreeMap;

/// The entry of an item of the remote that several local items may be: the rows are walked for it.
pub(crate) const SEVERAL: u64 = 0;

/// Of each item of the remote the local item that it is, by their numbers. Where several may be, it has `SEVERAL`.
#[derive(Drop)]
pub(crate) struct Targets {
    ids: BTreeMap<u64, u64>,
}

// Whether the entry is that of the item alone.
fn is_of(entry: Option<u64>, item: ItemId) -> bool
    ensures { result ≡ is_of entry item.0 }
{
    match entry {
        Some(id) => id == item.0 && id != SEVERAL,
        None => false,
    }
}

// The entry with an item more.
fn with_item(entry: Option<u64>, item: ItemId) -> u64
    ensures { result ≡ with_item entry item.0 }
{
    match entry {
        Some(_) => SEVERAL,
        None => item.0,
    }
}

impl Targets {
    pub(crate) fn new(alloc: Global) -> Targets
        ensures { (rid : ℕ) → entry_of result rid ≡ None }
    {
        Targets {
            ids: BTreeMap::new(alloc),
        }
    }

    /// What it has of an item of the remote.
    pub(crate) fn get(&self, rid: u64) -> Option<u64>
        ensures { result ≡ entry_of self.now rid }
    {
        match self.ids.get(&rid) {
            Some(id) => Some(*id),
            None => None,
        }
    }

    fn put(&mut self, rid: u64, id: u64) -> Result<(), OutOfMemory>
        ensures { OnOk result (Puts rid (Some id) self.old self.new) }
    {
        self.ids.insert(rid, id)?;
        Ok(())
    }

    fn remove(&mut self, rid: u64)
        ensures { Puts rid None self.old self.new }
    {
        self.ids.remove(&rid);
    }

    // The item, which was this one of the remote, is none any more.
    fn leave(&mut self, item: ItemId, rid: u64)
        ensures { (f g : ItemId → ℕ) → Changes item rid 0 f g → IsIndex self.old f → IsIndex self.new g }
    {
        if is_of(self.get(rid), item) {
            self.remove(rid);
        }
    }

    /// The item, which was none of the remote, is this one; 0 stands for none.
    pub(crate) fn enter(&mut self, item: ItemId, rid: u64) -> Result<(), OutOfMemory>
        ensures { OnOk result ((f g : ItemId → ℕ) → Changes item 0 rid f g → IsIndex self.old f → IsIndex self.new g) }
    {
        if rid == 0 {
            return Ok(());
        }
        let id = with_item(self.get(rid), item);
        self.put(rid, id)
    }

    /// The item, which was one of the remote before, is another one.
    pub(crate) fn change(
        &mut self,
        item: ItemId,
        before: u64,
        after: u64,
    ) -> Result<(), OutOfMemory>
        ensures { OnOk result ((f g : ItemId → ℕ) → Changes item before after f g → IsIndex self.old f → IsIndex self.new g) }
    {
        self.leave(item, before);
        self.enter(item, after)?;
        Ok(())
    }
}
