//! Parts of a list.

ghost use Rattle.std.specs.Prelude.{◌≡◌, ◌≤◌, ◌<◌, ◌++◌, ◌∷◌, [], length, OnErr, OnOk, IfOk, false, true};
ghost use Rattle.cf_collections.specs.Split.{behind, front, IsSplit, last_passes, rest};

use crate::orders::{Order, PlaceOf};
use crate::probes::Probe;
use crate::searches::count_before;
use cf_base::OutOfMemory;
use std::alloc::Global;
use std::marker::Model;

/// The most items of a chunk.
pub(crate) const CHUNK_ITEMS: usize = 256;

/// Some items of a list that stand side by side.
#[derive(Drop)]
pub(crate) struct Chunk<T> {
    items: Vec<T>,
}

impl<T> Model for Chunk<T> {
    ghost use Rattle.std.specs.Prelude.{List};

    ghost Value = { List T };

    ghost view = { λ c. c.items.items };
}

impl<T> Chunk<T> {
    /// These items, as many as there are.
    pub(crate) fn from_vec(items: Vec<T>) -> Chunk<T>
        ensures { result ≡ items.items }
    {
        Chunk { items }
    }

    /// The items in order.
    pub(crate) fn as_slice(&self) -> &[T]
        ensures { result.now ≡ self.now }
    {
        self.items.as_slice()
    }

    /// Whether the last item comes before the place.
    pub(crate) fn ends_before<P: Probe<T>>(&self, probe: &P) -> bool
        ensures { result ≡ last_passes (P.is_behind probe.now) self.now }
    {
        let len = self.items.len();
        if len == 0 {
            return true;
        }
        probe.is_behind(&self.items[len - 1])
    }

    /// Puts the item in place of the first one that does not come before it in the order, and gives that one.
    pub(crate) fn replace<O: Order<T>>(&mut self, order: &O, item: T) -> T
        requires split { IsSplit (O.is_behind order.now item) self.old }
        requires there { last_passes (O.is_behind order.now item) self.old ≡ false }
        ensures value { behind (O.is_behind order.now item) self.old ≡ result ∷ rest (behind (O.is_behind order.now item) self.old) }
        ensures items { self.new ≡ front (O.is_behind order.now item) self.old ++ item ∷ rest (behind (O.is_behind order.now item) self.old) }
    {
        let place = count_before(&self.items, &PlaceOf { order, item: &item });
        std::mem::replace(&mut self.items[place], item)
    }
}

impl<T: Drop> Chunk<T> {
    /// A chunk of one item.
    pub(crate) fn of(alloc: Global, item: T) -> Result<Chunk<T>, OutOfMemory>
        ensures { IfOk result (λ c. c ≡ item ∷ []) }
    {
        let mut items = Vec::new(alloc);
        items.push(item)?;
        Ok(Chunk { items })
    }

    /// Whether it takes no more items.
    pub(crate) fn is_full(&self) -> bool
        ensures { result ≡ true → 2 ≤ length self.now }
    {
        self.items.len() >= CHUNK_ITEMS
    }

    /// Adds an item at the end. Without memory nothing changes.
    pub(crate) fn push(&mut self, item: T) -> Result<(), OutOfMemory>
        ensures ok { OnOk result (self.new ≡ self.old ++ item ∷ []) }
        ensures err { OnErr result (self.new ≡ self.old) }
    {
        self.items.push(item)?;
        Ok(())
    }

    /// Takes the first item out that does not come before the place.
    pub(crate) fn remove<P: Probe<T>>(&mut self, probe: &P) -> T
        requires split { IsSplit (P.is_behind probe.now) self.old }
        requires there { last_passes (P.is_behind probe.now) self.old ≡ false }
        ensures value { behind (P.is_behind probe.now) self.old ≡ result ∷ rest (behind (P.is_behind probe.now) self.old) }
        ensures items { self.new ≡ front (P.is_behind probe.now) self.old ++ rest (behind (P.is_behind probe.now) self.old) }
    {
        let place = count_before(&self.items, probe);
        self.items.remove(place)
    }

    /// Puts an item in at its place in the order. Without memory nothing changes.
    pub(crate) fn insert<O: Order<T>>(&mut self, order: &O, item: T) -> Result<(), OutOfMemory>
        requires { IsSplit (O.is_behind order.now item) self.old }
        ensures ok { OnOk result (self.new ≡ front (O.is_behind order.now item) self.old ++ item ∷ behind (O.is_behind order.now item) self.old) }
        ensures err { OnErr result (self.new ≡ self.old) }
    {
        let place = count_before(&self.items, &PlaceOf { order, item: &item });
        self.items.insert(place, item)?;
        Ok(())
    }

    /// Takes the second half out. Without memory nothing changes.
    pub(crate) fn halve(&mut self) -> Result<Chunk<T>, OutOfMemory>
        requires { 2 ≤ length self.old }
        ensures halves { IfOk result (λ c. self.old ≡ self.new ++ c) }
        ensures filled { IfOk result (λ c. 0 < length c) }
        ensures first { 0 < length self.new }
        ensures err { OnErr result (self.new ≡ self.old) }
    {
        let half = self.items.len() / 2;
        let items = self.items.split_off(half)?;
        Ok(Chunk { items })
    }
}
