//! Lists with spare places in front.

ghost use Rattle.std.specs.Prelude.{◌≡◌, ◌+◌, ◌-◌, ◌≤◌, ◌<◌, ◌^◌, ◌++◌, ◌∷◌, [], OnErr, OnOk, drop, get_or, insert, length, remove, set, take};
ghost use Rattle.std.specs.Borrow.{Lends, sem};
ghost use Rattle.cf_collections.specs.contracts.spare_lists.SpareList.{the_row};

use cf_base::OutOfMemory;
use std::alloc::Global;
use std::marker::Model;
use std::ops::Index;

/// A list. An item that goes near the front leaves its place there, and one that comes there takes such a place, so that only the
/// items before it move. After an item near the front went, no more are spare than there are items. Contracts see the items. It keeps its
/// allocator.
#[derive(Drop)]
pub struct SpareList<T> {
    // After `spare` places whose items are of no list, the items.
    places: Vec<T>,
    spare: usize,
    alloc: Global,
}

impl<T> Model for SpareList<T> {
    ghost use Rattle.std.specs.Prelude.{◌≤◌, List, drop, length};

    ghost Value = { List T };

    ghost view = { λ l. drop l.spare l.places.items };

    ghost invariant = { λ l. l.spare ≤ length l.places.items };
}

impl<T> SpareList<T> {
    /// No items. It takes no memory yet.
    pub fn new(alloc: Global) -> SpareList<T>
        ensures { result ≡ [] }
    {
        SpareList::from_vec(alloc, Vec::new(alloc))
    }

    /// The list of these items.
    pub fn from_vec(alloc: Global, items: Vec<T>) -> SpareList<T>
        ensures { result ≡ items.items }
    {
        SpareList {
            places: items,
            spare: 0,
            alloc,
        }
    }

    /// What it takes memory from.
    pub fn allocator(&self) -> Global {
        self.alloc
    }

    /// The items in order.
    pub fn as_slice(&self) -> &[T]
        ensures { result.now ≡ self.now }
    {
        &self.places[self.spare..]
    }

    /// How many items there are.
    pub fn len(&self) -> usize
        ensures { result ≡ length self.now }
    {
        self.places.len() - self.spare
    }

    /// The item at a place, to be changed.
    pub fn item_mut(&mut self, place: usize) -> &mut T
        requires { place < length self.old }
        ensures* lends { sem 𝓛 (Lends (the_row T.row) T.row self.entry result (λ x. set self.old place x)) }
        ensures value { result.now ≡ get_or self.old place result.now }
        ensures few { length self.old < 2 ^ 63 }
    {
        &mut self.places[self.spare + place]
    }

    /// Puts the item in place of the one there, which it gives.
    pub fn replace(&mut self, place: usize, item: T) -> T
        requires { place < length self.old }
        ensures value { result ≡ get_or self.old place result }
        ensures items { self.new ≡ set self.old place item }
        ensures few { length self.old < 2 ^ 63 }
    {
        std::mem::replace(&mut self.places[self.spare + place], item)
    }
}

impl<T> Index<usize> for SpareList<T> {
    type Output = T;

    ghost can_index = { λ l i. i < length l };

    ghost index_gives = { λ l i x. x ≡ get_or l i x };

    fn index(&self, index: usize) -> &T {
        &self.places[self.spare + index]
    }
}

impl<T: Drop> SpareList<T> {
    /// Adds an item at the end. Without memory nothing changes.
    pub fn push(&mut self, item: T) -> Result<(), OutOfMemory>
        ensures ok { OnOk result (self.new ≡ self.old ++ item ∷ []) }
        ensures few { length self.old < 2 ^ 63 }
        ensures err { OnErr result (self.new ≡ self.old) }
    {
        self.places.push(item)?;
        Ok(())
    }

    /// Puts the item in at a place. Without memory nothing changes.
    pub fn insert(&mut self, place: usize, item: T) -> Result<(), OutOfMemory>
        requires { place ≤ length self.old }
        ensures ok { OnOk result (self.new ≡ insert self.old place item) }
        ensures few { length self.old < 2 ^ 63 }
        ensures err { OnErr result (self.new ≡ self.old) }
    {
        if self.spare > 0 && place <= self.len() - place {
            put_in_front(&mut self.places, self.spare, place, item);
            self.spare -= 1;
            return Ok(());
        }
        self.places.insert(self.spare + place, item)?;
        Ok(())
    }

    // Gives the spare places up where they are more than the items: as many items went before.
    fn close(&mut self)
        ensures { self.new ≡ self.old }
    {
        let len = self.len();
        if self.spare > len {
            self.places.rotate_left(self.spare);
            self.places.truncate(len);
            self.spare = 0;
        }
    }

    /// Takes the item at a place out. Its place near the front holds the filler then, which is of no list; without one, and near the
    /// end, the items behind it move.
    pub fn remove(&mut self, place: usize, filler: Option<T>) -> T
        requires { place < length self.old }
        ensures value { result ≡ get_or self.old place result }
        ensures items { self.new ≡ remove self.old place }
    {
        let Some(filler) = filler else {
            return self.remove_behind(place);
        };
        if place < self.len() - place {
            return self.remove_in_front(place, filler);
        }
        drop(filler);
        self.remove_behind(place)
    }

    // The items behind it move.
    fn remove_behind(&mut self, place: usize) -> T
        requires { place < length self.old }
        ensures value { result ≡ get_or self.old place result }
        ensures items { self.new ≡ remove self.old place }
    {
        self.places.remove(self.spare + place)
    }

    // The items before it move.
    fn remove_in_front(&mut self, place: usize, filler: T) -> T
        requires { place < length self.old }
        ensures value { result ≡ get_or self.old place result }
        ensures items { self.new ≡ remove self.old place }
    {
        let gone = take_in_front(&mut self.places, self.spare, place, filler);
        self.spare += 1;
        self.close();
        gone
    }
}

// The first item goes, and one more is the last.
fn shift_to_front<T: Drop>(part: &mut [T], item: T)
    requires { 1 ≤ length part.old }
    ensures { part.new ≡ drop 1 part.old ++ item ∷ [] }
{
    part.rotate_left(1);
    let last = part.len() - 1;
    part[last] = item;
}

// Puts the item in at a place. Those before it move to the front by one, where a place is spare.
fn put_in_front<T: Drop>(places: &mut [T], spare: usize, place: usize, item: T)
    requires spare { 1 ≤ spare }
    requires place { spare + place ≤ length places.old }
    ensures puts { drop (spare - 1) places.new ≡ insert (drop spare places.old) place item }
    ensures len { length places.new ≡ length places.old }
{
    shift_to_front(&mut places[spare - 1..spare + place], item);
}

// The last item goes, which is given, and one more is the first.
fn shift_back<T>(part: &mut [T], item: T) -> T
    requires { 1 ≤ length part.old }
    ensures value { result ≡ get_or part.old (length part.old - 1) result }
    ensures shifts { part.new ≡ item ∷ take (length part.old - 1) part.old }
{
    part.rotate_right(1);
    std::mem::replace(&mut part[0], item)
}

// Takes the item at a place out. Those before it move back by one, which leaves one more place spare.
fn take_in_front<T>(places: &mut [T], spare: usize, place: usize, filler: T) -> T
    requires { spare + place < length places.old }
    ensures value { result ≡ get_or (drop spare places.old) place result }
    ensures takes { drop (spare + 1) places.new ≡ remove (drop spare places.old) place }
    ensures len { length places.new ≡ length places.old }
{
    shift_back(&mut places[spare..spare + place + 1], filler)
}
