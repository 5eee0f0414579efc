//! Lists in chunks.

ghost use Rattle.std.specs.Prelude.{◌≡◌, ◌≤◌, ◌<◌, ◌+◌, ◌++◌, ◌∷◌, [], List, length, IfOk, IfSome, OnErr, OnOk, get_or};
ghost use Rattle.cf_collections.specs.Split.{AreFilled, behind, flat, front, IsSplit, last_passes, rest};

use crate::chunks::Chunk;
use crate::items::Items;
use crate::orders::{Order, OwnOrder, PlaceOf};
use crate::probes::Probe;
use crate::searches::{count_before, count_chunks_before};
use cf_base::OutOfMemory;
use std::alloc::Global;
use std::marker::Model;

/// A list that is kept as chunks of at most 256 items, so that a change in the middle moves the items of one chunk alone.
/// Contracts see the items in order. It keeps its allocator.
#[derive(Drop)]
pub struct ChunkedList<T> {
    chunks: Vec<Chunk<T>>,
    alloc: Global,
}

impl<T> Model for ChunkedList<T> {
    ghost use Rattle.std.specs.Prelude.{List};
    ghost use Rattle.cf_collections.specs.Split.{AreFilled, flat};

    ghost Value = { List T };

    ghost view = { λ l. flat l.chunks.items };

    ghost invariant = { λ l. AreFilled l.chunks.items };
}

impl<T> ChunkedList<T> {
    /// The empty list. Takes no memory yet.
    pub fn new(alloc: Global) -> ChunkedList<T>
        ensures { result ≡ [] }
    {
        ChunkedList {
            chunks: Vec::new(alloc),
            alloc,
        }
    }

    /// The items in order. Takes no memory.
    pub fn iter(&self) -> Items<'_, T>
        ensures { result ≡ self.now }
    {
        Items::of(&[], &self.chunks)
    }

    /// The items from the place on. Looks by halves, and takes no memory.
    pub fn from<P: Probe<T>>(&self, probe: &P) -> Items<'_, T>
        requires { IsSplit (P.is_behind probe.now) self.now }
        ensures { result ≡ behind (P.is_behind probe.now) self.now }
    {
        items_from(&self.chunks, probe)
    }

    /// Puts the item in place of the first one that does not come before it in the order, and gives that one. There is one. Looks by
    /// halves, and takes no memory.
    pub fn replace_in<O: Order<T>>(&mut self, order: &O, item: T) -> T
        requires split { IsSplit (O.is_behind order.now item) self.old }
        requires there { 0 < length (behind (O.is_behind order.now item) self.old) }
        ensures value { behind (O.is_behind order.now item) self.old ≡ result ∷ rest (behind (O.is_behind order.now item) self.old) }
        ensures items { self.new ≡ front (O.is_behind order.now item) self.old ++ item ∷ rest (behind (O.is_behind order.now item) self.old) }
    {
        replace_item(&mut self.chunks, order, item)
    }
}

impl<T: Drop> ChunkedList<T> {
    /// The list of these items. Up to 255 of them stay where they are.
    pub fn from_vec(alloc: Global, items: Vec<T>) -> Result<ChunkedList<T>, OutOfMemory>
        ensures { IfOk result (λ l. l ≡ items.items) }
    {
        let mut chunks = Vec::new(alloc);
        push_chunk(&mut chunks, items)?;
        halve_full(&mut chunks)?;
        Ok(ChunkedList { chunks, alloc })
    }

    /// Takes the first item out that does not come before the place, if there is one. Takes no memory.
    pub fn remove<P: Probe<T>>(&mut self, probe: &P)
        requires { IsSplit (P.is_behind probe.now) self.old }
        ensures { self.new ≡ front (P.is_behind probe.now) self.old ++ rest (behind (P.is_behind probe.now) self.old) }
    {
        remove_item(&mut self.chunks, probe);
    }

    /// Puts an item in at its place in the order. Looks by halves. Without memory nothing changes.
    pub fn insert_in<O: Order<T>>(&mut self, order: &O, item: T) -> Result<(), OutOfMemory>
        requires { IsSplit (O.is_behind order.now item) self.old }
        ensures ok { OnOk result (self.new ≡ front (O.is_behind order.now item) self.old ++ item ∷ behind (O.is_behind order.now item) self.old) }
        ensures err { OnErr result (self.new ≡ self.old) }
    {
        let place = make_room(&mut self.chunks, &PlaceOf { order, item: &item })?;
        insert_item(self.alloc, &mut self.chunks, place, order, item)
    }
}

impl<T: Drop + Probe<T>> ChunkedList<T> {
    /// Puts an item in at its place. Looks by halves. Without memory nothing changes.
    pub fn insert(&mut self, item: T) -> Result<(), OutOfMemory>
        requires { IsSplit (T.is_behind item) self.old }
        ensures ok { OnOk result (self.new ≡ front (T.is_behind item) self.old ++ item ∷ behind (T.is_behind item) self.old) }
        ensures err { OnErr result (self.new ≡ self.old) }
    {
        self.insert_in(&OwnOrder, item)
    }
}

fn items_from<'a, T, P: Probe<T>>(chunks: &'a [Chunk<T>], probe: &P) -> Items<'a, T>
    requires filled { AreFilled chunks.now }
    requires split { IsSplit (P.is_behind probe.now) (flat chunks.now) }
    ensures { result ≡ behind (P.is_behind probe.now) (flat chunks.now) }
{
    let place = count_chunks_before(chunks, probe);
    if place == chunks.len() {
        return Items::of(&[], &[]);
    }
    let part = chunks[place].as_slice();
    Items::of(&part[count_before(part, probe)..], &chunks[place + 1..])
}

// Halves a chunk.
fn halve_chunk<T: Drop>(chunks: &mut Vec<Chunk<T>>, place: usize) -> Result<(), OutOfMemory>
    requires filled { AreFilled chunks.old.items }
    requires place { place < length chunks.old.items }
    requires many { (d : List T) → 2 ≤ length (get_or chunks.old.items place d) }
    ensures same { flat chunks.new.items ≡ flat chunks.old.items }
    ensures filled { AreFilled chunks.new.items }
    ensures more { OnOk result (length chunks.new.items ≡ length chunks.old.items + 1) }
{
    chunks.reserve(1)?;
    let half = chunks[place].halve()?;
    chunks.insert(place + 1, half).unwrap();
    Ok(())
}

// Adds the items at the end, as one chunk if there are any.
fn push_chunk<T: Drop>(chunks: &mut Vec<Chunk<T>>, items: Vec<T>) -> Result<(), OutOfMemory>
    requires { AreFilled chunks.old.items }
    ensures ok { OnOk result (flat chunks.new.items ≡ flat chunks.old.items ++ items.items) }
    ensures filled { AreFilled chunks.new.items }
{
    if items.is_empty() {
        return Ok(());
    }
    chunks.push(Chunk::from_vec(items))?;
    Ok(())
}

// The first chunk that is full.
fn full_chunk<T: Drop>(chunks: &[Chunk<T>]) -> Option<usize>
    ensures within { IfSome result (λ place. place < length chunks.now) }
    ensures many { IfSome result (λ place. (d : List T) → 2 ≤ length (get_or chunks.now place d)) }
{
    for (place, chunk) in chunks.iter().enumerate() {
        if chunk.is_full() {
            return Some(place);
        }
    }
    None
}

// Halves the chunks until none is full.
fn halve_full<T: Drop>(chunks: &mut Vec<Chunk<T>>) -> Result<(), OutOfMemory>
    requires { AreFilled chunks.old.items }
    ensures same { flat chunks.new.items ≡ flat chunks.old.items }
    ensures filled { AreFilled chunks.new.items }
{
    while let Some(place) = full_chunk(chunks) {
        halve_chunk(chunks, place)?;
    }
    Ok(())
}

// Which chunk the place is in. It is halved first, if it is full.
fn make_room<T: Drop, P: Probe<T>>(
    chunks: &mut Vec<Chunk<T>>,
    probe: &P,
) -> Result<usize, OutOfMemory>
    requires filled { AreFilled chunks.old.items }
    requires split { IsSplit (P.is_behind probe.now) (flat chunks.old.items) }
    ensures same { flat chunks.new.items ≡ flat chunks.old.items }
    ensures filled { AreFilled chunks.new.items }
    ensures place { IfOk result (λ place. place ≡ length (front (last_passes (P.is_behind probe.now)) chunks.new.items)) }
    ensures within { IfOk result (λ place. place ≤ length chunks.new.items) }
{
    let place = count_chunks_before(chunks, probe);
    if place < chunks.len() && chunks[place].is_full() {
        halve_chunk(chunks, place)?;
        return Ok(count_chunks_before(chunks, probe));
    }
    Ok(place)
}

// Adds an item at the end: to the last chunk, or where that is full as a chunk of its own.
fn push_item<T: Drop>(alloc: Global, chunks: &mut Vec<Chunk<T>>, item: T) -> Result<(), OutOfMemory>
    requires { AreFilled chunks.old.items }
    ensures ok { OnOk result (flat chunks.new.items ≡ flat chunks.old.items ++ item ∷ []) }
    ensures filled { AreFilled chunks.new.items }
    ensures err { OnErr result (flat chunks.new.items ≡ flat chunks.old.items) }
{
    let len = chunks.len();
    if len > 0 && !chunks[len - 1].is_full() {
        return chunks[len - 1].push(item);
    }
    chunks.push(Chunk::of(alloc, item)?)?;
    Ok(())
}

// Puts an item into the chunk that its place is in.
fn insert_item<T: Drop, O: Order<T>>(
    alloc: Global,
    chunks: &mut Vec<Chunk<T>>,
    place: usize,
    order: &O,
    item: T,
) -> Result<(), OutOfMemory>
    requires filled { AreFilled chunks.old.items }
    requires split { IsSplit (O.is_behind order.now item) (flat chunks.old.items) }
    requires place { place ≡ length (front (last_passes (O.is_behind order.now item)) chunks.old.items) }
    requires within { place ≤ length chunks.old.items }
    ensures ok { OnOk result (flat chunks.new.items ≡ front (O.is_behind order.now item) (flat chunks.old.items) ++ item ∷ behind (O.is_behind order.now item) (flat chunks.old.items)) }
    ensures filled { AreFilled chunks.new.items }
    ensures err { OnErr result (flat chunks.new.items ≡ flat chunks.old.items) }
{
    if place == chunks.len() {
        return push_item(alloc, chunks, item);
    }
    chunks[place].insert(order, item)
}

fn replace_item<T, O: Order<T>>(chunks: &mut Vec<Chunk<T>>, order: &O, item: T) -> T
    requires filled { AreFilled chunks.old.items }
    requires split { IsSplit (O.is_behind order.now item) (flat chunks.old.items) }
    requires there { 0 < length (behind (O.is_behind order.now item) (flat chunks.old.items)) }
    ensures value { behind (O.is_behind order.now item) (flat chunks.old.items) ≡ result ∷ rest (behind (O.is_behind order.now item) (flat chunks.old.items)) }
    ensures items { flat chunks.new.items ≡ front (O.is_behind order.now item) (flat chunks.old.items) ++ item ∷ rest (behind (O.is_behind order.now item) (flat chunks.old.items)) }
    ensures filled { AreFilled chunks.new.items }
{
    let place = count_chunks_before(chunks, &PlaceOf { order, item: &item });
    chunks[place].replace(order, item)
}

fn remove_item<T: Drop, P: Probe<T>>(chunks: &mut Vec<Chunk<T>>, probe: &P)
    requires filled { AreFilled chunks.old.items }
    requires split { IsSplit (P.is_behind probe.now) (flat chunks.old.items) }
    ensures removes { flat chunks.new.items ≡ front (P.is_behind probe.now) (flat chunks.old.items) ++ rest (behind (P.is_behind probe.now) (flat chunks.old.items)) }
    ensures filled { AreFilled chunks.new.items }
{
    let place = count_chunks_before(chunks, probe);
    if place == chunks.len() {
        return;
    }
    if chunks[place].as_slice().len() == 1 {
        let _ = chunks.remove(place);
        return;
    }
    let _ = chunks[place].remove(probe);
}
