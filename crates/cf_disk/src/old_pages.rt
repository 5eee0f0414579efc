//! The pages of a disk in memory that were written since the last sync, as they were then.

ghost use Rattle.std.specs.Prelude.{◌≡◌, ◌⊎◌, ◌≤◌, ◌<◌, ◌+◌, ◌*◌, ◌/◌, ◌^◌, ℕ, length, get_or, set, IfOk, vec_capacity};
ghost use Rattle.std.specs.Int.{div_ceil};
ghost use Rattle.cf_disk.specs.Fronts.{filled};
ghost use Rattle.cf_disk.specs.Keeping.{AreClean, IsSound, KeepsPages, Marks, StoresPage};

use crate::patches::{append, cut_back, fill_up, put_at_vec, zeros_in};
use crate::written_bytes::WrittenBytes;
use cf_base::OutOfMemory;
use std::alloc::Global;

/// How many bytes a page has.
pub(crate) const PAGE: usize = 4096;

/// The bytes that pages had at the last sync, and which of them were written since. The bytes lie in a pool,
/// one page behind the other in the order in which they were first written. Pages that lay wholly behind the front of the
/// disk were zero, and share one page of zeros. So beside that page the pool touches no more memory than the most that was
/// ever pending at once. Room for all pages of the disk is taken at the start.
#[derive(Drop)]
pub(crate) struct OldPages {
    // For each page of the front of the disk 0, or one more than its number in the pool.
    pub(crate) slots: Vec<usize>,
    // The pages of the pool.
    pub(crate) pages: Vec<usize>,
    // For each page of the pool the place where its bytes begin.
    pub(crate) starts: Vec<usize>,
    // A page of zeros, and behind it the bytes of the pages that have some of their own.
    pub(crate) bytes: Vec<u8>,
    // For each page of the pool which of its bytes were written.
    pub(crate) written: WrittenBytes,
    // How many pages the disk has at most.
    most: usize,
}

/// The number at a place, which is 0 behind the last.
pub(crate) fn number_at(numbers: &[usize], place: usize) -> usize
    ensures { result ≡ get_or numbers.now place 0 }
{
    match numbers.get(place) {
        Some(number) => *number,
        None => 0,
    }
}

// Frees the slots of some pages.
fn free_slots(slots: &mut [usize], pages: &[usize])
    requires { (k : ℕ) → k < length pages.now → get_or pages.now k 0 < length slots.old }
    ensures freed { (k : ℕ) → k < length pages.now → get_or slots.new (get_or pages.now k 0) 0 ≡ 0 }
    ensures others { (p : ℕ) → (get_or slots.new p 0 ≡ 0) ⊎ (get_or slots.new p 0 ≡ get_or slots.old p 0) }
{
    for page in pages {
        slots[*page] = 0;
    }
}

// The same of vectors.
fn free_slots_vec(slots: &mut Vec<usize>, pages: &Vec<usize>)
    requires { (k : ℕ) → k < length pages.now.items → get_or pages.now.items k 0 < length slots.old.items }
    ensures freed { (k : ℕ) → k < length pages.now.items → get_or slots.new.items (get_or pages.now.items k 0) 0 ≡ 0 }
    ensures others { (p : ℕ) → (get_or slots.new.items p 0 ≡ 0) ⊎ (get_or slots.new.items p 0 ≡ get_or slots.old.items p 0) }
    ensures size { length slots.new.items ≡ length slots.old.items }
    ensures capacity { vec_capacity slots.new ≡ vec_capacity slots.old }
{
    free_slots(slots, pages);
}

// Puts the bytes of a page, which are zero behind the last, into a pool, and returns where they begin there. The pool begins
// with a page of zeros, which all pages share that lie wholly behind the bytes.
fn store_page(pool: &mut Vec<u8>, bytes: &[u8], page: usize) -> usize
    requires zeros { (i : ℕ) → i < 4096 → get_or pool.old.items i 0 ≡ 0 }
    requires least { 4096 ≤ length pool.old.items }
    requires small { page * 4096 + 4096 < 2 ^ 64 }
    requires fits { length pool.old.items + 4096 < 2 ^ 64 }
    requires room { length pool.old.items + 4096 ≤ vec_capacity pool.old }
    ensures stores { StoresPage bytes.now page result pool.old.items pool.new.items }
    ensures capacity { vec_capacity pool.old ≤ vec_capacity pool.new }
{
    let low = page * PAGE;
    if low >= bytes.len() {
        return 0;
    }
    let high = (low + PAGE).min(bytes.len());
    let start = pool.len();
    append(pool, &bytes[low..high]);
    fill_up(pool, start + PAGE, 0);
    start
}

impl OldPages {
    /// No page is kept. OutOfMemory also where the pages have no number of bytes that a machine knows.
    pub(crate) fn new(alloc: Global, size: usize) -> Result<OldPages, OutOfMemory>
        ensures sound { IfOk result IsSound }
        ensures clean { IfOk result AreClean }
        ensures inside { IfOk result (λ o. size < o.most * 4096) }
    {
        let most = size / PAGE + 1;
        let Some(room) = (most + 1).checked_mul(PAGE) else {
            return Err(OutOfMemory);
        };
        Ok(OldPages {
            slots: Vec::with_capacity(alloc, most)?,
            pages: Vec::with_capacity(alloc, most)?,
            starts: Vec::with_capacity(alloc, most)?,
            bytes: zeros_in(alloc, PAGE, room)?,
            written: WrittenBytes::new(alloc, most)?,
            most,
        })
    }

    // Keeps a page that has a free slot.
    fn add(&mut self, bytes: &[u8], page: usize)
        requires sound { IsSound self.old }
        requires reached { page < length self.old.slots.items }
        requires is_free { get_or self.old.slots.items page 0 ≡ 0 }
        ensures sound { IsSound self.new }
        ensures keeps { KeepsPages bytes.now page (page + 1) self.old self.new }
    {
        self.pages.push_reserved(page);
        let slot = self.pages.len();
        let start = store_page(&mut self.bytes, bytes, page);
        self.starts.push_reserved(start);
        self.written.add_clean();
        put_at_vec(&mut self.slots, page, slot);
    }

    // Has slots for so many pages.
    fn reach(&mut self, pages: usize)
        requires sound { IsSound self.old }
        requires most { pages ≤ self.old.most }
        ensures sound { IsSound self.new }
        ensures slots { self.new.slots.items ≡ filled pages 0 self.old.slots.items }
        ensures others { (self.new.pages.items ≡ self.old.pages.items) × (self.new.starts.items ≡ self.old.starts.items) × (self.new.bytes.items ≡ self.old.bytes.items) × (self.new.written ≡ self.old.written) × (self.new.most ≡ self.old.most) }
    {
        fill_up(&mut self.slots, pages, 0);
    }

    // Keeps a page, unless it is kept.
    fn keep_page(&mut self, bytes: &[u8], page: usize)
        requires sound { IsSound self.old }
        requires most { page < self.old.most }
        ensures sound { IsSound self.new }
        ensures keeps { KeepsPages bytes.now page (page + 1) self.old self.new }
    {
        self.reach(page + 1);
        if number_at(&self.slots, page) == 0 {
            self.add(bytes, page);
        }
    }

    /// Keeps each page with a place from one up to another as its bytes are now (zero behind the last), unless it is kept.
    pub(crate) fn keep(&mut self, bytes: &[u8], at: usize, end: usize)
        requires sound { IsSound self.old }
        requires inside { end < self.old.most * 4096 }
        ensures sound { IsSound self.new }
        ensures keeps { KeepsPages bytes.now (at / 4096) (div_ceil end 4096) self.old self.new }
    {
        for page in at / PAGE..end.div_ceil(PAGE) {
            self.keep_page(bytes, page);
        }
    }

    // Marks places of a page that is kept.
    fn mark_page(&mut self, page: usize, from: usize, to: usize)
        requires sound { IsSound self.old }
        requires kept { 0 < get_or self.old.slots.items page 0 }
        requires low { page * 4096 ≤ from }
        requires order { from ≤ to }
        requires high { to ≤ page * 4096 + 4096 }
        ensures sound { IsSound self.new }
        ensures marks { Marks from to self.old self.new }
    {
        let low = page * PAGE;
        let number = number_at(&self.slots, page) - 1;
        self.written.note(number, from - low, to - low);
    }

    /// Marks the places from one up to another as written. Their pages are kept.
    pub(crate) fn mark(&mut self, at: usize, end: usize)
        requires sound { IsSound self.old }
        requires order { at ≤ end }
        requires inside { end < self.old.most * 4096 }
        requires kept { (p : ℕ) → at / 4096 ≤ p → p < div_ceil end 4096 → 0 < get_or self.old.slots.items p 0 }
        ensures sound { IsSound self.new }
        ensures marks { Marks at end self.old self.new }
    {
        for page in at / PAGE..end.div_ceil(PAGE) {
            let low = page * PAGE;
            self.mark_page(page, at.max(low), end.min(low + PAGE));
        }
    }

    /// Keeps no page.
    pub(crate) fn clear(&mut self)
        requires { IsSound self.old }
        ensures sound { IsSound self.new }
        ensures clean { AreClean self.new }
        ensures most { self.new.most ≡ self.old.most }
    {
        free_slots_vec(&mut self.slots, &self.pages);
        self.pages.clear();
        self.starts.clear();
        cut_back(&mut self.bytes, PAGE);
        self.written.forget();
    }
}
