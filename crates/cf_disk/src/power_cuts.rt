//! What a power cut leaves of the pending bytes. It looks at the pages that were written, and not at what lies between.

ghost use Rattle.std.specs.Prelude.{◌≡◌, ◌≤◌, ◌<◌, ◌+◌, ◌*◌, ◌^◌, ℕ, List, length, get_or, vec_capacity};
ghost use Rattle.cf_disk.specs.Disk.{part};
ghost use Rattle.cf_disk.specs.Fronts.{filled};
ghost use Rattle.cf_disk.specs.Images.{left_by, mixed, mixed_after, mixed_byte, stirred, stirs};
ghost use Rattle.cf_disk.specs.Keeping.{held_by, old_bytes, written_places, IsMedium, IsSound, PutsPage, PutsPages};
ghost use Rattle.cf_disk.specs.Splice.{over};

use crate::old_pages::{OldPages, PAGE, number_at};
use crate::patches::put;
use cf_base::Choice;

// The next number of the generator.
#[tactic(auto, unfolding(crate::specs::Images::stirred))]
fn stir(s: u64) -> u64
    ensures { result ≡ stirred s }
{
    s.wrapping_mul(6_364_136_223_846_793_005)
        .wrapping_add(1_442_695_040_888_963_407)
}

// One pending byte, by a number of the generator. It is looked up: a branch on what is as good as random is guessed wrong too often.
#[tactic(auto, unfolding(crate::specs::Images::mixed_byte))]
fn pick(s: u64, synced: u8, written: u8) -> u8
    ensures { result ≡ mixed_byte s synced written }
{
    let bytes = [synced, written, 0, (s / (1 << 32) % 256) as u8];
    bytes[(s / (1 << 62)) as usize]
}

// The pending bytes by the generator, from a state to the one that is given.
fn mix(bytes: &mut [u8], synced: &[u8], pending: &[bool], state: u64) -> u64
    requires synced { length synced.now ≡ length bytes.old }
    requires pending { length pending.now ≡ length bytes.old }
    ensures bytes { bytes.new ≡ mixed state bytes.old synced.now pending.now }
    ensures state { result ≡ stirs state pending.now }
{
    let mut s = state;
    for i in 0..bytes.len() {
        if pending[i] {
            s = stir(s);
            bytes[i] = pick(s, synced[i], bytes[i]);
        }
    }
    s
}

// The same of those from a place on.
fn mix_part(bytes: &mut [u8], low: usize, synced: &[u8], pending: &[bool], state: u64) -> u64
    requires synced { low + length synced.now ≤ length bytes.old }
    requires pending { length pending.now ≡ length synced.now }
    ensures bytes { bytes.new ≡ over low (mixed state (part low (length synced.now) bytes.old) synced.now pending.now) bytes.old }
    ensures state { result ≡ stirs state pending.now }
{
    mix(&mut bytes[low..low + synced.len()], synced, pending, state)
}

// The same of a page, which has none where it is not kept.
fn mix_page(bytes: &mut [u8], pages: &OldPages, page: usize, state: u64) -> u64
    requires sound { IsSound pages.now }
    requires front { page * 4096 < length bytes.old }
    ensures { (n room : ℕ) (first : List ℕ) → length first ≡ length bytes.old → IsMedium n room first pages.now → mixed_after (page * 4096 + 4096) result (filled n 0 bytes.new) (old_bytes n first pages.now) (written_places n pages.now) ≡ mixed_after (page * 4096) state (filled n 0 bytes.old) (old_bytes n first pages.now) (written_places n pages.now) }
{
    let slot = number_at(&pages.slots, page);
    if slot == 0 {
        return state;
    }
    let low = page * PAGE;
    let len = PAGE.min(bytes.len() - low);
    let start = number_at(&pages.starts, slot - 1);
    let mut pending = [false; PAGE];
    pages.written.copy_flags(slot - 1, &mut pending);
    mix_part(
        bytes,
        low,
        &pages.bytes[start..start + len],
        &pending[..len],
        state,
    )
}

// Where pages begin: the lowest of them, or an end that lies before them.
fn lowest(pages: &[usize], end: usize) -> usize
    ensures { (k : ℕ) → k < length pages.now → result ≤ get_or pages.now k 0 }
{
    let mut low = end;
    for page in pages {
        low = low.min(*page);
    }
    low
}

// Where they end: behind the highest of them.
fn end_of(pages: &[usize]) -> usize
    requires { (k : ℕ) → k < length pages.now → get_or pages.now k 0 + 1 < 2 ^ 64 }
    ensures { (k : ℕ) → k < length pages.now → get_or pages.now k 0 < result }
{
    let mut end = 0;
    for page in pages {
        end = end.max(*page + 1);
    }
    end
}

// The pending bytes by the generator, which starts with the seed: page by page from the lowest place on, as the
// generator has to meet them in order.
fn mix_pages(bytes: &mut [u8], pages: &OldPages, seed: u64)
    requires { IsSound pages.now }
    ensures { (n room : ℕ) → IsMedium n room bytes.old pages.now → filled n 0 bytes.new ≡ mixed seed (filled n 0 bytes.old) (old_bytes n bytes.old pages.now) (written_places n pages.now) }
{
    let mut state = seed;
    let end = end_of(&pages.pages).min(bytes.len().div_ceil(PAGE));
    for page in lowest(&pages.pages, end)..end {
        state = mix_page(bytes, pages, page, state);
    }
}

// The synced bytes of the page with a number in the pool.
fn drop_page(bytes: &mut [u8], pages: &OldPages, number: usize)
    requires sound { IsSound pages.now }
    requires number { number < length pages.now.pages.items }
    ensures { PutsPage pages.now number bytes.old bytes.new }
{
    let low = (number_at(&pages.pages, number) * PAGE).min(bytes.len());
    let start = number_at(&pages.starts, number);
    let end = start + PAGE.min(bytes.len() - low);
    put(bytes, low, &pages.bytes[start..end]);
}

// The synced bytes of each page, in any order.
fn drop_pages(bytes: &mut [u8], pages: &OldPages)
    requires { IsSound pages.now }
    ensures { PutsPages pages.now (length pages.now.pages.items) bytes.old bytes.new }
{
    for number in 0..pages.pages.len() {
        drop_page(bytes, pages, number);
    }
}

fn cut(bytes: &mut [u8], pages: &OldPages, choice: Choice)
    requires { IsSound pages.now }
    ensures { (n room : ℕ) → IsMedium n room bytes.old pages.now → filled n 0 bytes.new ≡ left_by choice (held_by n bytes.old pages.now) }
{
    match choice {
        Choice::Keep => {}
        Choice::Drop => drop_pages(bytes, pages),
        Choice::Mix(seed) => mix_pages(bytes, pages, seed),
    }
}

/// What a power cut leaves of the bytes, of which those that are pending lie in the pages.
pub(crate) fn cut_vec(bytes: &mut Vec<u8>, pages: &OldPages, choice: Choice)
    requires { IsSound pages.now }
    ensures size { length bytes.new.items ≡ length bytes.old.items }
    ensures items { (n room : ℕ) → IsMedium n room bytes.old.items pages.now → filled n 0 bytes.new.items ≡ left_by choice (held_by n bytes.old.items pages.now) }
    ensures capacity { vec_capacity bytes.new ≡ vec_capacity bytes.old }
{
    cut(bytes, pages, choice);
}
