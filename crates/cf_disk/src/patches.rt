//! Parts of vectors: bytes put over others, and flags set.

ghost use Rattle.std.specs.Prelude.{◌≡◌, ◌≤◌, ◌<◌, ◌+◌, ◌^◌, ◌++◌, ℕ, length, get_or, replicate, set, IfOk, vec_capacity};
ghost use Rattle.cf_disk.specs.Disk.{part};
ghost use Rattle.cf_disk.specs.Fronts.{filled};
ghost use Rattle.cf_disk.specs.Splice.{over};

use cf_base::OutOfMemory;
use std::alloc::Global;

// So many zeros.
pub(crate) fn zeros(alloc: Global, n: usize) -> Result<Vec<u8>, OutOfMemory>
    ensures { IfOk result (λ v. v.items ≡ replicate n 0) }
{
    Ok(vec![in alloc; 0; n]?)
}

// n zeros, with room for a number of bytes.
pub(crate) fn zeros_in(alloc: Global, n: usize, room: usize) -> Result<Vec<u8>, OutOfMemory>
    requires { n ≤ room }
    ensures size { IfOk result (λ v. length v.items ≡ n) }
    ensures zeros { IfOk result (λ v. (i : ℕ) → get_or v.items i 0 ≡ 0) }
    ensures room { IfOk result (λ v. room ≤ vec_capacity v) }
{
    let mut bytes = Vec::with_capacity(alloc, room)?;
    fill_up(&mut bytes, n, 0);
    Ok(bytes)
}

// Puts bytes over others at a place.
pub(crate) fn put(bytes: &mut [u8], at: usize, src: &[u8])
    requires { at + length src.now ≤ length bytes.old }
    ensures { bytes.new ≡ over at src.now bytes.old }
{
    bytes[at..at + src.len()].copy_from_slice(src);
}

// Puts an item at a place, for the one that is there.
fn put_at<T: Copy>(items: &mut [T], at: usize, item: T)
    requires { at < length items.old }
    ensures { items.new ≡ set items.old at item }
{
    items[at] = item;
}

// Sets each flag.
pub(crate) fn fill(flags: &mut [bool], value: bool)
    ensures { flags.new ≡ replicate (length flags.old) value }
{
    for i in 0..flags.len() {
        flags[i] = value;
    }
}

// Sets so many flags from a place on.
fn mark(flags: &mut [bool], at: usize, n: usize, value: bool)
    requires { at + n ≤ length flags.old }
    ensures { flags.new ≡ over at (replicate n value) flags.old }
{
    fill(&mut flags[at..at + n], value);
}

// The same of vectors.
pub(crate) fn put_vec(bytes: &mut Vec<u8>, at: usize, src: &[u8])
    requires { at + length src.now ≤ length bytes.old.items }
    ensures items { bytes.new.items ≡ over at src.now bytes.old.items }
    ensures capacity { vec_capacity bytes.new ≡ vec_capacity bytes.old }
{
    put(bytes, at, src);
}

pub(crate) fn put_at_vec<T: Copy>(items: &mut Vec<T>, at: usize, item: T)
    requires { at < length items.old.items }
    ensures items { items.new.items ≡ set items.old.items at item }
    ensures capacity { vec_capacity items.new ≡ vec_capacity items.old }
{
    put_at(items, at, item);
}

pub(crate) fn mark_vec(flags: &mut Vec<bool>, at: usize, n: usize, value: bool)
    requires { at + n ≤ length flags.old.items }
    ensures items { flags.new.items ≡ over at (replicate n value) flags.old.items }
    ensures capacity { vec_capacity flags.new ≡ vec_capacity flags.old }
{
    mark(flags, at, n, value);
}

// More bytes behind the others, for which there is room.
pub(crate) fn append(bytes: &mut Vec<u8>, src: &[u8])
    requires { length bytes.old.items + length src.now ≤ vec_capacity bytes.old }
    ensures items { bytes.new.items ≡ bytes.old.items ++ src.now }
    ensures capacity { vec_capacity bytes.old ≤ vec_capacity bytes.new }
{
    bytes.extend_from_slice(src).unwrap();
}

// Keeps the first n bytes alone.
pub(crate) fn cut_back(bytes: &mut Vec<u8>, n: usize)
    requires { n ≤ length bytes.old.items }
    ensures size { length bytes.new.items ≡ n }
    ensures stays { (i : ℕ) → i < n → get_or bytes.new.items i 0 ≡ get_or bytes.old.items i 0 }
    ensures capacity { vec_capacity bytes.old ≤ vec_capacity bytes.new }
{
    bytes.truncate(n);
}

// Fills up to n items with a value, where they are fewer.
pub(crate) fn fill_up<T: Copy>(items: &mut Vec<T>, n: usize, value: T)
    requires { n ≤ vec_capacity items.old }
    ensures items { items.new.items ≡ filled n value items.old.items }
    ensures capacity { vec_capacity items.old ≤ vec_capacity items.new }
{
    if n > items.len() {
        items.resize(n, value).unwrap();
    }
}

// The bytes of a place that may lie behind the last, where zeros follow.
fn read_past(bytes: &[u8], at: usize, out: &mut [u8])
    requires { at + length out.old < 2 ^ 64 }
    ensures { out.new ≡ over 0 (part at (length out.old) bytes.now) (replicate (length out.old) 0) }
{
    out.fill(0);
    let start = at.min(bytes.len());
    let end = (at + out.len()).min(bytes.len());
    put(out, 0, &bytes[start..end]);
}

// The bytes of a place, where zeros follow them up to a size.
pub(crate) fn read_filled(bytes: &[u8], size: usize, at: usize, out: &mut [u8])
    requires front { length bytes.now ≤ size }
    requires range { at + length out.old ≤ size }
    ensures { out.new ≡ part at (length out.old) (filled size 0 bytes.now) }
{
    if at + out.len() <= bytes.len() {
        out.copy_from_slice(&bytes[at..at + out.len()]);
    } else {
        read_past(bytes, at, out);
    }
}

// All of them.
pub(crate) fn copy_filled(bytes: &[u8], size: usize, out: &mut Vec<u8>)
    requires front { length bytes.now ≤ size }
    requires range { length out.old.items ≡ size }
    ensures { out.new.items ≡ filled size 0 bytes.now }
{
    read_filled(bytes, size, 0, out);
}
