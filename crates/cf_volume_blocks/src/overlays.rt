//! Bytes laid over those of a block.

ghost use Rattle.std.specs.Prelude.{◌≡◌, ◌≤◌, ◌<◌, ◌+◌, ◌*◌, ◌^◌, ℕ, List, Option, Some, All, OnOk, true, length, map, replicate};
ghost use Rattle.cf_base.specs.declared.ids.Usn.{Usn};
ghost use Rattle.cf_base.specs.declared.items.Pin.{Pin};
ghost use Rattle.cf_volume_blocks.specs.Bytes.{Clears, HasEnd, HoldsBlock, Lays, LaysIn};
ghost use Rattle.cf_disk.specs.Splice.{over};
ghost use Rattle.cf_model.specs.Effects.{filled};
ghost use Rattle.cf_model.specs.Items.{Item, is_held};
ghost use Rattle.cf_table.specs.Applied.{item_effect};
ghost use Rattle.cf_table.specs.Means.{Means};
ghost use Rattle.cf_ranges.specs.Positions.{contains, in_span};
ghost use Rattle.cf_model.specs.Overlay.{patched, resized};

use cf_base::{Change, OutOfMemory, Span};
use cf_ranges::RangeSet;
use cf_table::Row;

// Puts bytes over others at a place.
fn put(bytes: &mut [u8], at: usize, src: &[u8])
    requires { at + length src.now ≤ length bytes.old }
    ensures { bytes.new ≡ over at src.now bytes.old }
{
    bytes[at..at + src.len()].copy_from_slice(src);
}

fn zero(bytes: &mut [u8])
    ensures { bytes.new ≡ replicate (length bytes.old) 0 }
{
    for i in 0..bytes.len() {
        bytes[i] = 0;
    }
}

// Makes so many bytes zero from a place on.
fn put_zeros(bytes: &mut [u8], at: usize, n: usize)
    requires { at + n ≤ length bytes.old }
    ensures { bytes.new ≡ over at (replicate n 0) bytes.old }
{
    zero(&mut bytes[at..at + n]);
}

// Lays those bytes of a run over the block that lie in it. The run begins at the place `at` of the file.
fn lay(block: &mut [u8], number: u64, at: u64, bytes: &[u8])
    requires size { length block.old ≡ 4096 }
    requires number { number < 2 ^ 40 }
    requires end { at + length bytes.now ≤ 2 ^ 60 }
    ensures { Lays number at bytes.now block.old block.new }
{
    let start = 4096 * number;
    let from = at.max(start);
    let to = (at + bytes.len() as u64).min(start + 4096);
    if from < to {
        put(
            block,
            (from - start) as usize,
            &bytes[(from - at) as usize..(to - at) as usize],
        );
    }
}

// Makes those places of the file zero that lie in the block.
fn clear(block: &mut [u8], number: u64, from: u64, to: u64)
    requires size { length block.old ≡ 4096 }
    requires number { number < 2 ^ 40 }
    ensures { Clears number from to block.old block.new }
{
    let start = 4096 * number;
    let low = from.max(start);
    let high = to.min(start + 4096);
    if low < high {
        put_zeros(block, (low - start) as usize, (high - low) as usize);
    }
}

// A write: zeros from the old end on, and its bytes.
fn lay_write(block: &mut [u8], number: u64, size: u64, at: u64, bytes: &[u8])
    requires size { length block.old ≡ 4096 }
    requires number { number < 2 ^ 40 }
    requires end { at + length bytes.now ≤ 2 ^ 60 }
    ensures size { length block.new ≡ length block.old }
    ensures holds { (held : List (Option ℕ)) → length held ≡ size → HoldsBlock held number block.old → HoldsBlock (patched (Some 0) at (map Some bytes.now) held) number block.new }
{
    clear(block, number, size, at);
    lay(block, number, at, bytes);
}

// A size: zeros from the old end on.
fn lay_size(block: &mut [u8], number: u64, old: u64, size: u64)
    requires size { length block.old ≡ 4096 }
    requires number { number < 2 ^ 40 }
    ensures size { length block.new ≡ length block.old }
    ensures holds { (held : List (Option ℕ)) → length held ≡ old → HoldsBlock held number block.old → HoldsBlock (resized (Some 0) size held) number block.new }
{
    clear(block, number, old, size);
}

// The bytes of a run that begins at `start`, at the places of the gaps.
fn lay_gaps(block: &mut [u8], number: u64, start: u64, bytes: &[u8], gaps: &[Span])
    requires size { length block.old ≡ 4096 }
    requires number { number < 2 ^ 40 }
    requires end { start + length bytes.now ≤ 2 ^ 60 }
    requires inside { All (λ g. (start ≤ g.start) × (g.start + g.len ≤ start + length bytes.now)) gaps.now }
    ensures { LaysIn gaps.now number start bytes.now block.old block.new }
{
    for gap in gaps {
        let from = (gap.start - start) as usize;
        lay(
            block,
            number,
            gap.start,
            &bytes[from..from + gap.len as usize],
        );
    }
}

// The part of a run that lies in a block.
fn part_in(number: u64, start: u64, len: u64) -> Span
    requires number { number < 2 ^ 40 }
    requires end { start + len ≤ 2 ^ 40 }
    ensures inside { (p : ℕ) → in_span result p ≡ true → (start ≤ p) × (p < start + len) }
    ensures covers { (p : ℕ) → start ≤ p → p < start + len → 4096 * number ≤ p → p < 4096 * number + 4096 → in_span result p ≡ true }
    ensures end { result.start + result.len ≤ 2 ^ 40 }
{
    let from = start.max(4096 * number);
    let to = (start + len).min(4096 * number + 4096);
    if from < to {
        Span {
            start: from,
            len: to - from,
        }
    } else {
        Span { start, len: 0 }
    }
}

// A fill: its bytes at the places of the block that are not here.
fn lay_filled(
    block: &mut [u8],
    number: u64,
    here: &RangeSet,
    start: u64,
    bytes: &[u8],
) -> Result<(), OutOfMemory>
    requires size { length block.old ≡ 4096 }
    requires number { number < 2 ^ 40 }
    requires end { start + length bytes.now ≤ 2 ^ 40 }
    ensures size { length block.new ≡ length block.old }
    ensures holds { (held : List (Option ℕ)) → ((p : ℕ) → contains here.now p ≡ is_held held p) → HoldsBlock held number block.old → OnOk result (HoldsBlock (filled start bytes.now held) number block.new) }
{
    let gaps = here.missing_in(part_in(number, start, bytes.len() as u64))?;
    lay_gaps(block, number, start, bytes, &gaps);
    Ok(())
}

/// Lays the bytes that a change puts into a block of its item over those that the block had. `row` is the row of the item
/// before the change, and `number` that of the block. Without memory some may be laid.
pub fn lay_change(
    block: &mut [u8],
    number: u64,
    row: &Row,
    change: &Change,
) -> Result<(), OutOfMemory>
    requires size { length block.old ≡ 4096 }
    requires number { number < 2 ^ 40 }
    requires fits { HasEnd change.now }
    ensures size { length block.new ≡ length block.old }
    ensures holds { (i : Item) (pin : Pin) (n : Usn) → Means row.now i → HoldsBlock i.held number block.old → OnOk result (HoldsBlock (item_effect change.now pin n i).held number block.new) }
{
    match change {
        Change::Write { item: _, at, bytes } => {
            lay_write(block, number, row.size as u64, *at, bytes.as_slice());
            Ok(())
        }
        Change::Size { item: _, size } => {
            lay_size(block, number, row.size as u64, *size);
            Ok(())
        }
        Change::Filled {
            item: _,
            start,
            bytes,
        } => lay_filled(block, number, &row.here, *start, bytes.as_slice()),
        _ => Ok(()),
    }
}
