//! The blocks into which a change puts bytes.

ghost use Rattle.std.specs.Prelude.{◌≡◌, ◌≤◌, ◌<◌, ◌+◌, ◌^◌, ℕ, List, Option, IfOk, filter, length, true};
ghost use Rattle.cf_volume_blocks.specs.Bytes.{HasEnd, puts_in};
ghost use Rattle.cf_model.specs.Blocks.{blocks_of, lacks_in};
ghost use Rattle.cf_model.specs.Items.{Item, is_held};
ghost use Rattle.cf_ranges.specs.Positions.{contains, in_span, touches};
ghost use Rattle.cf_table.specs.Means.{Means};

use cf_base::{Change, OutOfMemory, Span};
use cf_ranges::RangeSet;
use cf_table::Row;
use std::alloc::Global;

// The blocks that a span touches.
fn span_blocks(alloc: Global, start: u64, len: u64) -> Result<Vec<u32>, OutOfMemory>
    requires { start + len ≤ 2 ^ 40 }
    ensures { IfOk result (λ v. v.items ≡ blocks_of start len) }
{
    let mut blocks = Vec::new(alloc);
    if len == 0 {
        return Ok(blocks);
    }
    let first = start / 4096;
    let end = (start + (len - 1)) / 4096 + 1;
    for block in first..end {
        blocks.push(block as u32)?;
    }
    Ok(blocks)
}

// Those of the blocks that have a place of the set.
fn touched(alloc: Global, blocks: &[u32], places: &RangeSet) -> Result<Vec<u32>, OutOfMemory>
    ensures { IfOk result (λ v. v.items ≡ filter (touches places.now) blocks.now) }
{
    let mut found = Vec::new(alloc);
    for block in blocks {
        if places.touches(*block as u64) {
            found.push(*block)?;
        }
    }
    Ok(found)
}

// The part of a span below a size.
fn part_below(start: u64, len: u64, size: u64) -> Span
    requires { start + len ≤ 2 ^ 40 }
    ensures inside { (p : ℕ) → in_span result p ≡ true → (start ≤ p) × (p < start + len) × (p < size) }
    ensures covers { (p : ℕ) → start ≤ p → p < start + len → p < size → in_span result p ≡ true }
    ensures end { result.start + result.len ≤ 2 ^ 40 }
{
    let end = (start + len).min(size);
    Span {
        start,
        len: end.saturating_sub(start),
    }
}

// The blocks of a span that lack a byte of it below the size.
fn lacking(alloc: Global, row: &Row, start: u64, len: u64) -> Result<Vec<u32>, OutOfMemory>
    requires { start + len ≤ 2 ^ 40 }
    ensures { IfOk result (λ v. (held : List (Option ℕ)) → row.now.size ≡ length held → ((p : ℕ) → contains row.now.here p ≡ is_held held p) → v.items ≡ filter (lacks_in start (start + len) held) (blocks_of start len)) }
{
    let blocks = span_blocks(alloc, start, len)?;
    let gaps = row
        .here
        .missing_in(part_below(start, len, row.size as u64))?;
    match RangeSet::from_runs(alloc, gaps) {
        Some(gaps) => touched(alloc, &blocks, &gaps),
        None => unreachable!(),
    }
}

/// The blocks of its item into which a change puts bytes, in order. `row` is the row of the item before the change. A copy
/// puts bytes into a new item alone.
pub fn blocks_put(alloc: Global, row: &Row, change: &Change) -> Result<Vec<u32>, OutOfMemory>
    requires { HasEnd change.now }
    ensures { IfOk result (λ v. (i : Item) → Means row.now i → v.items ≡ puts_in change.now i.held) }
{
    let size = row.size as u64;
    match change {
        Change::Write { item: _, at, bytes } => {
            let start = size.min(*at);
            span_blocks(alloc, start, *at + bytes.as_slice().len() as u64 - start)
        }
        Change::Size {
            item: _,
            size: wanted,
        } => span_blocks(alloc, size, wanted.saturating_sub(size)),
        Change::Filled {
            item: _,
            start,
            bytes,
        } => lacking(alloc, row, *start, bytes.as_slice().len() as u64),
        _ => Ok(Vec::new(alloc)),
    }
}
