//! What waits miss.
ghost use Rattle.std.specs.Prelude.{◌≡◌, false, IfOk, IfSome, ◌&&◌, ℕ, ◌+◌, ◌*◌, ◌^◌, ◌≤◌, ◌<◌, filter, length, map};
ghost use Rattle.std.specs.List.{AllByRecursion};
ghost use Rattle.cf_ask_rule.specs.Fronts.{NeedsFrom, is_data_wait};
ghost use Rattle.cf_ask_rule.specs.Near.{is_on};
ghost use Rattle.cf_ask_rule.specs.Nexts.{IsNext, cut, is_needed, lacks_at};
ghost use Rattle.cf_model.specs.Asks.{misses_in};
ghost use Rattle.cf_model.specs.Missing.{Wait, is_met, misses, misses_between, needed};
ghost use Rattle.cf_model.specs.Words.{counting};
ghost use Rattle.cf_ranges.specs.Positions.{contains, IsRuns};

use crate::searches::{Hint, next_in};
use crate::sights::Sight;
use crate::unions::union_of;
use crate::waits::LiveWait;
use cf_base::{ItemId, OutOfMemory, Span, WaitKind};
use std::alloc::Global;

const BLOCK: u64 = 4096;

/// The positions that a wait needs.
pub fn needed(v: &Sight, w: &LiveWait) -> Span
    ensures { result ≡ needed v.now w.now }
{
    let all = Span {
        start: 0,
        len: v.size(),
    };
    let none = Span { start: 0, len: 0 };
    match w.kind() {
        WaitKind::Read => { if v.is_whole() { all } else { w.span() } }
        WaitKind::Hydrate => all,
        WaitKind::Background => all,
        WaitKind::List => none,
        WaitKind::Dehydrate => none,
    }
}

/// A block before which the waits need nothing, where there is one wait alone, and it is for bytes.
pub fn first_block(v: &Sight, waits: &[LiveWait]) -> Option<u64>
    ensures { IfSome result (λ n. AllByRecursion (NeedsFrom v.now n) waits.now) }
{
    match waits {
        [w] => block_of(v, w),
        _ => None,
    }
}

fn block_of(v: &Sight, w: &LiveWait) -> Option<u64>
    ensures { IfSome result (λ n. NeedsFrom v.now n w.now) }
{
    if !is_data_wait(w.kind()) {
        return None;
    }
    let span = needed(v, w);
    Some(span.start / BLOCK)
}

fn is_data_wait(kind: WaitKind) -> bool
    ensures { result ≡ is_data_wait kind }
{
    match kind {
        WaitKind::Read => true,
        WaitKind::Hydrate => true,
        WaitKind::Background => true,
        WaitKind::List => false,
        WaitKind::Dehydrate => false,
    }
}

/// The runs of the positions below the size that the waits on the item need.
pub fn needs_of(
    alloc: Global,
    item: ItemId,
    v: &Sight,
    waits: &[LiveWait],
) -> Result<Vec<Span>, OutOfMemory>
    ensures needed { IfOk result (λ r. (p : ℕ) → p < length v.now.lacks → contains r.items p ≡ is_needed item v.now waits.now p) }
    ensures maximal { IfOk result (λ r. IsRuns r.items) }
    ensures small { length v.now.lacks ≤ 2 ^ 24 }
{
    let spans = spans_needed(alloc, item, v, waits)?;
    let runs = union_of(alloc, spans)?;
    Ok(runs)
}

fn spans_needed(
    alloc: Global,
    item: ItemId,
    v: &Sight,
    waits: &[LiveWait],
) -> Result<Vec<Span>, OutOfMemory>
    ensures spans { IfOk result (λ r. r.items ≡ map (λ w. cut (length v.now.lacks) (needed v.now w)) (filter (is_on item) waits.now)) }
    ensures small { length v.now.lacks ≤ 2 ^ 24 }
{
    let _size = v.size();
    Ok(
        waits
            .iter()
            .filter(|w| w.item().0 == item.0)
            .map(|w| needed_below(v, w))
            .collect(alloc)?,
    )
}

// What of the needed span lies below the size.
fn needed_below(v: &Sight, w: &LiveWait) -> Span
    ensures { result ≡ cut (length v.now.lacks) (needed v.now w.now) }
{
    let span = needed(v, w);
    let start = span.start.min(v.size());
    Span {
        start,
        len: span.len.min(v.size() - start),
    }
}

/// The first position from a number on that is missing and needed. It is sought from a hint on.
pub fn next_missed(v: &Sight, needs: &[Span], near: Hint, from: u64) -> Option<u64>
    requires runs { IsRuns needs.now }
    requires small { from ≤ 2 ^ 52 }
    ensures next { IsNext (λ p. lacks_at v.now p && contains needs.now p) from result }
    ensures small { IfSome result (λ n. n < 2 ^ 24) }
{
    let mut at = from;
    loop {
        let Some(needed) = next_in(needs, near.need, at) else {
            return None;
        };
        let Some(lacking) = v.next_lacking(near, needed) else {
            return None;
        };
        if lacking == needed {
            return Some(needed);
        }
        at = lacking;
    }
}

/// Whether the wait misses a byte from start up to end.
pub fn misses_between(v: &Sight, w: &LiveWait, start: u64, end: u64) -> bool
    ensures { result ≡ misses_between v.now w.now start end }
{
    let span = needed(v, w);
    v.lacks_between(
        span.start.max(start),
        span.start.saturating_add(span.len).min(end),
    )
}

/// Whether the wait misses a byte at all.
pub fn misses(v: &Sight, w: &LiveWait) -> bool
    ensures { result ≡ misses v.now w.now }
{
    misses_between(v, w, 0, v.size())
}

/// Whether the wait misses a byte in one of the blocks.
#[tactic(auto, using(crate::proofs::Blocks::misses_counting, crate::proofs::Blocks::misses_far))]
pub fn misses_span(v: &Sight, blocks: Span, w: &LiveWait) -> bool
    ensures { result ≡ misses_in v.now (counting blocks.start blocks.len) w.now }
{
    let size = v.size();
    if blocks.start > size {
        return false;
    }
    let end = blocks.start.saturating_add(blocks.len).min(size + 1);
    misses_between(v, w, BLOCK * blocks.start, BLOCK * end)
}

/// Whether a byte in one of the blocks is missing where it is needed.
#[tactic(auto, using(crate::proofs::Blocks::misses_counting, crate::proofs::Blocks::misses_far))]
pub fn lacks_in(v: &Sight, blocks: Span) -> bool
    ensures { result ≡ false → (w : Wait) → misses_in v.now (counting blocks.start blocks.len) w ≡ false }
{
    let size = v.size();
    if blocks.start > size {
        return false;
    }
    let end = blocks.start.saturating_add(blocks.len).min(size + 1);
    v.lacks_between(BLOCK * blocks.start, BLOCK * end)
}

/// Whether nothing that the wait needs is missing. A dehydrate wait ends only with its ask.
pub fn is_met(v: &Sight, w: &LiveWait) -> bool
    ensures { result ≡ is_met v.now w.now }
{
    match w.kind() {
        WaitKind::Read => !misses(v, w),
        WaitKind::Hydrate => !misses(v, w),
        WaitKind::Background => !misses(v, w),
        WaitKind::List => v.is_populated(),
        WaitKind::Dehydrate => false,
    }
}
