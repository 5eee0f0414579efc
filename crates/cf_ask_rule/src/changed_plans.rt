//! What a step changes on an item for which nothing was left to do, by what changed since.
ghost use Rattle.std.specs.Prelude.{◌≡◌, List, Some, false, true, map, IfOk, IfSome, option_copied, ◌≤◌, ◌&&◌, ◌+◌, ◌-◌, ◌*◌, ◌^◌, ◌==◌, min};
ghost use Rattle.std.specs.List.{AllByRecursion, list_all, list_any};
ghost use Rattle.cf_ask_rule.specs.Deeds.{deed_of};
ghost use Rattle.cf_ask_rule.specs.Narrowing.{AreAlike, AreNear, IsAround, IsWithin, MayPlan, Narrows, PlansExpiry, PlansLeave, is_awaited, is_touched, kept_without, reaches_into, those, why_near};
ghost use Rattle.cf_ask_rule.specs.Owners.{AreApart};
ghost use Rattle.cf_ask_rule.specs.Places.{places};
ghost use Rattle.cf_model.specs.Asks.{ended_of};
ghost use Rattle.cf_model.specs.Missing.{Wait, is_met, needed};
ghost use Rattle.cf_model.specs.Requests.{Live, has_block, live_of};
ghost use Rattle.cf_model.specs.Words.{counting, says};

use crate::acts::{Act, cause_by, or_met};
use crate::asks::LiveAsk;
use crate::changes::{Change, FAR, hull};
use crate::misses::{is_met, lacks_in, needed};
use crate::sights::Sight;
use crate::waits::{LiveWait, is_same_key};
use cf_base::{Cause, ItemId, Key, OutOfMemory, Span};
use std::alloc::Global;

const BLOCK: u64 = 4096;

/// The waits that end as blocks leave an ask, where this is what changed since nothing was left to do. Of the waits those are given
/// that need something of it. Where the ask keeps blocks, a wait misses a byte in them. Nothing where another ask may change; then a
/// plan has to look at all.
pub fn make_leave_plan(
    alloc: Global,
    item: ItemId,
    old: &Sight,
    v: &Sight,
    change: Change,
    key: Key,
    blocks: Span,
    own: &LiveAsk,
    near: &[LiveWait],
    asks: &[LiveAsk],
) -> Result<Option<Vec<(LiveWait, Cause)>>, OutOfMemory>
    requires narrows { Narrows old.now v.now change.start change.end }
    requires own { live_of asks.now key ≡ Some own.now }
    ensures { (waits : List Wait) (ys : List Live) → AreNear item v.now change.start change.end near.now waits → is_awaited item v.now waits (kept_without (counting blocks.start blocks.len) own.now) ≡ true → AreAlike asks.now ys → MayPlan item old.now key waits ys → IfOk result (λ r. IfSome r (λ ended. PlansLeave item v.now key (counting blocks.start blocks.len) waits ys ended.items (kept_without (counting blocks.start blocks.len) own.now))) }
{
    let _size = v.size();
    if lacks_in(v, blocks) {
        return Ok(None);
    }
    let act = Act::Leaves { key, blocks };
    let ended = end_near(alloc, item, v, act, None, change, near)?;
    let reach = reach_of(v, change, &ended);
    if may_touch(item, key, reach, Some(own), asks) {
        drop(ended);
        return Ok(None);
    }
    Ok(Some(ended))
}

/// The ask without blocks, where it keeps others. Its time begins anew.
pub fn kept_without(
    alloc: Global,
    own: &LiveAsk,
    blocks: Span,
) -> Result<Option<LiveAsk>, OutOfMemory>
    ensures { IfOk result (λ k. k ≡ kept_without (counting blocks.start blocks.len) own.now) }
{
    let left = own.without(alloc, blocks)?;
    if left.has_no_block() {
        drop(left);
        return Ok(None);
    }
    Ok(Some(left))
}

/// Whether one of these waits on the item misses a byte in the blocks of the ask.
pub fn is_awaited(item: ItemId, v: &Sight, waits: &[LiveWait], a: &LiveAsk) -> bool
    ensures { result ≡ is_awaited item v.now waits.now (Some a.now) }
{
    waits
        .iter()
        .any(|w| w.item().0 == item.0 && a.is_missed(v, w))
}

/// The waits that end as an ask ends by time, and its key, where it is live. This is what changed since nothing was left to do,
/// and of the waits those are given that need something of the span around it and the ask. Nothing where another ask may
/// change; then a plan has to look at all.
pub fn make_expiry_plan(
    alloc: Global,
    item: ItemId,
    old: &Sight,
    v: &Sight,
    change: Change,
    around: Change,
    key: Key,
    own: Option<&LiveAsk>,
    near: &[LiveWait],
    asks: &[LiveAsk],
) -> Result<Option<(Vec<(LiveWait, Cause)>, Vec<Key>)>, OutOfMemory>
    requires narrows { Narrows old.now v.now change.start change.end }
    requires start { around.start ≤ change.start }
    requires end { change.end ≤ around.end }
    requires around { IsAround around.start around.end (option_copied own) }
    requires own { option_copied own ≡ live_of asks.now key }
    ensures { (waits : List Wait) (ys : List Live) → AreNear item v.now around.start around.end near.now waits → AreAlike asks.now ys → MayPlan item old.now key waits ys → IfOk result (λ r. IfSome r (λ p. PlansExpiry item v.now key waits ys p.0.items p.1.items)) }
{
    let _size = v.size();
    let cancelled = keys_of(alloc, own)?;
    let ended = end_near(alloc, item, v, Act::Expires(key), own, change, near)?;
    let reach = reach_of(v, change, &ended);
    if may_touch(item, key, reach, own, asks) {
        drop(ended);
        return Ok(None);
    }
    Ok(Some((ended, cancelled)))
}

/// The least span that has what changed and the blocks of the ask, if there is one.
pub fn span_around(change: Change, own: Option<&LiveAsk>) -> Change
    ensures start { result.start ≤ change.start }
    ensures end { change.end ≤ result.end }
    ensures around { IsAround result.start result.end (option_copied own.entry) }
{
    match own {
        Some(a) => change.with(positions_of(a)),
        None => change,
    }
}

/// From the first to the last position of the blocks of an ask.
pub fn positions_of(a: &LiveAsk) -> Change
    ensures { IsAround result.start result.end (Some a.now) }
{
    positions_in(a.runs())
}

fn positions_in(runs: &[Span]) -> Change
    ensures { AllByRecursion (λ b. (result.start ≤ 4096 * b) × (min (4096 * b + 4096) (2 ^ 32) ≤ result.end)) (places runs.now) }
{
    let blocks = hull(runs);
    Change {
        start: BLOCK * blocks.start.min(FAR),
        end: BLOCK * blocks.end.min(FAR),
    }
}

// Whether another ask of the item may have a block there. None has where the ask of the key has all of them.
fn may_touch(item: ItemId, key: Key, reach: Change, own: Option<&LiveAsk>, asks: &[LiveAsk]) -> bool
    ensures { result ≡ false → AreApart item asks.now → option_copied own.entry ≡ live_of asks.now key → list_any (is_touched item key reach.start reach.end) asks.now ≡ false }
{
    let first = reach.start / BLOCK;
    let end = (reach.end.min(FAR) + (BLOCK - 1)) / BLOCK;
    if has_all(item, own, first, end) {
        return false;
    }
    any_touched(item, key, reach, asks)
}

fn has_all(item: ItemId, own: Option<&LiveAsk>, first: u64, end: u64) -> bool
    ensures { result ≡ says (λ a. (a.ask.item.0 == item.0) && list_all (has_block a.owned) (counting first (end - first))) (option_copied own.entry) }
{
    match own {
        Some(a) => owns_all(a, item, first, end),
        None => false,
    }
}

fn owns_all(a: &LiveAsk, item: ItemId, first: u64, end: u64) -> bool
    ensures { result ≡ ((a.now.ask.item.0 == item.0) && list_all (has_block a.now.owned) (counting first (end - first))) }
{
    a.ask().item.0 == item.0
        && a.has_all(Span {
            start: first,
            len: end.saturating_sub(first),
        })
}

fn keys_of(alloc: Global, own: Option<&LiveAsk>) -> Result<Vec<Key>, OutOfMemory>
    ensures { IfOk result (λ v. v.items ≡ map (λ a. a.ask.key) (those (option_copied own.entry))) }
{
    let mut keys = Vec::new(alloc);
    if let Some(a) = own {
        keys.push(a.ask().key)?;
    }
    Ok(keys)
}

// The waits that end, and why, where those that need nothing of what changed stay unmet.
fn end_near(
    alloc: Global,
    item: ItemId,
    v: &Sight,
    act: Act,
    ask: Option<&LiveAsk>,
    change: Change,
    waits: &[LiveWait],
) -> Result<Vec<(LiveWait, Cause)>, OutOfMemory>
    ensures { IfOk result (λ r. r.items ≡ ended_of (why_near item v.now (deed_of act) (option_copied ask.entry) change.start change.end) waits.now) }
{
    let mut ended = Vec::new(alloc);
    for w in waits {
        if let Some(cause) = why_near(item, v, act, ask, change, w) {
            ended.push((*w, cause))?;
        }
    }
    Ok(ended)
}

fn why_near(
    item: ItemId,
    v: &Sight,
    act: Act,
    ask: Option<&LiveAsk>,
    change: Change,
    w: &LiveWait,
) -> Option<Cause>
    ensures { result ≡ why_near item v.now (deed_of act) (option_copied ask.entry) change.start change.end w.now }
{
    if w.item().0 == item.0 {
        or_met(cause_by(act, v, ask, w), is_met_in(v, change, w))
    } else {
        None
    }
}

fn is_met_in(v: &Sight, change: Change, w: &LiveWait) -> bool
    ensures { result ≡ (reaches_into (needed v.now w.now) change.start change.end && is_met v.now w.now) }
{
    reaches_into(needed(v, w), change) && is_met(v, w)
}

/// Whether a wait on the item needs some position of the span.
pub fn is_needing(item: ItemId, v: &Sight, span: Change, w: &LiveWait) -> bool
    ensures { result ≡ ((w.now.item.0 == item.0) && reaches_into (needed v.now w.now) span.start span.end) }
{
    w.item().0 == item.0 && reaches_into(needed(v, w), span)
}

fn reaches_into(span: Span, change: Change) -> bool
    ensures { result ≡ reaches_into span change.start change.end }
{
    let start = span.start.max(change.start);
    start < change.end && start - span.start < span.len
}

// The positions of what changed and of what the waits that end need.
fn reach_of(v: &Sight, change: Change, ended: &[(LiveWait, Cause)]) -> Change
    ensures start { result.start ≤ change.start }
    ensures end { change.end ≤ result.end }
    ensures within { AllByRecursion (λ e. IsWithin v.now result.start result.end e.0) ended.now }
{
    let mut start = change.start;
    let mut end = change.end;
    for e in ended {
        let span = needed(v, &e.0);
        start = start.min(span.start);
        end = end.max(span.start.saturating_add(span.len).min(FAR));
    }
    Change { start, end }
}

fn any_touched(item: ItemId, key: Key, reach: Change, asks: &[LiveAsk]) -> bool
    ensures { result ≡ list_any (is_touched item key reach.start reach.end) asks.now }
{
    asks.iter().any(|a| is_touched(item, key, reach, a))
}

fn is_touched(item: ItemId, key: Key, reach: Change, a: &LiveAsk) -> bool
    ensures { result ≡ is_touched item key reach.start reach.end a.now }
{
    a.ask().item.0 == item.0
        && !is_same_key(a.ask().key, key)
        && a.has_any(
            reach.start / BLOCK,
            (reach.end.min(FAR) + (BLOCK - 1)) / BLOCK,
        )
}
