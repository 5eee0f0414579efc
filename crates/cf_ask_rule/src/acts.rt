//! What a step does of its own to the waits and asks of an item.
ghost use Rattle.std.specs.Prelude.{◌≡◌, ◌&&◌, map, filter, not, IfOk, option_copied};
ghost use Rattle.cf_model.specs.Asks.{after_deed, cause_if, closed_by, ended_of, is_cancelled, is_cut, is_finished, is_over, is_wanted, left_of, or_met, released, waits_for, why};
ghost use Rattle.cf_model.specs.Requests.{is_background, live_of};
ghost use Rattle.cf_model.specs.Numbers.{same_key};
ghost use Rattle.cf_model.specs.Words.{counting, says};
ghost use Rattle.cf_ask_rule.specs.Deeds.{after, awaited_by, cause_for, deed_of, why_for};
ghost use Rattle.cf_ask_rule.specs.Nexts.{Wants};
ghost use Rattle.cf_ranges.specs.Positions.{IsRuns};

use crate::asks::{LiveAsk, is_idle, waits_by};
use crate::kinds::is_data;
use crate::misses::{is_met, misses_span};
use crate::searches::Hint;
use crate::sights::Sight;
use crate::waits::{LiveWait, WaitNumber, is_background, is_same_key};
use cf_base::{Cause, Handle, ItemId, Key, OutOfMemory, Span, WaitId};
use std::alloc::Global;

const BLOCK: u64 = 4096;

/// What a step does of its own.
#[derive(Clone, Copy)]
pub enum Act {
    /// The item was changed, or a wait began.
    Nothing,
    /// Blocks leave the ask of the key, whose time begins anew.
    Leaves {
        key: Key,
        blocks: Span,
    },
    /// And so the waits that miss a byte in them end.
    Fails {
        key: Key,
        blocks: Span,
        cause: Cause,
    },
    /// A wait ends.
    Cancels(WaitId),
    /// The waits of a handle end, and the background wait where it was the last handle.
    Closes {
        handle: Handle,
        last: bool,
    },
    /// All data asks of the file are cancelled.
    Restarts,
    /// The ask of the key ends by time, and the waits that wait for it.
    Expires(Key),
    /// The list or dehydrate ask of the key is answered, and the waits that wait for it end so.
    Finishes {
        key: Key,
        cause: Cause,
    },
}

/// The live ask of a key.
pub fn live_of(asks: &[LiveAsk], key: Key) -> Option<&LiveAsk>
    ensures { option_copied result ≡ live_of asks.now key }
{
    asks.iter().find(|a| is_same_key(a.ask().key, key))
}

/// The live ask whose waits an act ends, if it ends those of an ask.
pub fn awaited_by(act: Act, asks: &[LiveAsk]) -> Option<&LiveAsk>
    ensures { option_copied result ≡ awaited_by (deed_of act) asks.now }
{
    match act {
        Act::Expires(key) => live_of(asks, key),
        Act::Finishes { key, cause: _ } => live_of(asks, key),
        Act::Nothing => None,
        Act::Leaves { key: _, blocks: _ } => None,
        Act::Fails {
            key: _,
            blocks: _,
            cause: _,
        } => None,
        Act::Cancels(_) => None,
        Act::Closes { handle: _, last: _ } => None,
        Act::Restarts => None,
    }
}

fn waits_for(v: &Sight, ask: Option<&LiveAsk>, w: &LiveWait) -> bool
    ensures { result ≡ waits_for v.now (option_copied ask.entry) w.now }
{
    match ask {
        Some(a) => waits_by(v, a, w),
        None => false,
    }
}

fn cause_if(hit: bool, cause: Cause) -> Option<Cause>
    ensures { result ≡ cause_if hit cause }
{
    if hit { Some(cause) } else { None }
}

fn is_of_handle(w: &LiveWait, handle: Handle) -> bool
    ensures { result ≡ says (λ h. same_key h.0 handle.0) w.now.handle }
{
    match w.handle() {
        Some(h) => is_same_key(h.0, handle.0),
        None => false,
    }
}

fn closed_by(w: &LiveWait, handle: Handle, last: bool) -> Option<Cause>
    ensures { result ≡ closed_by (says (λ h. same_key h.0 handle.0) w.now.handle) (last && is_background w.now.kind) }
{
    if is_of_handle(w, handle) {
        Some(Cause::Cancelled)
    } else {
        cause_if(last && is_background(w.kind()), Cause::Closed)
    }
}

/// Why an act ends a wait on its item, if it does. The ask is the one whose waits it ends.
pub fn cause_by(act: Act, v: &Sight, ask: Option<&LiveAsk>, w: &LiveWait) -> Option<Cause>
    ensures { result ≡ cause_for (deed_of act) v.now (option_copied ask.entry) w.now }
{
    match act {
        Act::Nothing => None,
        Act::Leaves { key: _, blocks: _ } => None,
        Act::Fails {
            key: _,
            blocks,
            cause,
        } => cause_if(misses_span(v, blocks, w), cause),
        Act::Cancels(id) => cause_if(w.id().is(WaitNumber::of(id)), Cause::Cancelled),
        Act::Closes { handle, last } => closed_by(w, handle, last),
        Act::Restarts => None,
        Act::Expires(_) => cause_if(waits_for(v, ask, w), Cause::TimedOut),
        Act::Finishes { key: _, cause } => cause_if(waits_for(v, ask, w), cause),
    }
}

/// A cause that is known, or that the wait is met.
pub fn or_met(cause: Option<Cause>, met: bool) -> Option<Cause>
    ensures { result ≡ or_met cause met }
{
    match cause {
        Some(c) => Some(c),
        None => cause_if(met, Cause::Met),
    }
}

/// Why a wait ends after the step, if it does. The ask is the one whose waits the act ends.
pub fn why(item: ItemId, v: &Sight, act: Act, ask: Option<&LiveAsk>, w: &LiveWait) -> Option<Cause>
    ensures { result ≡ why_for item v.now (deed_of act) (option_copied ask.entry) w.now }
{
    if w.item().0 == item.0 {
        or_met(cause_by(act, v, ask, w), is_met(v, w))
    } else {
        None
    }
}

/// The waits that end, and why, and those that are left.
pub fn end_waits(
    alloc: Global,
    item: ItemId,
    v: &Sight,
    act: Act,
    asks: &[LiveAsk],
    waits: &[LiveWait],
) -> Result<(Vec<(LiveWait, Cause)>, Vec<LiveWait>), OutOfMemory>
    ensures ended { IfOk result (λ r. r.0.items ≡ ended_of (why item v.now (deed_of act) asks.now) waits.now) }
    ensures left { IfOk result (λ r. r.1.items ≡ left_of (why item v.now (deed_of act) asks.now) waits.now) }
{
    let ask = awaited_by(act, asks);
    let mut ended = Vec::new(alloc);
    let mut left = Vec::with_capacity(alloc, waits.len())?;
    for w in waits {
        match why(item, v, act, ask, w) {
            Some(cause) => ended.push((*w, cause))?,
            None => left.push(*w)?,
        }
    }
    Ok((ended, left))
}

fn released(alloc: Global, key: Key, blocks: Span, a: LiveAsk) -> Result<LiveAsk, OutOfMemory>
    ensures { IfOk result (λ r. r ≡ released key (counting blocks.start blocks.len) a) }
{
    if is_same_key(a.ask().key, key) {
        a.without(alloc, blocks)
    } else {
        Ok(a)
    }
}

fn after_act(alloc: Global, act: Act, a: LiveAsk) -> Result<LiveAsk, OutOfMemory>
    ensures { IfOk result (λ r. r ≡ after_deed (deed_of act) a) }
{
    match act {
        Act::Leaves { key, blocks } => released(alloc, key, blocks, a),
        Act::Fails {
            key,
            blocks,
            cause: _,
        } => released(alloc, key, blocks, a),
        Act::Nothing => Ok(a),
        Act::Cancels(_) => Ok(a),
        Act::Closes { handle: _, last: _ } => Ok(a),
        Act::Restarts => Ok(a),
        Act::Expires(_) => Ok(a),
        Act::Finishes { key: _, cause: _ } => Ok(a),
    }
}

fn is_finished(act: Act, a: &LiveAsk) -> bool
    ensures { result ≡ is_finished (deed_of act) a.now }
{
    match act {
        Act::Finishes { key, cause: _ } => is_same_key(a.ask().key, key),
        Act::Leaves { key: _, blocks: _ } => false,
        Act::Fails {
            key: _,
            blocks: _,
            cause: _,
        } => false,
        Act::Nothing => false,
        Act::Cancels(_) => false,
        Act::Closes { handle: _, last: _ } => false,
        Act::Restarts => false,
        Act::Expires(_) => false,
    }
}

fn is_over(act: Act, a: &LiveAsk) -> bool
    ensures { result ≡ is_over (deed_of act) a.now }
{
    is_finished(act, a) || (is_data(a.ask().kind) && a.has_no_block())
}

/// The asks that are left once the act is done.
pub fn asks_after(alloc: Global, act: Act, asks: Vec<LiveAsk>) -> Result<Vec<LiveAsk>, OutOfMemory>
    ensures { IfOk result (λ r. r.items ≡ after (deed_of act) asks.items) }
{
    let mut out = Vec::with_capacity(alloc, asks.len())?;
    for a in asks {
        let next = after_act(alloc, act, a)?;
        if !is_over(act, &next) {
            out.push(next)?;
        }
    }
    Ok(out)
}

fn is_cut(item: ItemId, act: Act, a: &LiveAsk) -> bool
    ensures { result ≡ is_cut item (deed_of act) a.now }
{
    match act {
        Act::Expires(key) => is_same_key(a.ask().key, key),
        Act::Restarts => a.ask().item.0 == item.0 && is_data(a.ask().kind),
        Act::Leaves { key: _, blocks: _ } => false,
        Act::Fails {
            key: _,
            blocks: _,
            cause: _,
        } => false,
        Act::Nothing => false,
        Act::Cancels(_) => false,
        Act::Closes { handle: _, last: _ } => false,
        Act::Finishes { key: _, cause: _ } => false,
    }
}

/// Whether the ask is cancelled after the step. What it is asked for is sought from a hint on.
pub fn is_cancelled(
    item: ItemId,
    v: &Sight,
    act: Act,
    waits: &[LiveWait],
    needs: &[Span],
    near: Hint,
    a: &LiveAsk,
) -> bool
    requires runs { IsRuns needs.now }
    requires wants { Wants v.now needs.now (is_wanted item v.now waits.now) }
    ensures { result ≡ is_cancelled item v.now (deed_of act) waits.now a.now }
{
    is_cut(item, act, a) || is_idle(item, v, waits, needs, near, a)
}

// A hint for the blocks of the ask, by one for others.
fn hint_in(v: &Sight, needs: &[Span], near: Hint, a: &LiveAsk) -> Hint
    requires { IsRuns needs.now }
{
    match a.runs() {
        [] => near,
        [first, ..] => v.hint_at(needs, near, BLOCK * first.start.min(v.size())),
    }
}

/// The keys of the asks that are cancelled, and the asks that are kept.
pub fn part_asks(
    alloc: Global,
    item: ItemId,
    v: &Sight,
    act: Act,
    waits: &[LiveWait],
    needs: &[Span],
    asks: Vec<LiveAsk>,
) -> Result<(Vec<Key>, Vec<LiveAsk>), OutOfMemory>
    requires runs { IsRuns needs.now }
    requires wants { Wants v.now needs.now (is_wanted item v.now waits.now) }
    ensures cancelled { IfOk result (λ r. r.0.items ≡ map (λ a. a.ask.key) (filter (is_cancelled item v.now (deed_of act) waits.now) asks.items)) }
    ensures kept { IfOk result (λ r. r.1.items ≡ filter (λ a. not (is_cancelled item v.now (deed_of act) waits.now a)) asks.items) }
{
    let mut keys = Vec::new(alloc);
    let mut kept = Vec::with_capacity(alloc, asks.len())?;
    let mut near = Hint::first();
    for a in asks {
        near = hint_in(v, needs, near, &a);
        if is_cancelled(item, v, act, waits, needs, near, &a) {
            keys.push(a.ask().key)?;
        } else {
            kept.push(a)?;
        }
    }
    Ok((keys, kept))
}
