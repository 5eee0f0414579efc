//! Live asks, and the blocks that they own.
ghost use Rattle.std.specs.Prelude.{◌≡◌, ℕ, Bool, not, min, nat_le, ◌+◌, ◌^◌, ◌<◌, ◌≤◌, All, filter, IfOk, ◌&&◌, ◌==◌};
ghost use Rattle.std.specs.List.{AllByRecursion, list_all, list_any};
ghost use Rattle.cf_ask_rule.specs.Fronts.{EndsBy};
ghost use Rattle.cf_ask_rule.specs.Nexts.{Wants};
ghost use Rattle.cf_ask_rule.specs.Places.{places};
ghost use Rattle.cf_ask_rule.specs.Unions.{IsSmall};
ghost use Rattle.cf_model.specs.Asks.{is_idle, is_idle_by, is_owned, is_wanted, misses_in, waits_by};
ghost use Rattle.cf_model.specs.Numbers.{same_key};
ghost use Rattle.cf_model.specs.Requests.{has_block, is_list_wait};
ghost use Rattle.cf_model.specs.Words.{counting, is_empty};
ghost use Rattle.cf_ranges.specs.Positions.{contains, within, IsRuns};

use crate::block_sets::BlockSet;
use crate::changes::greatest_end;
use crate::misses::{misses_span, next_missed};
use crate::searches::Hint;
use crate::sights::Sight;
use crate::unions::union_of;
use crate::waits::{LiveWait, WaitNumber, is_list_wait};
use cf_base::{Ask, AskKind, ItemId, Key, OutOfMemory, Span};
use std::alloc::Global;
use std::marker::Model;

const BLOCK: u64 = 4096;

/// A live ask: the blocks that it owns, the ticks since it was made or last answered, and the wait of a dehydrate ask.
#[derive(Drop)]
pub struct LiveAsk {
    ask: Ask,
    owned: BlockSet,
    ticks: u64,
    wait: WaitNumber,
}

impl Model for LiveAsk {
    ghost use Rattle.cf_model.specs.Requests.{Live};
    ghost use Rattle.cf_ask_rule.specs.Places.{places};

    ghost Value = { Live };

    ghost view = { λ a. record { ask = a.ask; owned = places a.owned; ticks = a.ticks; wait = a.wait } };
}

impl LiveAsk {
    /// An ask that has just been made.
    pub fn new(ask: Ask, owned: BlockSet, wait: WaitNumber) -> LiveAsk
        ensures { result ≡ record { ask = ask; owned = places owned; ticks = 0; wait = wait } }
    {
        LiveAsk {
            ask,
            owned,
            ticks: 0,
            wait,
        }
    }

    /// An equal ask. It shares its blocks with this one.
    pub fn copy(&self) -> Result<LiveAsk, OutOfMemory>
        ensures { IfOk result (λ a. a ≡ self.now) }
    {
        Ok(LiveAsk {
            ask: self.ask,
            owned: self.owned.copy()?,
            ticks: self.ticks,
            wait: self.wait,
        })
    }

    /// The ask under a key.
    pub fn keyed(&self, key: Key) -> Result<LiveAsk, OutOfMemory>
        ensures { IfOk result (λ a. a ≡ record self.now { ask = record self.now.ask { key = key } }) }
    {
        Ok(LiveAsk {
            ask: Ask { key, ..self.ask },
            owned: self.owned.copy()?,
            ticks: self.ticks,
            wait: self.wait,
        })
    }

    /// The ask without blocks, and with its time begun anew.
    pub fn without(&self, alloc: Global, blocks: Span) -> Result<LiveAsk, OutOfMemory>
        ensures { IfOk result (λ a. a ≡ record self.now { owned = filter (λ b. not (has_block (counting blocks.start blocks.len) b)) self.now.owned; ticks = 0 }) }
    {
        Ok(LiveAsk {
            ask: self.ask,
            owned: self.owned.without(alloc, blocks)?,
            ticks: 0,
            wait: self.wait,
        })
    }

    /// What the provider is asked.
    pub fn ask(&self) -> Ask
        ensures { result ≡ self.now.ask }
    {
        self.ask
    }

    /// The wait of a dehydrate ask.
    pub fn wait(&self) -> WaitNumber
        ensures { result ≡ self.now.wait }
    {
        self.wait
    }

    /// Whether it owns none.
    pub fn has_no_block(&self) -> bool
        ensures { result ≡ is_empty self.now.owned }
    {
        is_empty(self.owned.runs())
    }

    /// The runs of its blocks.
    pub fn runs(&self) -> &[Span]
        ensures places { places result.now ≡ self.now.owned }
        ensures blocks { (b : ℕ) → contains result.now b ≡ has_block self.now.owned b }
        ensures maximal { IsRuns result.now }
    {
        self.owned.runs()
    }

    /// Whether it owns each of the blocks.
    pub fn has_all(&self, blocks: Span) -> bool
        ensures { result ≡ list_all (has_block self.now.owned) (counting blocks.start blocks.len) }
    {
        has_all(self.owned.runs(), blocks)
    }

    /// It owns no block from there on, up to 2^32.
    pub fn block_end(&self) -> u64
        ensures { EndsBy result self.now }
    {
        end_of_blocks(self.owned.runs())
    }

    /// Whether it owns a block from first up to end.
    pub fn has_any(&self, first: u64, end: u64) -> bool
        ensures { result ≡ list_any (within first end) self.now.owned }
    {
        has_any(self.owned.runs(), first, end)
    }

    /// The ticks since it was made or last answered.
    pub fn ticks(&self) -> u64
        ensures { result ≡ self.now.ticks }
    {
        self.ticks
    }

    /// An equal ask, but for its ticks. It shares its blocks with this one.
    pub fn copy_at(&self, ticks: u64) -> Result<LiveAsk, OutOfMemory>
        ensures { IfOk result (λ a. a ≡ record self.now { ticks = ticks }) }
    {
        Ok(LiveAsk {
            ask: self.ask,
            owned: self.owned.copy()?,
            ticks,
            wait: self.wait,
        })
    }

    /// Sets its ticks.
    pub fn set_ticks(&mut self, ticks: u64)
        ensures { self.new ≡ record self.old { ticks = ticks } }
    {
        self.ticks = ticks;
    }

    /// It owns the blocks of another from now on.
    pub fn take_blocks(&mut self, from: LiveAsk)
        ensures { self.new ≡ record self.old { owned = from.owned } }
    {
        self.owned = from.owned;
    }

    /// Whether the wait misses a byte in its blocks.
    pub fn is_missed(&self, v: &Sight, w: &LiveWait) -> bool
        ensures { result ≡ misses_in v.now self.now.owned w.now }
    {
        misses_runs(v, self.owned.runs(), w)
    }

    /// Whether a byte that is among those that are needed is missing in its blocks. It is sought from a hint on.
    pub fn is_wanted(&self, v: &Sight, needs: &[Span], near: Hint) -> bool
        requires { IsRuns needs.now }
        ensures { (w : ℕ → Bool) → Wants v.now needs.now w → result ≡ list_any w self.now.owned }
    {
        is_any_wanted(v, needs, near, self.owned.runs())
    }
}

fn end_of_blocks(runs: &[Span]) -> u64
    ensures { AllByRecursion (λ b. min (b + 1) (2 ^ 32) ≤ result) (places runs.now) }
{
    greatest_end(runs)
}

// As runs are maximal, one of them has all.
fn has_all(runs: &[Span], blocks: Span) -> bool
    requires { IsRuns runs.now }
    ensures { result ≡ list_all (has_block (places runs.now)) (counting blocks.start blocks.len) }
{
    if blocks.len == 0 {
        return true;
    }
    any_covers(runs, blocks)
}

fn any_covers(runs: &[Span], blocks: Span) -> bool
    requires { IsRuns runs.now }
    ensures { result ≡ list_any (λ r. nat_le r.start blocks.start && nat_le (blocks.start + blocks.len) (r.start + r.len)) runs.now }
{
    runs.iter().any(|run| covers(*run, blocks))
}

fn covers(run: Span, blocks: Span) -> bool
    ensures { result ≡ (nat_le run.start blocks.start && nat_le (blocks.start + blocks.len) (run.start + run.len)) }
{
    run.start <= blocks.start
        && blocks.start - run.start <= run.len
        && blocks.len <= run.len - (blocks.start - run.start)
}

fn has_any(runs: &[Span], first: u64, end: u64) -> bool
    ensures { result ≡ list_any (within first end) (places runs.now) }
{
    any_reaches(runs, first, end)
}

fn any_reaches(runs: &[Span], first: u64, end: u64) -> bool
    ensures { result ≡ list_any (λ r. list_any (within first end) (counting r.start r.len)) runs.now }
{
    runs.iter().any(|run| reaches(*run, first, end))
}

#[tactic(auto, using(crate::proofs::Flags::span_counting))]
fn reaches(run: Span, first: u64, end: u64) -> bool
    ensures { result ≡ list_any (within first end) (counting run.start run.len) }
{
    let start = run.start.max(first);
    start < end && start - run.start < run.len
}

fn is_empty(runs: &[Span]) -> bool
    ensures { result ≡ is_empty runs.now }
{
    match runs {
        [] => true,
        _ => false,
    }
}

fn misses_runs(v: &Sight, runs: &[Span], w: &LiveWait) -> bool
    ensures { result ≡ misses_in v.now (places runs.now) w.now }
{
    any_missed(v, runs, w)
}

fn any_missed(v: &Sight, runs: &[Span], w: &LiveWait) -> bool
    ensures { result ≡ list_any (λ r. misses_in v.now (counting r.start r.len) w.now) runs.now }
{
    runs.iter().any(|run| misses_span(v, *run, w))
}

/// Whether the wait waits for an ask.
pub fn waits_by(v: &Sight, a: &LiveAsk, w: &LiveWait) -> bool
    ensures { result ≡ waits_by a.now.ask.kind v.now a.now w.now }
{
    match a.ask().kind {
        AskKind::Fetch => a.is_missed(v, w),
        AskKind::Validate => a.is_missed(v, w),
        AskKind::List => is_list_wait(w.kind()),
        AskKind::Dehydrate => w.id().is(a.wait()),
    }
}

fn is_any_wanted(v: &Sight, needs: &[Span], near: Hint, runs: &[Span]) -> bool
    requires { IsRuns needs.now }
    ensures { (w : ℕ → Bool) → Wants v.now needs.now w → result ≡ list_any w (places runs.now) }
{
    for run in runs {
        if is_run_wanted(v, needs, near, *run) {
            return true;
        }
    }
    false
}

// Beyond the size nothing is missing.
fn is_run_wanted(v: &Sight, needs: &[Span], near: Hint, run: Span) -> bool
    requires { IsRuns needs.now }
    ensures { (w : ℕ → Bool) → Wants v.now needs.now w → result ≡ list_any w (counting run.start run.len) }
{
    let start = run.start.min(v.size());
    match next_missed(v, needs, near, BLOCK * start) {
        Some(at) => at / BLOCK - start < run.len,
        None => false,
    }
}

/// Whether a wait on the item waits for its entries.
pub fn is_list_awaited(item: ItemId, waits: &[LiveWait]) -> bool
    ensures { result ≡ list_any (λ w. (w.item.0 == item.0) && is_list_wait w.kind) waits.now }
{
    waits
        .iter()
        .any(|w| w.item().0 == item.0 && is_list_wait(w.kind()))
}

fn has_wait(waits: &[LiveWait], id: WaitNumber) -> bool
    ensures { result ≡ list_any (λ w. same_key w.id.0 id.0) waits.now }
{
    waits.iter().any(|w| w.id().is(id))
}

/// Whether the ask is one of the item that none of the waits waits for. These need the positions that are given, among which
/// those of the ask are sought from a place on.
pub fn is_idle(
    item: ItemId,
    v: &Sight,
    waits: &[LiveWait],
    needs: &[Span],
    near: Hint,
    a: &LiveAsk,
) -> bool
    requires runs { IsRuns needs.now }
    requires wants { Wants v.now needs.now (is_wanted item v.now waits.now) }
    ensures { result ≡ is_idle item v.now waits.now a.now }
{
    a.ask().item.0 == item.0 && is_idle_by(item, v, waits, needs, near, a)
}

fn is_idle_by(
    item: ItemId,
    v: &Sight,
    waits: &[LiveWait],
    needs: &[Span],
    near: Hint,
    a: &LiveAsk,
) -> bool
    requires runs { IsRuns needs.now }
    requires wants { Wants v.now needs.now (is_wanted item v.now waits.now) }
    ensures { result ≡ is_idle_by a.now.ask.kind item v.now waits.now a.now }
{
    match a.ask().kind {
        AskKind::Fetch => !is_wanted_by(item, v, waits, needs, near, a),
        AskKind::Validate => !is_wanted_by(item, v, waits, needs, near, a),
        AskKind::List => !is_list_awaited(item, waits),
        AskKind::Dehydrate => !has_wait(waits, a.wait()),
    }
}

fn is_wanted_by(
    item: ItemId,
    v: &Sight,
    waits: &[LiveWait],
    needs: &[Span],
    near: Hint,
    a: &LiveAsk,
) -> bool
    requires runs { IsRuns needs.now }
    requires wants { Wants v.now needs.now (is_wanted item v.now waits.now) }
    ensures { result ≡ list_any (is_wanted item v.now waits.now) a.now.owned }
{
    a.is_wanted(v, needs, near)
}

/// The runs of the blocks that asks of the item own.
pub fn owned_of(alloc: Global, item: ItemId, asks: &[LiveAsk]) -> Result<Vec<Span>, OutOfMemory>
    ensures owned { IfOk result (λ r. (b : ℕ) → contains r.items b ≡ is_owned item asks.now b) }
    ensures maximal { IfOk result (λ r. IsRuns r.items) }
{
    let spans = spans_owned(alloc, item, asks)?;
    let runs = union_of(alloc, spans)?;
    Ok(runs)
}

fn spans_owned(alloc: Global, item: ItemId, asks: &[LiveAsk]) -> Result<Vec<Span>, OutOfMemory>
    ensures owned { IfOk result (λ r. (b : ℕ) → contains r.items b ≡ is_owned item asks.now b) }
    ensures small { IfOk result (λ r. All IsSmall r.items) }
{
    let mut spans = Vec::new(alloc);
    for a in asks {
        if a.ask().item.0 == item.0 {
            spans.extend_from_slice(a.runs())?;
        }
    }
    Ok(spans)
}
