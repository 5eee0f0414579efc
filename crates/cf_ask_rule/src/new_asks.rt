//! Which asks are made.
ghost use Rattle.std.specs.Prelude.{◌≡◌, ℕ, Bool, ◌+◌, ◌/◌, ◌^◌, ◌<◌, ◌≤◌, ◌==◌, ◌&&◌, not, cond, filter, length, map, IfOk};
ghost use Rattle.std.specs.List.{AllByRecursion, list_any};
ghost use Rattle.cf_ask_rule.specs.Nexts.{Wants};
ghost use Rattle.cf_ask_rule.specs.Places.{places};
ghost use Rattle.cf_model.specs.Asks.{ask_of_run, dehydrate_ask, dehydrate_asks, is_fetched, is_wanted, list_ask, list_asks, new_asks, open_blocks, runs_of, runs_on};
ghost use Rattle.cf_model.specs.Numbers.{same_key};
ghost use Rattle.cf_model.specs.Requests.{is_dehydrate_wait, is_list};
ghost use Rattle.cf_base.specs.declared.waits.AskKind.{AskKind};
ghost use Rattle.cf_model.specs.Words.{counting};
ghost use Rattle.cf_ranges.specs.Positions.{contains, IsRuns};

use crate::asks::{LiveAsk, is_list_awaited, owned_of};
use crate::block_sets::BlockSet;
use crate::kinds::is_list;
use crate::misses::next_missed;
use crate::searches::{Hint, end_of, place_beyond};
use crate::sights::Sight;
use crate::waits::{LiveWait, WaitNumber, is_dehydrate_wait};
use cf_base::{Ask, AskKind, ItemId, Key, OutOfMemory, Span};
use cf_ranges::RangeSet;
use std::alloc::Global;
use std::marker::Model;

const BLOCK: u64 = 4096;

const NO_KEY: Key = Key {
    epoch: 0,
    number: 0,
};

/// Neighbouring blocks of one kind: those that are fetched have a byte that is not here.
#[derive(Clone, Copy)]
pub struct Run {
    fetch: bool,
    first: u64,
    count: u64,
}

impl Model for Run {
    ghost use Rattle.cf_model.specs.Asks.{Run};

    ghost Value = { Run };

    ghost view = { λ r. record { fetch = r.fetch; first = r.first; count = r.count } };

    ghost inverse = { λ r. record { fetch = r.fetch; first = r.first; count = r.count } };
}

impl Run {
    fn new(fetch: bool, first: u64, count: u64) -> Run
        ensures { result ≡ record { fetch = fetch; first = first; count = count } }
    {
        Run {
            fetch,
            first,
            count,
        }
    }

    fn fetch(&self) -> bool
        ensures { result ≡ self.now.fetch }
    {
        self.fetch
    }

    fn first(&self) -> u64
        ensures { result ≡ self.now.first }
    {
        self.first
    }

    fn count(&self) -> u64
        ensures { result ≡ self.now.count }
    {
        self.count
    }
}

fn is_fetched(v: &Sight, block: u64) -> bool
    requires { block < 2 ^ 40 }
    ensures { result ≡ is_fetched v.now block }
{
    v.is_absent_between(BLOCK * block, BLOCK * block + BLOCK)
}

/// The blocks that hold a missing needed byte and that no ask owns. It goes from one such block to the next.
pub fn open_blocks(
    alloc: Global,
    item: ItemId,
    v: &Sight,
    waits: &[LiveWait],
    needs: &[Span],
    asks: &[LiveAsk],
) -> Result<Vec<u64>, OutOfMemory>
    requires runs { IsRuns needs.now }
    requires wants { Wants v.now needs.now (is_wanted item v.now waits.now) }
    ensures open { IfOk result (λ r. r.items ≡ open_blocks item v.now waits.now asks.now) }
    ensures small { IfOk result (λ r. AllByRecursion (λ b. b < 2 ^ 40) r.items) }
{
    let _size = v.size();
    let owned = owned_of(alloc, item, asks)?;
    let blocks = open_in(alloc, v, needs, &owned)?;
    Ok(blocks)
}

fn open_in(
    alloc: Global,
    v: &Sight,
    needs: &[Span],
    owned: &[Span],
) -> Result<Vec<u64>, OutOfMemory>
    requires needs { IsRuns needs.now }
    requires owned { IsRuns owned.now }
    ensures { IfOk result (λ r. (w o : ℕ → Bool) → Wants v.now needs.now w → ((b : ℕ) → contains owned.now b ≡ o b) → r.items ≡ filter (λ b. w b && not (o b)) (counting 0 ((length v.now.lacks + 4095) / 4096))) }
{
    let mut out = Vec::new(alloc);
    let mut next = 0;
    let mut near = Hint::first();
    let mut own = 0;
    while let Some(at) = next_missed(v, needs, near, BLOCK * next) {
        let block = at / BLOCK;
        near = v.hint_at(needs, near, at);
        own = place_beyond(owned, own, block);
        let end = end_of(owned, own, block);
        if end > block {
            next = end;
        } else {
            out.push(block)?;
            next = block + 1;
        }
    }
    Ok(out)
}

#[tactic(auto, using(crate::proofs::Runs::small_at))]
fn runs_on(alloc: Global, v: &Sight, head: u64, rest: &[u64]) -> Result<Vec<Run>, OutOfMemory>
    requires head { head < 2 ^ 40 }
    requires rest { AllByRecursion (λ b. b < 2 ^ 40) rest.now }
    ensures { IfOk result (λ r. r.items ≡ runs_on v.now (record { fetch = is_fetched v.now head; first = head; count = 1 }) rest.now) }
{
    let mut out = Vec::new(alloc);
    let mut fetch = is_fetched(v, head);
    let mut first = head;
    let mut count = 1;
    for b in rest {
        let kind = is_fetched(v, *b);
        if *b == first + count && kind == fetch {
            count += 1;
        } else {
            out.push(Run::new(fetch, first, count))?;
            fetch = kind;
            first = *b;
            count = 1;
        }
    }
    out.push(Run::new(fetch, first, count))?;
    Ok(out)
}

/// The maximal runs of neighbours of one kind.
fn runs_of(alloc: Global, v: &Sight, blocks: &[u64]) -> Result<Vec<Run>, OutOfMemory>
    requires { AllByRecursion (λ b. b < 2 ^ 40) blocks.now }
    ensures { IfOk result (λ r. r.items ≡ runs_of v.now blocks.now) }
{
    match blocks {
        [] => Ok(Vec::new(alloc)),
        [head, rest @ ..] => runs_on(alloc, v, *head, rest),
    }
}

/// The ask for a run, still without a key.
pub fn ask_of_run(alloc: Global, item: ItemId, base: u64, run: Run) -> Result<LiveAsk, OutOfMemory>
    requires base { base ≤ 2 ^ 24 }
    requires run { run.first + run.count ≤ 2 ^ 40 }
    ensures { IfOk result (λ a. a ≡ ask_of_run item base run) }
{
    let start = BLOCK * run.first();
    let end = base.min(BLOCK * (run.first() + run.count()));
    let ask = Ask {
        key: NO_KEY,
        kind: kind_of(run.fetch()),
        item,
        span: Span {
            start,
            len: end.saturating_sub(start),
        },
    };
    let owned = BlockSet::new(alloc, counted(alloc, run.first(), run.count())?)?;
    Ok(LiveAsk::new(ask, owned, WaitNumber::new(0, 0)))
}

fn kind_of(fetch: bool) -> AskKind
    ensures { result ≡ cond fetch AskKind.Fetch AskKind.Validate }
{
    if fetch {
        AskKind::Fetch
    } else {
        AskKind::Validate
    }
}

fn counted(alloc: Global, first: u64, count: u64) -> Result<RangeSet, OutOfMemory>
    requires { first + count ≤ 2 ^ 40 }
    ensures { IfOk result (λ r. places r ≡ counting first count) }
{
    let mut blocks = RangeSet::new(alloc);
    blocks.add(Span {
        start: first,
        len: count,
    })?;
    let _maximal = blocks.runs();
    Ok(blocks)
}

/// The asks for runs, still without keys.
fn asks_of(
    alloc: Global,
    item: ItemId,
    base: u64,
    runs: &[Run],
) -> Result<Vec<LiveAsk>, OutOfMemory>
    requires base { base ≤ 2 ^ 24 }
    requires small { AllByRecursion (λ r. r.first + r.count ≤ 2 ^ 40) runs.now }
    ensures { IfOk result (λ v. v.items ≡ map (ask_of_run item base) runs.now) }
{
    let mut out = Vec::new(alloc);
    for run in runs {
        out.push(ask_of_run(alloc, item, base, *run)?)?;
    }
    Ok(out)
}

fn is_list_asked(item: ItemId, asks: &[LiveAsk]) -> bool
    ensures { result ≡ list_any (λ a. (a.ask.item.0 == item.0) && is_list a.ask.kind) asks.now }
{
    asks.iter()
        .any(|a| a.ask().item.0 == item.0 && is_list(a.ask().kind))
}

fn list_ask(item: ItemId) -> LiveAsk
    ensures { result ≡ list_ask item }
{
    let ask = Ask {
        key: NO_KEY,
        kind: AskKind::List,
        item,
        span: Span { start: 0, len: 0 },
    };
    LiveAsk::new(ask, BlockSet::empty(), WaitNumber::new(0, 0))
}

/// The list ask, where a list wait waits and no list ask is live.
fn list_asks(
    alloc: Global,
    item: ItemId,
    waits: &[LiveWait],
    asks: &[LiveAsk],
) -> Result<Vec<LiveAsk>, OutOfMemory>
    ensures { IfOk result (λ v. v.items ≡ list_asks item waits.now asks.now) }
{
    let mut out = Vec::new(alloc);
    if is_list_awaited(item, waits) && !is_list_asked(item, asks) {
        out.push(list_ask(item))?;
    }
    Ok(out)
}

fn has_ask(asks: &[LiveAsk], wait: WaitNumber) -> bool
    ensures { result ≡ list_any (λ a. same_key a.wait.0 wait.0) asks.now }
{
    asks.iter().any(|a| a.wait().is(wait))
}

fn lacks_ask(item: ItemId, asks: &[LiveAsk], w: &LiveWait) -> bool
    ensures { result ≡ ((w.now.item.0 == item.0) && is_dehydrate_wait w.now.kind && not (list_any (λ a. same_key a.wait.0 w.now.id.0) asks.now)) }
{
    w.item().0 == item.0 && is_dehydrate_wait(w.kind()) && !has_ask(asks, w.id())
}

fn dehydrate_ask(w: &LiveWait) -> LiveAsk
    ensures { result ≡ dehydrate_ask w.now }
{
    let ask = Ask {
        key: NO_KEY,
        kind: AskKind::Dehydrate,
        item: w.item(),
        span: w.span(),
    };
    LiveAsk::new(ask, BlockSet::empty(), w.id())
}

/// The asks of the dehydrate waits that have none yet.
fn dehydrate_asks(
    alloc: Global,
    item: ItemId,
    waits: &[LiveWait],
    asks: &[LiveAsk],
) -> Result<Vec<LiveAsk>, OutOfMemory>
    ensures { IfOk result (λ v. v.items ≡ dehydrate_asks item waits.now asks.now) }
{
    Ok(
        waits
            .iter()
            .filter(|w| lacks_ask(item, asks, w))
            .map(|w| dehydrate_ask(w))
            .collect(alloc)?,
    )
}

/// The data asks that are made, still without keys.
fn data_asks(
    alloc: Global,
    item: ItemId,
    v: &Sight,
    waits: &[LiveWait],
    needs: &[Span],
    asks: &[LiveAsk],
) -> Result<Vec<LiveAsk>, OutOfMemory>
    requires runs { IsRuns needs.now }
    requires wants { Wants v.now needs.now (is_wanted item v.now waits.now) }
    ensures { IfOk result (λ r. r.items ≡ map (ask_of_run item v.now.base) (runs_of v.now (open_blocks item v.now waits.now asks.now))) }
{
    let open = open_blocks(alloc, item, v, waits, needs, asks)?;
    let runs = open_runs(alloc, v, &open)?;
    asks_of(alloc, item, v.base(), &runs)
}

fn open_runs(alloc: Global, v: &Sight, blocks: &[u64]) -> Result<Vec<Run>, OutOfMemory>
    requires { AllByRecursion (λ b. b < 2 ^ 40) blocks.now }
    ensures runs { IfOk result (λ r. r.items ≡ runs_of v.now blocks.now) }
    ensures small { IfOk result (λ r. AllByRecursion (λ x. x.first + x.count ≤ 2 ^ 40) r.items) }
{
    let runs = runs_of(alloc, v, blocks)?;
    Ok(runs)
}

/// The asks that are made, in order, still without keys. The waits need the positions that are given.
pub fn new_asks(
    alloc: Global,
    item: ItemId,
    v: &Sight,
    waits: &[LiveWait],
    needs: &[Span],
    asks: &[LiveAsk],
) -> Result<Vec<LiveAsk>, OutOfMemory>
    requires runs { IsRuns needs.now }
    requires wants { Wants v.now needs.now (is_wanted item v.now waits.now) }
    ensures { IfOk result (λ r. r.items ≡ new_asks item v.now waits.now asks.now) }
{
    let mut all = data_asks(alloc, item, v, waits, needs, asks)?;
    let mut lists = list_asks(alloc, item, waits, asks)?;
    let mut dehydrations = dehydrate_asks(alloc, item, waits, asks)?;
    lists.append(&mut dehydrations)?;
    all.append(&mut lists)?;
    Ok(all)
}
