//! The live asks, by key and by item, with the ticks at which their time began.
ghost use Rattle.std.specs.Prelude.{◌≡◌, ℕ, ◌+◌, ◌^◌, ◌<◌, ◌≤◌, ◌++◌, ◌∷◌, ◌&&◌, [], cond, count_by, filter, length, List, map, nat_le, None, not, true, IfOk, IfSome, IsTrue, OnOk};
ghost use Rattle.std.specs.List.{AllByRecursion, list_any};
ghost use Rattle.std.specs.Option.{option_map};
ghost use Rattle.cf_ask_rule.specs.Fronts.{EndsBy, NeedsFrom};
ghost use Rattle.cf_ask_rule.specs.Near.{is_near};
ghost use Rattle.cf_base.specs.declared.ids.ItemId.{ItemId};
ghost use Rattle.cf_model.specs.Asks.{new_asks};
ghost use Rattle.cf_model.specs.Missing.{View, Wait};
ghost use Rattle.cf_model.specs.Numbers.{same_key};
ghost use Rattle.cf_model.specs.Requests.{aged, is_data, live_of};
ghost use Rattle.cf_model.specs.Words.{counting};
ghost use Rattle.cf_waits.specs.Books.{aged_at, found_of, is_far, is_list_ask, is_plain_ask};
ghost use Rattle.cf_waits.specs.Rising.{IsRising, ask_key};
ghost use Rattle.cf_waits.specs.Steps.{is_gone};
ghost use Rattle.cf_waits.specs.Told.{first_key, owns_by};

use crate::ask_ages::{base_of, bring_forward, first_of_age, keys_of_age, oldest_of};
use crate::ask_lists::{
    ask_there, change_ask, entry_of, find_ask, has_key, list_count, owns_by, place_from,
    plain_count, take_ask, told_of,
};
use crate::entries::{Entry, add_entry, entries_on, remove_entry};
use cf_ask_rule::{LiveAsk, WaitNumber, is_dehydrate, is_same_key};
use cf_base::{Ask, ItemId, Key, OutOfMemory, Span};
use std::alloc::Global;
use std::marker::Model;

/// The live asks in order of key, and their index by item. Of an ask the tick is kept at which its time began, and of all
/// one that is not after any of these. Some asks count for the limit, some are for entries.
#[derive(Drop)]
pub(crate) struct AskBook {
    asks: Vec<LiveAsk>,
    index: Vec<Entry>,
    plain: usize,
    lists: usize,
    oldest: u64,
    tick: u64,
    // No ask has a block from there on, up to 2^32.
    end: u64,
}

impl Model for AskBook {
    ghost use Rattle.std.specs.Prelude.{map, min, ◌-◌};
    ghost use Rattle.std.specs.Vec.{vec_capacity, vec_len};
    ghost use Rattle.cf_waits.specs.Books.{HoldsAsks, KeptAsks, aged_at};

    ghost Value = { KeptAsks };

    ghost view = { λ b. record { asks = map (aged_at b.tick) b.asks.items; room = min (vec_capacity b.asks - vec_len b.asks) (vec_capacity b.index - vec_len b.index) } };

    ghost invariant = { λ b. HoldsAsks b.asks.items b.index.items b.plain b.lists b.oldest b.tick b.end };
}

impl AskBook {
    pub(crate) fn new(alloc: Global) -> AskBook
        ensures { result.asks ≡ [] }
    {
        AskBook {
            asks: Vec::new(alloc),
            index: Vec::new(alloc),
            plain: 0,
            lists: 0,
            oldest: 0,
            tick: 0,
            end: 0,
        }
    }

    /// Makes room for so many more.
    pub(crate) fn reserve(&mut self, more: usize) -> Result<(), OutOfMemory>
        ensures same { self.new.asks ≡ self.old.asks }
        ensures room { OnOk result (more ≤ self.new.room) }
    {
        self.asks.reserve(more)?;
        self.index.reserve(more)?;
        Ok(())
    }

    /// Adds an ask whose key is above all others and whose time begins now, and for which there is room.
    pub(crate) fn add(&mut self, a: LiveAsk)
        requires rising { IsRising ask_key (self.old.asks ++ a ∷ []) }
        requires begins { a.ticks ≡ 0 }
        requires room { 0 < self.old.room }
        ensures asks { self.new.asks ≡ self.old.asks ++ a ∷ [] }
        ensures room { self.old.room ≤ self.new.room + 1 }
    {
        let mut own = a;
        own.set_ticks(self.tick);
        let entry = entry_of(&own);
        let plain = plain_count(&own);
        let lists = list_count(&own);
        let end = self.end.max(own.block_end());
        self.asks.push(own).unwrap();
        add_entry(&mut self.index, entry);
        self.plain += plain;
        self.lists += lists;
        self.end = end;
    }

    /// Takes the ask of a key out, if there is one.
    pub(crate) fn remove(&mut self, key: Key)
        ensures asks { self.new.asks ≡ filter (λ a. not (same_key key a.ask.key)) self.old.asks }
        ensures room { self.old.room ≤ self.new.room }
    {
        let Some(a) = take_ask(&mut self.asks, key) else {
            return;
        };
        remove_entry(&mut self.index, entry_of(&a));
        self.plain -= plain_count(&a);
        self.lists -= list_count(&a);
        self.end = end_left(self.end, &self.asks);
    }

    /// The live ask of the same key owns the blocks of this one from now on, and its time begins anew.
    pub(crate) fn change(&mut self, from: LiveAsk)
        ensures asks { self.new.asks ≡ map (λ a. cond (same_key from.ask.key a.ask.key) (record a { owned = from.owned; ticks = 0 }) a) self.old.asks }
        ensures room { self.old.room ≤ self.new.room }
    {
        let end = self.end.max(from.block_end());
        change_ask(&mut self.asks, from, self.tick);
        self.end = end;
    }

    /// The asks where they stand, their ticks as they are kept.
    pub(crate) fn kept(&self) -> &[LiveAsk]
        ensures same { (tick : ℕ) × (map (aged_at tick) result.now ≡ self.now.asks) }
        ensures rising { IsRising ask_key result.now }
    {
        &self.asks
    }

    /// Asks that are as good as all for waits that need nothing before this block, where there is one.
    pub(crate) fn behind(&self, first: Option<u64>) -> &[LiveAsk]
        ensures { (item : ItemId) (v : View) (ws : List Wait) → length v.lacks ≤ 2 ^ 24 → IfSome first (λ n. AllByRecursion (NeedsFrom v n) ws) → new_asks item v ws result.now ≡ new_asks item v ws self.now.asks }
    {
        asks_from(&self.asks, self.end, first)
    }

    /// Whether each ask is for bytes, as is known by the counts.
    pub(crate) fn is_data(&self) -> bool
        ensures { IsTrue result → AllByRecursion (λ a. is_data a.ask.kind ≡ true) self.now.asks }
    {
        self.lists == 0 && self.plain == self.asks.len()
    }

    /// How many count for the limit.
    pub(crate) fn plain(&self) -> usize
        ensures { result ≡ length (filter is_plain_ask self.now.asks) }
    {
        self.plain
    }

    /// How many would count for the limit without these.
    pub(crate) fn plain_but(&self, cancelled: &[Key], dropped: Option<Key>) -> usize
        ensures { result ≡ count_by (λ a. not (is_gone cancelled.now dropped a) && is_plain_ask a) self.now.asks }
    {
        plain_but(&self.asks, cancelled, dropped)
    }

    /// Whether a list ask is live.
    pub(crate) fn has_list(&self) -> bool
        ensures { result ≡ list_any is_list_ask self.now.asks }
    {
        self.lists > 0
    }

    /// The live ask of a key, and the wait that it has.
    pub(crate) fn find(&self, key: Key) -> Option<(Ask, WaitNumber)>
        ensures { result ≡ option_map (λ a. (a.ask, a.wait)) (live_of self.now.asks key) }
    {
        told_of(find_ask(&self.asks, key))
    }

    /// Whether the ask of the key is live and owns each of the blocks.
    pub(crate) fn owns(&self, key: Key, blocks: Span) -> bool
        ensures { result ≡ owns_by (counting blocks.start blocks.len) (live_of self.now.asks key) }
    {
        owns_by(find_ask(&self.asks, key), blocks)
    }

    /// The asks on an item and the one of a key, in order of key.
    pub(crate) fn near(
        &self,
        alloc: Global,
        item: ItemId,
        key: Option<Key>,
    ) -> Result<Vec<LiveAsk>, OutOfMemory>
        ensures { IfOk result (λ v. v.items ≡ filter (is_near item key) self.now.asks) }
    {
        if is_far(&self.asks, item, key) {
            return near_of(alloc, &self.asks, item, key, self.tick);
        }
        found_of(alloc, &self.asks, entries_on(&self.index, item), self.tick)
    }

    /// The least key of an ask on which 60 ticks or more will have passed after that many more.
    pub(crate) fn next_expired(&self, ticks: u32) -> Option<Key>
        ensures { result ≡ first_key (filter (λ a. nat_le 60 a.ticks) (map (aged ticks) self.now.asks)) }
    {
        let least = 60u32.saturating_sub(ticks) as u64;
        if self.tick - self.oldest < least {
            return None;
        }
        first_of_age(&self.asks, self.tick, least)
    }

    /// The keys of the asks on which 60 ticks or more have passed, in order.
    pub(crate) fn expired_keys(&self, alloc: Global) -> Result<Vec<Key>, OutOfMemory>
        ensures { IfOk result (λ keys. keys.items ≡ map (λ a. a.ask.key) (filter (λ a. nat_le 60 a.ticks) self.now.asks)) }
    {
        if self.tick - self.oldest < 60 {
            return Ok(Vec::new(alloc));
        }
        let keys = keys_of_age(alloc, &self.asks, self.tick)?;
        Ok(keys)
    }

    /// So many ticks pass.
    pub(crate) fn advance(&mut self, ticks: u32)
        requires { first_key (filter (λ a. nat_le 60 a.ticks) (map (aged 0) self.old.asks)) ≡ None }
        ensures { self.new.asks ≡ map (aged ticks) self.old.asks }
    {
        let base = base_of(self.tick);
        bring_forward(&mut self.asks, base);
        let tick = self.tick - base + ticks as u64;
        self.oldest = oldest_of(&self.asks, self.oldest.saturating_sub(base), tick);
        self.tick = tick;
    }
}

// No end, where no ask is left.
fn end_left(end: u64, left: &[LiveAsk]) -> u64
    ensures { AllByRecursion (EndsBy end) left.now → AllByRecursion (EndsBy result) left.now }
{
    match left {
        [] => 0,
        _ => end,
    }
}

fn asks_from(asks: &[LiveAsk], end: u64, first: Option<u64>) -> &[LiveAsk]
    requires { AllByRecursion (EndsBy end) asks.now }
    ensures { (item : ItemId) (v : View) (ws : List Wait) → length v.lacks ≤ 2 ^ 24 → IfSome first (λ n. AllByRecursion (NeedsFrom v n) ws) → new_asks item v ws result.now ≡ new_asks item v ws asks.now }
{
    match first {
        Some(block) => asks_behind(asks, end, block),
        None => asks,
    }
}

fn asks_behind(asks: &[LiveAsk], end: u64, block: u64) -> &[LiveAsk]
    requires { AllByRecursion (EndsBy end) asks.now }
    ensures { (item : ItemId) (v : View) (ws : List Wait) → length v.lacks ≤ 2 ^ 24 → AllByRecursion (NeedsFrom v block) ws → new_asks item v ws result.now ≡ new_asks item v ws asks.now }
{
    if block < end {
        return asks;
    }
    &asks[..0]
}

// The asks on one item mostly stand side by side, so the place after the last found is tried first.
fn found_of(
    alloc: Global,
    asks: &[LiveAsk],
    entries: &[Entry],
    tick: u64,
) -> Result<Vec<LiveAsk>, OutOfMemory>
    requires { IsRising ask_key asks.now }
    ensures { IfOk result (λ v. v.items ≡ map (aged_at tick) (found_of ask_key asks.now entries.now)) }
{
    let mut out = Vec::with_capacity(alloc, entries.len())?;
    let mut next = 0;
    for e in entries {
        let place = place_from(asks, next, e.number);
        if let Some(a) = ask_there(asks, place, e.number) {
            out.push(a.copy_at(tick.saturating_sub(a.ticks()))?)?;
        }
        next = place.saturating_add(1);
    }
    Ok(out)
}

// Whether the ask of the key is live, and on another item.
fn is_far(asks: &[LiveAsk], item: ItemId, key: Option<Key>) -> bool
    requires { IsRising ask_key asks.now }
    ensures { result ≡ is_far item asks.now key }
{
    let Some(key) = key else {
        return false;
    };
    match find_ask(asks, key) {
        Some(a) => a.ask().item.0 != item.0,
        None => false,
    }
}

fn is_near(a: &LiveAsk, item: ItemId, key: Option<Key>) -> bool
    ensures { result ≡ is_near item key a.now }
{
    if a.ask().item.0 == item.0 {
        return true;
    }
    match key {
        Some(k) => is_same_key(a.ask().key, k),
        None => false,
    }
}

// By a walk over all. No caller names an ask of another item.
fn near_of(
    alloc: Global,
    asks: &[LiveAsk],
    item: ItemId,
    key: Option<Key>,
    tick: u64,
) -> Result<Vec<LiveAsk>, OutOfMemory>
    ensures { IfOk result (λ v. v.items ≡ map (aged_at tick) (filter (is_near item key) asks.now)) }
{
    let mut out = Vec::new(alloc);
    for a in asks {
        if is_near(a, item, key) {
            out.push(a.copy_at(tick.saturating_sub(a.ticks()))?)?;
        }
    }
    Ok(out)
}

fn is_gone(a: &LiveAsk, cancelled: &[Key], dropped: Option<Key>) -> bool
    ensures { result ≡ is_gone cancelled.now dropped a.now }
{
    if has_key(cancelled, a.ask().key) {
        return true;
    }
    match dropped {
        Some(k) => is_same_key(a.ask().key, k),
        None => false,
    }
}

fn plain_but(asks: &[LiveAsk], cancelled: &[Key], dropped: Option<Key>) -> usize
    ensures { result ≡ count_by (λ a. not (is_gone cancelled.now dropped a) && is_plain_ask a) asks.now }
{
    asks.iter()
        .filter(|a| !is_gone(a, cancelled, dropped) && !is_dehydrate(a.ask().kind))
        .count()
}
