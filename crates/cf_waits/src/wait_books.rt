//! The live waits, by number and by item.
ghost use Rattle.std.specs.Prelude.{◌≡◌, ◌+◌, ◌<◌, ◌≤◌, ◌++◌, ◌∷◌, ◌&&◌, ◌==◌, [], cond, false, filter, length, not, IfOk, IsTrue, OnOk, Some};
ghost use Rattle.std.specs.List.{AllByRecursion, list_any};
ghost use Rattle.cf_ask_rule.specs.Narrowing.{AreNear, is_awaited};
ghost use Rattle.cf_ask_rule.specs.Near.{is_on};
ghost use Rattle.cf_model.specs.Numbers.{same_key};
ghost use Rattle.cf_model.specs.Requests.{is_background, is_dehydrate_wait, is_hydrate_wait, is_list_wait};
ghost use Rattle.cf_model.specs.Words.{is_empty, says};
ghost use Rattle.cf_waits.specs.Books.{HoldsWaits, at_number, found_of, is_plain_wait, wait_entry};
ghost use Rattle.cf_waits.specs.Rising.{IsRising, wait_key};
ghost use Rattle.cf_waits.specs.Told.{is_wait_by, wait_of};

use crate::entries::{Entry, add_entry, entries_on, remove_entry};
use crate::lines::{line_left, line_with, near_by};
use crate::wait_lists::{find_wait, place_from, take_wait, wait_at, wait_there};
use cf_ask_rule::{
    Change, LiveAsk, LiveWait, Sight, WaitNumber, is_awaited, is_background, is_dehydrate_wait,
    is_hydrate_wait, is_list_wait, positions_of,
};
use cf_base::{AskKind, ItemId, OutOfMemory, WaitId};
use std::alloc::Global;
use std::marker::Model;

/// The live waits in order of number, their index by item, and how many of them count for the limit.
#[derive(Drop)]
pub(crate) struct WaitBook {
    waits: Vec<LiveWait>,
    index: Vec<Entry>,
    plain: usize,
    // Where the waits end, while they are reads each of which begins behind the one before.
    line: Option<u64>,
}

impl Model for WaitBook {
    ghost use Rattle.std.specs.Prelude.{min, ◌-◌};
    ghost use Rattle.std.specs.Vec.{vec_capacity, vec_len};
    ghost use Rattle.cf_waits.specs.Books.{HoldsWaits, KeptWaits};

    ghost Value = { KeptWaits };

    ghost view = { λ b. record { waits = b.waits.items; room = min (vec_capacity b.waits - vec_len b.waits) (vec_capacity b.index - vec_len b.index) } };

    ghost invariant = { λ b. HoldsWaits b.waits.items b.index.items b.plain b.line };
}

fn entry_of(w: &LiveWait) -> Entry
    ensures { result ≡ wait_entry w.now }
{
    Entry {
        item: w.item(),
        number: w.id().number(),
    }
}

fn plain_count(w: &LiveWait) -> usize
    ensures { result ≡ cond (is_plain_wait w.now) 1 0 }
{
    if is_dehydrate_wait(w.kind()) { 0 } else { 1 }
}

impl WaitBook {
    pub(crate) fn new(alloc: Global) -> WaitBook
        ensures { result.waits ≡ [] }
    {
        WaitBook {
            waits: Vec::new(alloc),
            index: Vec::new(alloc),
            plain: 0,
            line: Some(0),
        }
    }

    /// Makes room for so many more.
    pub(crate) fn reserve(&mut self, more: usize) -> Result<(), OutOfMemory>
        ensures same { self.new.waits ≡ self.old.waits }
        ensures room { OnOk result (more ≤ self.new.room) }
    {
        self.waits.reserve(more)?;
        self.index.reserve(more)?;
        Ok(())
    }

    /// Adds a wait whose number is above all others, and for which there is room.
    pub(crate) fn add(&mut self, w: LiveWait)
        requires rising { IsRising wait_key (self.old.waits ++ w ∷ []) }
        requires room { 0 < self.old.room }
        ensures waits { self.new.waits ≡ self.old.waits ++ w ∷ [] }
        ensures room { self.old.room ≤ self.new.room + 1 }
    {
        let entry = entry_of(&w);
        let more = plain_count(&w);
        let line = line_with(self.line, &w);
        self.waits.push(w).unwrap();
        add_entry(&mut self.index, entry);
        self.plain += more;
        self.line = line;
    }

    /// Takes the wait of a number out, if there is one.
    pub(crate) fn remove(&mut self, id: WaitNumber)
        ensures waits { self.new.waits ≡ filter (λ w. not (same_key id.0 w.id.0)) self.old.waits }
        ensures room { self.old.room ≤ self.new.room }
    {
        let Some(w) = take_wait(&mut self.waits, id) else {
            return;
        };
        remove_entry(&mut self.index, entry_of(&w));
        self.plain -= plain_count(&w);
        self.line = line_left(self.line, &self.waits);
    }

    /// The waits in order of number.
    pub(crate) fn waits(&self) -> &[LiveWait]
        ensures { result.now ≡ self.now.waits }
    {
        &self.waits
    }

    /// Waits among which are all on the item that need something of the span. By halves where they stand in line, and else by one
    /// pass over all.
    pub(crate) fn near(&self, item: ItemId, v: &Sight, span: Change) -> &[LiveWait]
        ensures { AreNear item v.now span.start span.end result.now self.now.waits }
    {
        near_by(&self.waits, self.line, item, v, span)
    }

    /// Whether a wait on the item misses a byte in the blocks of the ask, if there is one. It looks at the waits that need something
    /// from the first to the last of these blocks, up to one that does.
    pub(crate) fn is_awaited(&self, item: ItemId, v: &Sight, ask: &Option<LiveAsk>) -> bool
        ensures { result ≡ is_awaited item v.now self.now.waits ask.now }
    {
        match ask {
            Some(a) => self.awaits(item, v, a),
            None => true,
        }
    }

    fn awaits(&self, item: ItemId, v: &Sight, a: &LiveAsk) -> bool
        ensures { result ≡ is_awaited item v.now self.now.waits (Some a.now) }
    {
        let _size = v.size();
        let span = positions_of(a);
        is_awaited(item, v, self.near(item, v, span), a)
    }

    /// Whether `near` is worth it: by halves, or by a pass of which the waits on the item are a good share.
    pub(crate) fn is_quick(&self, item: ItemId) -> bool {
        if self.line.is_some() {
            return true;
        }
        let count = entries_on(&self.index, item).len();
        count >= self.waits.len() / 4
    }

    /// Whether there is none.
    pub(crate) fn is_empty(&self) -> bool
        ensures { result ≡ is_empty self.now.waits }
    {
        self.waits.is_empty()
    }

    /// Whether no wait is for a dehydration, as is known by the count.
    pub(crate) fn is_plain(&self) -> bool
        ensures { IsTrue result → AllByRecursion (λ w. is_dehydrate_wait w.kind ≡ false) self.now.waits }
    {
        self.plain == self.waits.len()
    }

    /// How many count for the limit.
    pub(crate) fn plain(&self) -> usize
        ensures { result ≡ length (filter is_plain_wait self.now.waits) }
    {
        self.plain
    }

    /// The live wait of a number.
    pub(crate) fn find(&self, wait: WaitId) -> Option<LiveWait>
        ensures { result ≡ wait_of self.now.waits wait }
    {
        find_wait(&self.waits, wait)
    }

    /// The waits on an item, in order of number, with room for so many more.
    pub(crate) fn on(
        &self,
        alloc: Global,
        item: ItemId,
        more: usize,
    ) -> Result<Vec<LiveWait>, OutOfMemory>
        ensures { IfOk result (λ v. v.items ≡ filter (is_on item) self.now.waits) }
    {
        found_of(alloc, &self.waits, entries_on(&self.index, item), more)
    }

    /// Whether a wait on the item is live.
    pub(crate) fn has_any(&self, item: ItemId) -> bool
        ensures { result ≡ list_any (λ w. w.item.0 == item.0) self.now.waits }
    {
        !entries_on(&self.index, item).is_empty()
    }

    /// Whether a hydrate wait on the item is live.
    pub(crate) fn has_hydrate(&self, item: ItemId) -> bool
        ensures { result ≡ list_any (λ w. (w.item.0 == item.0) && is_hydrate_wait w.kind) self.now.waits }
    {
        any_hydrate(&self.waits, entries_on(&self.index, item))
    }

    /// Whether a background wait on the item is live.
    pub(crate) fn has_background(&self, item: ItemId) -> bool
        ensures { result ≡ list_any (λ w. (w.item.0 == item.0) && is_background w.kind) self.now.waits }
    {
        any_background(&self.waits, entries_on(&self.index, item))
    }

    /// Whether a wait on the item is live that is not one of an ask of this kind, for this wait.
    pub(crate) fn has_other(&self, item: ItemId, kind: AskKind, wait: WaitNumber) -> bool
        ensures { result ≡ list_any (λ w. (w.item.0 == item.0) && not (is_wait_by kind wait w)) self.now.waits }
    {
        any_other(&self.waits, entries_on(&self.index, item), kind, wait)
    }
}

// The waits on one item mostly stand side by side, so the place after the last found is tried first.
fn found_of(
    alloc: Global,
    waits: &[LiveWait],
    entries: &[Entry],
    more: usize,
) -> Result<Vec<LiveWait>, OutOfMemory>
    requires { IsRising wait_key waits.now }
    ensures { IfOk result (λ v. v.items ≡ found_of wait_key waits.now entries.now) }
{
    let mut out = Vec::with_capacity(alloc, entries.len().saturating_add(more))?;
    let mut next = 0;
    for e in entries {
        let place = place_from(waits, next, e.number);
        if let Some(w) = wait_there(waits, place, e.number) {
            out.push(w)?;
        }
        next = place.saturating_add(1);
    }
    Ok(out)
}

fn is_hydrate_at(waits: &[LiveWait], e: Entry) -> bool
    requires { IsRising wait_key waits.now }
    ensures { result ≡ says (λ w. is_hydrate_wait w.kind) (at_number wait_key e.number waits.now) }
{
    match wait_at(waits, e.number) {
        Some(w) => is_hydrate_wait(w.kind()),
        None => false,
    }
}

fn any_hydrate(waits: &[LiveWait], entries: &[Entry]) -> bool
    requires { IsRising wait_key waits.now }
    ensures { result ≡ list_any (λ e. says (λ w. is_hydrate_wait w.kind) (at_number wait_key e.number waits.now)) entries.now }
{
    entries.iter().any(|e| is_hydrate_at(waits, *e))
}

fn is_background_at(waits: &[LiveWait], e: Entry) -> bool
    requires { IsRising wait_key waits.now }
    ensures { result ≡ says (λ w. is_background w.kind) (at_number wait_key e.number waits.now) }
{
    match wait_at(waits, e.number) {
        Some(w) => is_background(w.kind()),
        None => false,
    }
}

fn any_background(waits: &[LiveWait], entries: &[Entry]) -> bool
    requires { IsRising wait_key waits.now }
    ensures { result ≡ list_any (λ e. says (λ w. is_background w.kind) (at_number wait_key e.number waits.now)) entries.now }
{
    entries.iter().any(|e| is_background_at(waits, *e))
}

fn is_wait_by(kind: AskKind, wait: WaitNumber, w: &LiveWait) -> bool
    ensures { result ≡ is_wait_by kind wait w.now }
{
    match kind {
        AskKind::List => is_list_wait(w.kind()),
        AskKind::Dehydrate => w.id().is(wait),
        AskKind::Fetch => false,
        AskKind::Validate => false,
    }
}

fn is_other_at(waits: &[LiveWait], e: Entry, kind: AskKind, wait: WaitNumber) -> bool
    requires { IsRising wait_key waits.now }
    ensures { result ≡ says (λ w. not (is_wait_by kind wait w)) (at_number wait_key e.number waits.now) }
{
    match wait_at(waits, e.number) {
        Some(w) => !is_wait_by(kind, wait, &w),
        None => false,
    }
}

fn any_other(waits: &[LiveWait], entries: &[Entry], kind: AskKind, wait: WaitNumber) -> bool
    requires { IsRising wait_key waits.now }
    ensures { result ≡ list_any (λ e. says (λ w. not (is_wait_by kind wait w)) (at_number wait_key e.number waits.now)) entries.now }
{
    entries.iter().any(|e| is_other_at(waits, *e, kind, wait))
}
