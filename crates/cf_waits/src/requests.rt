//! The waits and asks that are live, and the steps that change them.
ghost use Rattle.std.specs.Prelude.{◌≡◌, ◌+◌, ◌≤◌, ◌^◌, false, length, map, true, IfOk, OnErr, OnOk, None};
ghost use Rattle.std.specs.List.{AllByRecursion};
ghost use Rattle.cf_ask_rule.specs.Deeds.{deed_of};
ghost use Rattle.cf_ask_rule.specs.Near.{is_on};
ghost use Rattle.cf_ask_rule.specs.Sights.{shown};
ghost use Rattle.cf_base.specs.declared.limits.TheConstants.{MOST_NUMBER};
ghost use Rattle.cf_model.specs.Asks.{downed, step_of};
ghost use Rattle.cf_base.specs.declared.waits.Cause.TheVariants as cause;
ghost use Rattle.cf_model.specs.Requests.{no_numbers, none_waiting, with_waits};
ghost use Rattle.cf_waits.specs.Rising.{AreNext};
ghost use Rattle.cf_waits.specs.Sound.{IsSound};
ghost use Rattle.cf_waits.specs.Steps.{IsPlanned, carried, limit_of, moved_of, turned};

use crate::ask_books::AskBook;
use crate::begins::with_begun;
use crate::limits::Limits;
use crate::moves::{Moves, public_of, told, with_keys};
use crate::plans::{named_by, step_of};
use crate::turns::{make_room, turn_asks, turn_waits};
use crate::wait_books::WaitBook;
use cf_ask_rule::{Act, LiveAsk, LiveWait, Sight, View, make_plan};
use cf_base::{Cause, Code, ItemId, Key, OutOfMemory, Sequence, WaitId};
use std::alloc::Global;
use std::marker::Model;

/// The waits and asks that are live, and the numbers that the epoch has given to them.
#[derive(Drop)]
pub struct Requests {
    pub(crate) alloc: Global,
    pub(crate) epoch: u32,
    pub(crate) waits: WaitBook,
    pub(crate) asks: AskBook,
    pub(crate) wait_count: u64,
    pub(crate) key_count: u64,
    // The item of the last step, and what was seen of it: nothing is left to do for it.
    pub(crate) last: Option<(ItemId, Sight)>,
}

impl Model for Requests {
    ghost use Rattle.cf_base.specs.declared.limits.TheConstants.{MOST_NUMBER};
    ghost use Rattle.std.specs.Prelude.{◌≤◌, IfSome};
    ghost use Rattle.cf_ask_rule.specs.Settled.{IsSettled};
    ghost use Rattle.cf_model.specs.Requests.{Waiting};
    ghost use Rattle.cf_waits.specs.Sound.{IsSound};

    ghost Value = { Waiting };

    ghost view = { λ r. record { epoch = r.epoch; waits = r.waits.waits; asks = r.asks.asks; wait_count = r.wait_count; key_count = r.key_count } };

    ghost invariant = { λ r. (r.wait_count ≤ MOST_NUMBER) × (r.key_count ≤ MOST_NUMBER) × IsSound (record { epoch = r.epoch; waits = r.waits.waits; asks = r.asks.asks; wait_count = r.wait_count; key_count = r.key_count }) × IfSome r.last (λ p. IsSettled p.0 p.1 r.waits.waits r.asks.asks) };
}

/// A step that was worked out and is not done yet: what it changes.
#[derive(Drop)]
pub struct Step {
    pub(crate) ended: Vec<(LiveWait, Cause)>,
    pub(crate) cancelled: Vec<Key>,
    // The ask that is over without a line.
    pub(crate) dropped: Option<Key>,
    // The ask that blocks have left.
    pub(crate) changed: Option<LiveAsk>,
    // Still without keys.
    pub(crate) made: Vec<LiveAsk>,
    pub(crate) item: ItemId,
    // What was seen of the item.
    pub(crate) sight: Sight,
}

impl Model for Step {
    ghost use Rattle.std.specs.Prelude.{◌≡◌};
    ghost use Rattle.std.specs.List.{AllByRecursion};
    ghost use Rattle.cf_ask_rule.specs.Plans.{Planned};

    ghost Value = { Planned };

    ghost view = { λ s. record { ended = s.ended.items; cancelled = s.cancelled.items; dropped = s.dropped; changed = s.changed; made = s.made.items; item = s.item; view = s.sight } };

    ghost invariant = { λ s. AllByRecursion (λ a. a.ticks ≡ 0) s.made.items };
}

impl Requests {
    /// Nothing waits, and nothing is asked.
    pub fn new(alloc: Global, epoch: u32) -> Requests
        ensures { result ≡ none_waiting epoch }
    {
        Requests {
            alloc,
            epoch,
            waits: WaitBook::new(alloc),
            asks: AskBook::new(alloc),
            wait_count: 0,
            key_count: 0,
            last: None,
        }
    }

    /// Works out a step on the item, and changes nothing.
    pub fn look(&self, item: ItemId, act: Act, v: &View) -> Result<Step, OutOfMemory>
        requires size { v.now.size ≤ 2 ^ 24 }
        requires base { v.now.base ≤ 2 ^ 24 }
        ensures planned { IfOk result (λ s. carried s self.now ≡ step_of item (shown v.now) (deed_of act) self.now) }
        ensures seen { IfOk result (λ s. (s.item ≡ item) × (s.view ≡ shown v.now)) }
    {
        let sight = Sight::new(self.alloc, v)?;
        match self.look_changed(item, act, &sight)? {
            Some(changed) => Ok(changed.step(self.alloc, item, sight)),
            None => self.look_by(item, act, sight, &[]),
        }
    }

    /// Works out a step on the item, on which these waits begin. It looks at the waits and asks on the item alone.
    pub(crate) fn look_by(
        &self,
        item: ItemId,
        act: Act,
        sight: Sight,
        begun: &[LiveWait],
    ) -> Result<Step, OutOfMemory>
        requires next { AreNext begun.now self.now }
        requires on { AllByRecursion (λ w. is_on item w ≡ true) begun.now }
        ensures planned { IfOk result (λ s. carried s (with_waits begun.now self.now) ≡ step_of item sight (deed_of act) (with_waits begun.now self.now)) }
        ensures seen { IfOk result (λ s. (s.item ≡ item) × (s.view ≡ sight)) }
    {
        let live = self.waits.on(self.alloc, item, begun.len())?;
        let waits = with_begun(live, begun)?;
        let asks = self.asks.near(self.alloc, item, named_by(act))?;
        let plan = make_plan(self.alloc, item, &sight, act, &waits, asks)?;
        let step = step_of(item, sight, act, plan)?;
        Ok(step)
    }

    /// The first limit that the step would pass.
    pub(crate) fn limit_after(&self, step: &Step, limits: Limits) -> Option<Code>
        ensures { result ≡ limit_of limits (carried step.now self.now).1 }
    {
        self.limit_with(step, &[], limits)
    }

    /// Whether the numbers of the epoch would not suffice for the step.
    pub fn has_no_numbers(&self, step: &Step) -> bool
        ensures { result ≡ no_numbers (carried step.now self.now).1 }
    {
        self.has_no_numbers_with(step, &[])
    }

    /// Does a step that was worked out for what waits and is asked now, and for which the numbers of the epoch suffice.
    pub fn take(&mut self, step: Step) -> Result<Moves, OutOfMemory>
        requires planned { IsPlanned step self.old }
        requires numbers { no_numbers (carried step self.old).1 ≡ false }
        ensures moves { IfOk result (λ m. m ≡ moved_of None (carried step self.old).0) }
        ensures ok { OnOk result (self.new ≡ (carried step self.old).1) }
        ensures err { OnErr result (self.new ≡ self.old) }
    {
        self.take_with(step, &[], None)
    }

    /// Does a step with which these waits begin.
    pub(crate) fn take_with(
        &mut self,
        step: Step,
        begun: &[LiveWait],
        background: Option<WaitId>,
    ) -> Result<Moves, OutOfMemory>
        requires planned { IsPlanned step (with_waits begun.now self.old) }
        requires next { AreNext begun.now self.old }
        requires numbers { no_numbers (carried step (with_waits begun.now self.old)).1 ≡ false }
        ensures moves { IfOk result (λ m. m ≡ moved_of background (carried step (with_waits begun.now self.old)).0) }
        ensures ok { OnOk result (self.new ≡ (carried step (with_waits begun.now self.old)).1) }
        ensures err { OnErr result (self.new ≡ self.old) }
    {
        let Step {
            ended,
            cancelled,
            dropped,
            changed,
            made,
            item,
            sight,
        } = step;
        let keyed = with_keys(self.alloc, self.epoch, self.key_count, &made)?;
        let asks = public_of(self.alloc, &keyed)?;
        let told = told(self.alloc, &ended)?;
        self.turn(begun, &ended, &cancelled, dropped, changed, keyed)?;
        self.remember(item, sight);
        Ok(Moves {
            background,
            ended: Sequence::from_vec(told),
            cancelled: Sequence::from_vec(cancelled),
            asks: Sequence::from_vec(asks),
        })
    }

    // Waits begin and end, and asks go, change and come, under the next numbers.
    fn turn(
        &mut self,
        begun: &[LiveWait],
        ended: &[(LiveWait, Cause)],
        cancelled: &[Key],
        dropped: Option<Key>,
        changed: Option<LiveAsk>,
        made: Vec<LiveAsk>,
    ) -> Result<(), OutOfMemory>
        requires next { AreNext begun.now self.old }
        requires begins { AllByRecursion (λ a. a.ticks ≡ 0) made.items }
        requires sound { IsSound (turned begun.now ended.now cancelled.now dropped changed made.items self.old) }
        requires waits { self.old.wait_count + length begun.now ≤ MOST_NUMBER }
        requires keys { self.old.key_count + length made.items ≤ MOST_NUMBER }
        ensures ok { OnOk result (self.new ≡ turned begun.now ended.now cancelled.now dropped changed made.items self.old) }
        ensures err { OnErr result (self.new ≡ self.old) }
    {
        self.last = None;
        let waits = begun.len();
        let asks = made.len();
        make_room(&mut self.waits, &mut self.asks, waits, asks)?;
        turn_waits(&mut self.waits, begun, ended);
        turn_asks(&mut self.asks, cancelled, dropped, changed, made);
        self.wait_count += waits as u64;
        self.key_count += asks as u64;
        Ok(())
    }

    /// Ends all waits, as the provider is gone, and all asks without a line.
    pub fn down(&mut self) -> Result<Moves, OutOfMemory>
        ensures moves { IfOk result (λ m. m ≡ moved_of None (downed self.old).0) }
        ensures ok { OnOk result (self.new ≡ (downed self.old).1) }
        ensures err { OnErr result (self.new ≡ self.old) }
    {
        let ended = all_down(self.alloc, self.waits.waits())?;
        let ended = told(self.alloc, &ended)?;
        self.last = None;
        self.waits = WaitBook::new(self.alloc);
        self.asks = AskBook::new(self.alloc);
        Ok(Moves {
            background: None,
            ended: Sequence::from_vec(ended),
            cancelled: Sequence::new(self.alloc),
            asks: Sequence::new(self.alloc),
        })
    }
}

fn all_down(alloc: Global, waits: &[LiveWait]) -> Result<Vec<(LiveWait, Cause)>, OutOfMemory>
    ensures { IfOk result (λ v. v.items ≡ map (λ w. (w, cause.Down)) waits.now) }
{
    Ok(waits.iter().map(|w| (*w, Cause::Down)).collect(alloc)?)
}
