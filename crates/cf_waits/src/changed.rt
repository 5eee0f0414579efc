//! Steps on the item that was looked at last, by what changed of it since.
ghost use Rattle.std.specs.Prelude.{◌≡◌, [], false, true, IfOk, IfSome, IsTrue};
ghost use Rattle.std.specs.List.{AllByRecursion};
ghost use Rattle.cf_ask_rule.specs.Deeds.{deed_of};
ghost use Rattle.cf_ask_rule.specs.Settled.{IsSettled};
ghost use Rattle.cf_model.specs.Asks.{step_of};
ghost use Rattle.cf_model.specs.Requests.{Expires, Leaves, is_data, is_dehydrate_wait};
ghost use Rattle.cf_model.specs.Words.{counting};
ghost use Rattle.cf_waits.specs.Deltas.{unless_kept};
ghost use Rattle.cf_waits.specs.Steps.{carried};

use crate::ask_lists::find_ask;
use crate::requests::{Requests, Step};
use cf_ask_rule::{
    Act, LiveAsk, LiveWait, Sight, kept_without, make_expiry_plan, make_leave_plan, span_around,
};
use cf_base::{Cause, ItemId, Key, OutOfMemory, Span};
use std::alloc::Global;

/// What a step changes that makes no ask.
#[derive(Drop)]
pub(crate) struct Ends {
    pub(crate) waits: Vec<(LiveWait, Cause)>,
    pub(crate) cancelled: Vec<Key>,
    // The ask that is over without a line.
    pub(crate) dropped: Option<Key>,
    // The ask that blocks have left.
    pub(crate) changed: Option<LiveAsk>,
}

impl Ends {
    /// The step of these, on the item as this shows it.
    pub(crate) fn step(self, alloc: Global, item: ItemId, sight: Sight) -> Step
        ensures { result ≡ record { ended = self.waits.items; cancelled = self.cancelled.items; dropped = self.dropped; changed = self.changed; made = []; item = item; view = sight } }
    {
        let Ends {
            waits,
            cancelled,
            dropped,
            changed,
        } = self;
        Step {
            ended: waits,
            cancelled,
            dropped,
            changed,
            made: Vec::new(alloc),
            item,
            sight,
        }
    }
}

impl Requests {
    /// What a step on the item ends, where that follows from what changed since the last step. Nothing where the step has to
    /// look at all waits and asks.
    pub(crate) fn look_changed(
        &self,
        item: ItemId,
        act: Act,
        sight: &Sight,
    ) -> Result<Option<Ends>, OutOfMemory>
        ensures { IfOk result (λ r. IfSome r (λ e. carried (record { ended = e.waits.items; cancelled = e.cancelled.items; dropped = e.dropped; changed = e.changed; made = []; item = item; view = sight.now }) self.now ≡ step_of item sight.now (deed_of act) self.now)) }
    {
        if !self.waits.is_quick(item) {
            return Ok(None);
        }
        match act {
            Act::Leaves { key, blocks } => self.look_leave(item, sight, key, blocks),
            Act::Expires(key) => self.look_expiry(item, sight, key),
            Act::Nothing => Ok(None),
            Act::Fails {
                key: _,
                blocks: _,
                cause: _,
            } => Ok(None),
            Act::Cancels(_) => Ok(None),
            Act::Closes { handle: _, last: _ } => Ok(None),
            Act::Restarts => Ok(None),
            Act::Finishes { key: _, cause: _ } => Ok(None),
        }
    }

    fn look_leave(
        &self,
        item: ItemId,
        sight: &Sight,
        key: Key,
        blocks: Span,
    ) -> Result<Option<Ends>, OutOfMemory>
        ensures { IfOk result (λ r. IfSome r (λ e. carried (record { ended = e.waits.items; cancelled = e.cancelled.items; dropped = e.dropped; changed = e.changed; made = []; item = item; view = sight.now }) self.now ≡ step_of item sight.now (Leaves key (counting blocks.start blocks.len)) self.now)) }
    {
        let Some(seen) = self.seen_of(item) else {
            return Ok(None);
        };
        let asks = self.asks.kept();
        let Some(own) = find_ask(asks, key) else {
            return Ok(None);
        };
        if !self.is_plain() {
            return Ok(None);
        }
        let Some(change) = seen.narrowed(sight) else {
            return Ok(None);
        };
        let kept = kept_without(self.alloc, own, blocks)?;
        if !self.waits.is_awaited(item, sight, &kept) {
            drop(kept);
            return Ok(None);
        }
        let near = self.waits.near(item, sight, change);
        let plan = make_leave_plan(
            self.alloc, item, seen, sight, change, key, blocks, own, near, asks,
        )?;
        match plan {
            Some(waits) => Ok(Some(Ends {
                waits,
                cancelled: Vec::new(self.alloc),
                dropped: dropped_by(key, &kept),
                changed: kept,
            })),
            None => {
                drop(kept);
                Ok(None)
            }
        }
    }

    fn look_expiry(
        &self,
        item: ItemId,
        sight: &Sight,
        key: Key,
    ) -> Result<Option<Ends>, OutOfMemory>
        ensures { IfOk result (λ r. IfSome r (λ e. carried (record { ended = e.waits.items; cancelled = e.cancelled.items; dropped = e.dropped; changed = e.changed; made = []; item = item; view = sight.now }) self.now ≡ step_of item sight.now (Expires key) self.now)) }
    {
        let Some(seen) = self.seen_of(item) else {
            return Ok(None);
        };
        if !self.is_plain() {
            return Ok(None);
        }
        let asks = self.asks.kept();
        let own = find_ask(asks, key);
        let Some(change) = seen.narrowed(sight) else {
            return Ok(None);
        };
        let around = span_around(change, own);
        let near = self.waits.near(item, sight, around);
        let plan = make_expiry_plan(
            self.alloc, item, seen, sight, change, around, key, own, near, asks,
        )?;
        match plan {
            Some(ends) => Ok(Some(Ends {
                waits: ends.0,
                cancelled: ends.1,
                dropped: None,
                changed: None,
            })),
            None => Ok(None),
        }
    }

    // What was seen of the item, where it is the one of the last step.
    fn seen_of(&self, item: ItemId) -> Option<&Sight>
        ensures { IfSome result (λ s. IsSettled item s.now self.now.waits self.now.asks) }
    {
        match &self.last {
            Some(seen) if seen.0.0 == item.0 => Some(&seen.1),
            _ => None,
        }
    }

    // Whether each ask is known to be for bytes, and no wait to be for a dehydration.
    fn is_plain(&self) -> bool
        ensures asks { IsTrue result → AllByRecursion (λ a. is_data a.ask.kind ≡ true) self.now.asks }
        ensures waits { IsTrue result → AllByRecursion (λ w. is_dehydrate_wait w.kind ≡ false) self.now.waits }
    {
        self.asks.is_data() && self.waits.is_plain()
    }
}

// The key of an ask that keeps no block.
fn dropped_by(key: Key, kept: &Option<LiveAsk>) -> Option<Key>
    ensures { result ≡ unless_kept key kept.now }
{
    match kept {
        Some(_) => None,
        None => Some(key),
    }
}
