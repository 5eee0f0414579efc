//! The item for which nothing is left to do, and the waits that begin on it.
ghost use Rattle.std.specs.Prelude.{◌≡◌, true, IfOk, IsTrue, Some};
ghost use Rattle.std.specs.List.{AllByRecursion};
ghost use Rattle.cf_ask_rule.specs.Near.{is_on};
ghost use Rattle.cf_ask_rule.specs.Settled.{IsSettled};
ghost use Rattle.cf_model.specs.Asks.{step_of};
ghost use Rattle.cf_model.specs.Requests.{Nothing, with_waits};
ghost use Rattle.cf_waits.specs.Rising.{AreNext};
ghost use Rattle.cf_waits.specs.Steps.{carried};

use crate::requests::{Requests, Step};
use cf_ask_rule::{Act, LiveWait, Sight, first_block, make_begin_plan};
use cf_base::{ItemId, OutOfMemory};

impl Requests {
    /// Works out a step with which these waits begin on the item. Where nothing was left to do for it, the step looks at what
    /// these waits need and at the blocks that asks own, and not at the waits before them; and at no ask where a wait needs what comes
    /// behind all that asks own.
    pub(crate) fn look_begun(
        &self,
        item: ItemId,
        sight: Sight,
        begun: &[LiveWait],
    ) -> Result<Step, OutOfMemory>
        requires next { AreNext begun.now self.now }
        requires on { AllByRecursion (λ w. is_on item w ≡ true) begun.now }
        ensures planned { IfOk result (λ s. carried s (with_waits begun.now self.now) ≡ step_of item sight Nothing (with_waits begun.now self.now)) }
        ensures seen { IfOk result (λ s. (s.item ≡ item) × (s.view ≡ sight)) }
    {
        if self.is_settled(item, &sight) {
            return self.look_settled(item, sight, begun);
        }
        self.look_by(item, Act::Nothing, sight, begun)
    }

    fn is_settled(&self, item: ItemId, sight: &Sight) -> bool
        ensures { IsTrue result → IsSettled item sight.now self.now.waits self.now.asks }
    {
        is_seen(&self.last, item, sight)
    }

    fn look_settled(
        &self,
        item: ItemId,
        sight: Sight,
        begun: &[LiveWait],
    ) -> Result<Step, OutOfMemory>
        requires next { AreNext begun.now self.now }
        requires settled { IsSettled item sight self.now.waits self.now.asks }
        ensures planned { IfOk result (λ s. carried s (with_waits begun.now self.now) ≡ step_of item sight Nothing (with_waits begun.now self.now)) }
        ensures seen { IfOk result (λ s. (s.item ≡ item) × (s.view ≡ sight)) }
    {
        let _size = sight.size();
        let asks = self.asks.behind(first_block(&sight, begun));
        let (ended, made) = make_begin_plan(self.alloc, item, &sight, begun, asks)?;
        Ok(Step {
            ended,
            cancelled: Vec::new(self.alloc),
            dropped: None,
            changed: None,
            made,
            item,
            sight,
        })
    }

    /// Nothing is left to do for the item, of which this was seen.
    pub(crate) fn remember(&mut self, item: ItemId, sight: Sight)
        requires { IsSettled item sight self.old.waits self.old.asks }
        ensures { self.new ≡ self.old }
    {
        self.last = Some((item, sight));
    }
}

fn is_seen(last: &Option<(ItemId, Sight)>, item: ItemId, sight: &Sight) -> bool
    ensures { IsTrue result → last.now ≡ Some (item, sight.now) }
{
    match last {
        Some(seen) => seen.0.0 == item.0 && seen.1.is_same(sight),
        None => false,
    }
}
