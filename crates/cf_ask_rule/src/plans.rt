//! What a step would do.
ghost use Rattle.std.specs.Prelude.{◌≡◌, [], IfOk};
ghost use Rattle.cf_model.specs.Asks.{ended_of, left_of, new_asks, why};
ghost use Rattle.cf_model.specs.Requests.{Nothing};
ghost use Rattle.cf_ask_rule.specs.Deeds.{deed_of};
ghost use Rattle.cf_ask_rule.specs.Plans.{plan_of};

use crate::acts::{Act, asks_after, end_waits, part_asks};
use crate::asks::LiveAsk;
use crate::misses::needs_of;
use crate::new_asks::new_asks;
use crate::sights::Sight;
use crate::waits::LiveWait;
use cf_base::{Cause, ItemId, Key, OutOfMemory};
use std::alloc::Global;

/// What a step would do to waits and asks. The asks that are made have no keys yet.
#[derive(Drop)]
pub struct Plan {
    pub ended: Vec<(LiveWait, Cause)>,
    pub left: Vec<LiveWait>,
    pub cancelled: Vec<Key>,
    pub kept: Vec<LiveAsk>,
    pub made: Vec<LiveAsk>,
}

/// Looks at the waits and asks, and changes nothing.
pub fn make_plan(
    alloc: Global,
    item: ItemId,
    v: &Sight,
    act: Act,
    waits: &[LiveWait],
    asks: Vec<LiveAsk>,
) -> Result<Plan, OutOfMemory>
    ensures ended { IfOk result (λ p. p.ended.items ≡ (plan_of item v.now (deed_of act) waits.now asks.items).ended) }
    ensures left { IfOk result (λ p. p.left.items ≡ (plan_of item v.now (deed_of act) waits.now asks.items).left) }
    ensures cancelled { IfOk result (λ p. p.cancelled.items ≡ (plan_of item v.now (deed_of act) waits.now asks.items).cancelled) }
    ensures kept { IfOk result (λ p. p.kept.items ≡ (plan_of item v.now (deed_of act) waits.now asks.items).kept) }
    ensures made { IfOk result (λ p. p.made.items ≡ (plan_of item v.now (deed_of act) waits.now asks.items).made) }
{
    let before = asks.as_slice();
    let (ended, left) = end_waits(alloc, item, v, act, before, waits)?;
    let live = left.as_slice();
    let spans = needs_of(alloc, item, v, live)?;
    let needs = spans.as_slice();
    let all = asks_after(alloc, act, asks)?;
    let (cancelled, kept) = part_asks(alloc, item, v, act, live, needs, all)?;
    let made = new_asks(alloc, item, v, live, needs, &kept)?;
    Ok(Plan {
        ended,
        left,
        cancelled,
        kept,
        made,
    })
}

/// The plan of waits that begin on an item of which nothing is left to do, and do not change what was there: those of
/// them that end, and the asks that are made for the others. These have no keys yet. The asks may be those of all items.
pub fn make_begin_plan(
    alloc: Global,
    item: ItemId,
    v: &Sight,
    begun: &[LiveWait],
    asks: &[LiveAsk],
) -> Result<(Vec<(LiveWait, Cause)>, Vec<LiveAsk>), OutOfMemory>
    ensures ended { IfOk result (λ r. r.0.items ≡ ended_of (why item v.now Nothing []) begun.now) }
    ensures made { IfOk result (λ r. r.1.items ≡ new_asks item v.now (left_of (why item v.now Nothing []) begun.now) asks.now) }
{
    let (ended, left) = end_waits(alloc, item, v, Act::Nothing, &[], begun)?;
    let live = left.as_slice();
    let spans = needs_of(alloc, item, v, live)?;
    let needs = spans.as_slice();
    let made = new_asks(alloc, item, v, live, needs, asks)?;
    Ok((ended, made))
}
