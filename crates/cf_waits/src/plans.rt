//! What a step changes, by its plan.
ghost use Rattle.std.specs.Prelude.{◌≡◌, IfOk, option_copied};
ghost use Rattle.std.specs.List.{AllByRecursion};
ghost use Rattle.cf_ask_rule.specs.Deeds.{deed_of};
ghost use Rattle.cf_ask_rule.specs.Near.{named};
ghost use Rattle.cf_waits.specs.Deltas.{changed_of, delta_of, dropped_of, unless_kept};

use crate::requests::Step;
use cf_ask_rule::{Act, LiveAsk, Plan, Sight, live_of};
use cf_base::{ItemId, Key, OutOfMemory};

/// The key that an act names.
pub(crate) fn named_by(act: Act) -> Option<Key>
    ensures { result ≡ named (deed_of act) }
{
    match act {
        Act::Leaves { key, blocks: _ } => Some(key),
        Act::Fails {
            key,
            blocks: _,
            cause: _,
        } => Some(key),
        Act::Expires(key) => Some(key),
        Act::Finishes { key, cause: _ } => Some(key),
        Act::Nothing => None,
        Act::Cancels(_) => None,
        Act::Closes { handle: _, last: _ } => None,
        Act::Restarts => None,
    }
}

/// The step of a plan.
pub(crate) fn step_of(item: ItemId, sight: Sight, act: Act, plan: Plan) -> Result<Step, OutOfMemory>
    requires { AllByRecursion (λ a. a.ticks ≡ 0) plan.made.items }
    ensures { IfOk result (λ s. s ≡ delta_of item sight (deed_of act) (record { ended = plan.ended.items; left = plan.left.items; cancelled = plan.cancelled.items; kept = plan.kept.items; made = plan.made.items })) }
{
    let Plan {
        ended,
        left: _,
        cancelled,
        kept,
        made,
    } = plan;
    let changed = changed_of(act, &kept)?;
    let dropped = dropped_of(act, &kept);
    Ok(Step {
        ended,
        cancelled,
        dropped,
        changed,
        made,
        item,
        sight,
    })
}

fn changed_of(act: Act, kept: &[LiveAsk]) -> Result<Option<LiveAsk>, OutOfMemory>
    ensures { IfOk result (λ a. a ≡ changed_of (deed_of act) kept.now) }
{
    match act {
        Act::Leaves { key, blocks: _ } => copy_of(live_of(kept, key)),
        Act::Fails {
            key,
            blocks: _,
            cause: _,
        } => copy_of(live_of(kept, key)),
        Act::Nothing => Ok(None),
        Act::Cancels(_) => Ok(None),
        Act::Closes { handle: _, last: _ } => Ok(None),
        Act::Restarts => Ok(None),
        Act::Expires(_) => Ok(None),
        Act::Finishes { key: _, cause: _ } => Ok(None),
    }
}

fn copy_of(ask: Option<&LiveAsk>) -> Result<Option<LiveAsk>, OutOfMemory>
    ensures { IfOk result (λ a. a ≡ option_copied ask.entry) }
{
    match ask {
        Some(a) => Ok(Some(a.copy()?)),
        None => Ok(None),
    }
}

fn dropped_of(act: Act, kept: &[LiveAsk]) -> Option<Key>
    ensures { result ≡ dropped_of (deed_of act) kept.now }
{
    match act {
        Act::Leaves { key, blocks: _ } => unless_kept(key, live_of(kept, key)),
        Act::Fails {
            key,
            blocks: _,
            cause: _,
        } => unless_kept(key, live_of(kept, key)),
        Act::Finishes { key, cause: _ } => Some(key),
        Act::Nothing => None,
        Act::Cancels(_) => None,
        Act::Closes { handle: _, last: _ } => None,
        Act::Restarts => None,
        Act::Expires(_) => None,
    }
}

fn unless_kept(key: Key, ask: Option<&LiveAsk>) -> Option<Key>
    ensures { result ≡ unless_kept key (option_copied ask.entry) }
{
    match ask {
        Some(_) => None,
        None => Some(key),
    }
}
