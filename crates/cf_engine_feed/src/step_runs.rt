//! The steps of an entry, done in order.

ghost use Rattle.std.specs.Prelude.{◌≡◌};
ghost use Rattle.cf_engine_feed.specs.Copies.{try_if};
ghost use Rattle.cf_engine_feed.specs.Indexed.{indexed};
ghost use Rattle.cf_engine_feed.specs.Named.{item_of_step};
ghost use Rattle.cf_engine_feed_plan.specs.Turns.{copy_now, do_step, do_steps};
ghost use Rattle.cf_engine_steps.specs.Answering.{Answers, Any};
ghost use Rattle.cf_engine_steps.specs.States.{whole};

use crate::indexes::Targets;
use crate::targets::{refresh, target_at};
use cf_base::{CallError, Change, ItemId};
use cf_engine_feed_plan::{Step, copy_off};
use cf_engine_host::EngineHost;
use cf_engine_steps::{Engine, try_change, try_mark_now, try_seen};
use cf_filter_steps::Steps;
use cf_remote::Remote;

// A change that there may be.
fn try_if<S: EngineHost, R: Remote>(
    s: &mut S,
    e: &mut Engine<R>,
    change: &Option<Change>,
) -> Result<bool, CallError>
    ensures { Answers (whole S.sense R.told) Any (try_if change.now) (s.old, e.old) result (s.new, e.new) }
{
    match change {
        Some(change) => try_change(s, e, change),
        None => Ok(true),
    }
}

// The local writes of a file go on in a file of their own; nothing where it is gone.
fn copy_now<S: EngineHost, R: Remote>(
    s: &mut S,
    e: &mut Engine<R>,
    item: ItemId,
) -> Result<bool, CallError>
    ensures { Answers (whole S.sense R.told) Any (copy_now item) (s.old, e.old) result (s.new, e.new) }
{
    let change = copy_off(s.alloc(), s.rows(), item)?;
    let done = try_if(s, e, &change);
    drop(change);
    done
}

fn do_step<S: EngineHost, R: Remote>(
    s: &mut S,
    e: &mut Engine<R>,
    step: &Step,
) -> Result<bool, CallError>
    ensures { Answers (whole S.sense R.told) Any (do_step step.now) (s.old, e.old) result (s.new, e.new) }
{
    match step {
        Step::Apply(change) => try_change(s, e, change),
        Step::Mark(item) => try_mark_now(s, e, *item),
        Step::Seen(path) => try_seen(s, e, path),
        Step::CopyOff(item) => copy_now(s, e, *item),
    }
}

// The item that a step names.
fn item_of(next: ItemId, step: &Step) -> ItemId
    ensures { result ≡ item_of_step next step.now }
{
    match step {
        Step::Apply(change) => cf_table::item_of(change),
        Step::Mark(item) => *item,
        Step::Seen(path) => path.item,
        Step::CopyOff(_) => next,
    }
}

// Does a step, and keeps the index of the items.
fn do_indexed<S: EngineHost, R: Remote>(
    s: &mut S,
    e: &mut Engine<R>,
    targets: &mut Targets,
    step: &Step,
) -> Result<bool, CallError>
    ensures { Answers (indexed (whole S.sense R.told)) Any (do_step step.now) ((s.old, e.old), targets.old) result ((s.new, e.new), targets.new) }
{
    let item = item_of(s.rows().next(), step);
    let before = target_at(s.rows(), item)?;
    let done = do_step(s, e, step)?;
    refresh(s.rows(), targets, item, before)?;
    Ok(done)
}

/// Does the steps in order, up to the first that is left out. Whether all were done.
pub(crate) fn do_steps<S: EngineHost, R: Remote>(
    s: &mut S,
    e: &mut Engine<R>,
    targets: &mut Targets,
    steps: &[Step],
) -> Result<bool, CallError>
    ensures { Answers (indexed (whole S.sense R.told)) Any (do_steps steps.now) ((s.old, e.old), targets.old) result ((s.new, e.new), targets.new) }
{
    for step in steps {
        let done = do_indexed(s, e, targets, step)?;
        if !done {
            return Ok(false);
        }
    }
    Ok(true)
}
