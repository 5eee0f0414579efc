//! Items that are removed.

ghost use Rattle.std.specs.Prelude.{◌≡◌, IfOk, OnOk, not};
ghost use Rattle.cf_base.specs.declared.changes.Change.TheVariants as change;
ghost use Rattle.cf_engine_steps.specs.Answering.{Answers, Any, On};
ghost use Rattle.cf_engine_steps.specs.Removals.{CanGo, GoesIf, GoesNow};
ghost use Rattle.cf_engine_steps.specs.States.{whole};
ghost use Rattle.cf_filter_calls.specs.Moved.{has_children};
ghost use Rattle.cf_filter_steps.specs.Answering.{Any as AnyFilter, Reads as FilterReads};
ghost use Rattle.cf_model.specs.Skips.{try_change};
ghost use Rattle.cf_model.specs.Words.{is_empty};

use crate::engines::Engine;
use crate::paths_seen::is_here;
use crate::skips::leave_out;
use cf_base::{CallError, Code, ItemId, OutOfMemory, no_such_state};
use cf_engine_host::EngineHost;
use cf_filter_calls::is_used;
use cf_filter_steps::Steps;
use cf_remote::Remote;
use cf_table::ROOT;

fn is_any(ids: &[ItemId]) -> bool
    ensures { result ≡ not (is_empty ids.now) }
{
    match ids {
        [] => false,
        _ => true,
    }
}

fn has_children<S: Steps>(s: &S, item: ItemId) -> Result<bool, OutOfMemory>
    ensures { IfOk result (λ b. FilterReads S.sense AnyFilter (has_children item) s.now b) }
{
    let children = s.rows().children(item)?;
    Ok(is_any(&children))
}

// Whether an item is there and is not the root, has no child, and nothing uses it.
#[tactic(auto, using(crate::proofs::Removed::never_goes))]
fn may_go<S: Steps>(s: &S, item: ItemId) -> Result<bool, OutOfMemory>
    ensures { IfOk result (GoesIf S.sense item s.now) }
{
    if item.0 == ROOT.0 {
        return Ok(false);
    }
    if !is_here(s, item) {
        return Ok(false);
    }
    if is_used(s, item) {
        return Ok(false);
    }
    let full = has_children(s, item)?;
    Ok(!full)
}

fn check<S: Steps>(s: &S, item: ItemId) -> Result<(), OutOfMemory>
    ensures { OnOk result (CanGo S.sense item s.now) }
{
    if may_go(s, item)? {
        Ok(())
    } else {
        Err(no_such_state())
    }
}

fn remove_now<S: EngineHost, R: Remote>(
    s: &mut S,
    e: &mut Engine<R>,
    item: ItemId,
) -> Result<bool, CallError>
    ensures { Answers (whole S.sense R.told) (On (GoesNow item)) (try_change (change.Remove item)) (s.old, e.old) result (s.new, e.new) }
{
    s.remove(item, false)?;
    Ok(true)
}

/// Removes an item, with its line and without a tombstone, or leaves that out as Exhausted where no number is left. Whether it was
/// removed. The root, an item that is gone, one with a child, and one that is in use are never to be removed: then it is out of memory,
/// and all is as before. A stop of the device leaves what that of a change leaves.
pub(crate) fn try_remove<S: EngineHost, R: Remote>(
    s: &mut S,
    e: &mut Engine<R>,
    item: ItemId,
) -> Result<bool, CallError>
    ensures { Answers (whole S.sense R.told) Any (try_change (change.Remove item)) (s.old, e.old) result (s.new, e.new) }
{
    check(s, item)?;
    match s.next_number() {
        Some(_) => remove_now(s, e, item),
        None => leave_out(s, e, Code::Exhausted),
    }
}
