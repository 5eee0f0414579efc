//! Removals by an application.

ghost use Rattle.std.specs.Prelude.{◌≡◌, IfOk, not};
ghost use Rattle.cf_filter_calls.specs.Moved.{IsBelowAt, delete_code, delete_refusal, has_children, removed_next};
ghost use Rattle.cf_model.specs.Calls.{delete, delete_item};
ghost use Rattle.cf_model.specs.Items.{Item};
ghost use Rattle.cf_model.specs.State.{is_replay};
ghost use Rattle.cf_model.specs.Words.{is_empty};
ghost use Rattle.cf_filter_steps.specs.Answering.{Answers, Any, IsAt, Reads};
ghost use Rattle.cf_filter_steps.specs.Putting.{MayGo};

use crate::items::{is_unlisted, is_used, lacks_place};
use cf_base::{CallError, Code, ItemId, Mode, OutOfMemory, Shown};
use cf_filter_steps::{Steps, find_below_root};

fn is_replay(mode: Mode) -> bool
    ensures { result ≡ is_replay mode }
{
    match mode {
        Mode::Replay => true,
        Mode::Filter => false,
    }
}

fn is_any(ids: &[ItemId]) -> bool
    ensures { result ≡ not (is_empty ids.now) }
{
    match ids {
        [] => false,
        _ => true,
    }
}

fn has_children<S: Steps>(s: &S, id: ItemId) -> Result<bool, OutOfMemory>
    ensures { IfOk result (λ b. Reads S.sense Any (has_children id) s.now b) }
{
    let children = s.rows().children(id)?;
    Ok(is_any(&children))
}

fn delete_code(unlisted: bool, full: bool, used: bool, none: bool) -> Option<Code>
    ensures { result ≡ delete_code unlisted full used none }
{
    if unlisted {
        return Some(Code::NotPopulated);
    }
    if full {
        return Some(Code::NotEmpty);
    }
    if used {
        return Some(Code::InUse);
    }
    if none {
        return Some(Code::Exhausted);
    }
    None
}

// Why an item is not removed: NotPopulated, NotEmpty, InUse, Exhausted.
fn refuse_delete<S: Steps>(s: &S, id: ItemId) -> Result<Option<Code>, OutOfMemory>
    ensures { IfOk result (λ why. (i : Item) → Reads S.sense (IsAt id i) (delete_refusal i) s.now why) }
{
    let full = has_children(s, id)?;
    let unlisted = is_unlisted(s, id);
    let used = is_used(s, id);
    let none = lacks_place(s);
    Ok(delete_code(unlisted, full, used, none))
}

fn remove_next<S: Steps>(s: &mut S, id: ItemId, mode: Mode) -> Result<Shown, CallError>
    ensures { (i : Item) → Answers S.sense (MayGo id i) (removed_next mode i) s.old result s.new }
{
    let bury = is_replay(mode);
    s.remove(id, bury)?;
    Ok(Shown::Done)
}

fn delete_item<S: Steps>(s: &mut S, id: ItemId, mode: Mode) -> Result<Shown, CallError>
    ensures { (i : Item) → Answers S.sense (IsBelowAt id i) (delete_item mode i) s.old result s.new }
{
    match refuse_delete(s, id)? {
        Some(code) => Ok(Shown::Refused(code)),
        None => remove_next(s, id, mode),
    }
}

/// Removes a file or an empty directory. In mode Replay it leaves a tombstone where the item has a target. Refused as the
/// look-up of a path that is not the root's, NotPopulated, NotEmpty, InUse, Exhausted.
pub fn delete<S: Steps>(s: &mut S, mode: Mode, path: &str) -> Result<Shown, CallError>
    ensures { Answers S.sense Any (delete mode path.now) s.old result s.new }
{
    match find_below_root(s, path) {
        Ok(id) => delete_item(s, id, mode),
        Err(code) => Ok(Shown::Refused(code)),
    }
}
