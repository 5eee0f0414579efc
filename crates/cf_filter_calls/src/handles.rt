//! Handles, and ends from outside.

ghost use Rattle.std.specs.Prelude.{true, false};
ghost use Rattle.cf_filter_calls.specs.Handles.{cancel_item, open_by, opened_next};
ghost use Rattle.cf_model.specs.Arrows.{reading};
ghost use Rattle.cf_model.specs.Calls.{open_file, open_item};
ghost use Rattle.cf_model.specs.Items.{Item};
ghost use Rattle.cf_model.specs.Waits.{but_directory, cancel, close, close_item, connect, end_handle, is_last};
ghost use Rattle.cf_filter_steps.specs.Answering.{Answers, Any, IsAt};
ghost use Rattle.cf_filter_steps.specs.Needing.{MayOpenFile};
ghost use Rattle.cf_filter_steps.specs.Putting.{IsFile};

use crate::items::is_directory;
use cf_ask_rule::Act;
use cf_base::{CallError, Code, Handle, ItemId, Shown, WaitId};
use cf_filter_steps::{Steps, find_at, hang_up, settle};

fn open_next<S: Steps>(s: &mut S, id: ItemId) -> Result<Shown, CallError>
    ensures { Answers S.sense (MayOpenFile id) (opened_next id) s.old result s.new }
{
    let handle = s.open(id)?;
    Ok(Shown::Opened(handle))
}

fn open_now<S: Steps>(s: &mut S, id: ItemId) -> Result<Shown, CallError>
    ensures { Answers S.sense (IsFile id) (open_by id) s.old result s.new }
{
    match s.refuse_open() {
        Some(code) => Ok(Shown::Refused(code)),
        None => open_next(s, id),
    }
}

fn open_item<S: Steps>(s: &mut S, id: ItemId) -> Result<Shown, CallError>
    ensures { (i : Item) → Answers S.sense (IsAt id i) (but_directory open_item i) s.old result s.new }
{
    if is_directory(s, id) {
        Ok(Shown::Refused(Code::IsDirectory))
    } else {
        open_now(s, id)
    }
}

/// Opens a file. Gives its handle. Refused as the look-up, IsDirectory, TooManyHandles at 1,024, Exhausted.
pub fn open_file<S: Steps>(s: &mut S, path: &str) -> Result<Shown, CallError>
    ensures { Answers S.sense Any (open_file path.now) s.old result s.new }
{
    match find_at(s, path) {
        Ok(id) => open_item(s, id),
        Err(code) => Ok(Shown::Refused(code)),
    }
}

// The waits of the handle end, and the background wait where it was the last.
fn end_waits<S: Steps>(s: &mut S, handle: Handle, item: ItemId) -> Result<(), CallError>
    ensures { Answers S.sense Any (reading (is_last item) (end_handle handle item)) s.old result s.new }
{
    let last = !s.is_open(item);
    settle(s, item, Act::Closes { handle, last })
}

fn close_item<S: Steps>(s: &mut S, handle: Handle, item: ItemId) -> Result<Shown, CallError>
    ensures { Answers S.sense Any (close_item handle item) s.old result s.new }
{
    s.forget(handle);
    end_waits(s, handle, item)?;
    Ok(Shown::Done)
}

/// The handle is open no more. Its waits end as closed, and with the last handle on the file so does the background wait.
/// Refused as NoHandle.
pub fn close<S: Steps>(s: &mut S, handle: Handle) -> Result<Shown, CallError>
    ensures { Answers S.sense Any (close handle) s.old result s.new }
{
    match s.opened(handle) {
        Some(item) => close_item(s, handle, item),
        None => Ok(Shown::Refused(Code::NoHandle)),
    }
}

fn cancel_on<S: Steps>(s: &mut S, wait: WaitId, item: ItemId) -> Result<Shown, CallError>
    ensures { Answers S.sense Any (cancel_item wait item) s.old result s.new }
{
    settle(s, item, Act::Cancels(wait))?;
    Ok(Shown::Done)
}

/// A wait ends as cancelled. Refused as NoWait where it is over, or never was.
pub fn cancel<S: Steps>(s: &mut S, wait: WaitId) -> Result<Shown, CallError>
    ensures { Answers S.sense Any (cancel wait) s.old result s.new }
{
    match s.requests().wait_item(wait) {
        Some(item) => cancel_on(s, wait, item),
        None => Ok(Shown::Refused(Code::NoWait)),
    }
}

fn link_up<S: Steps>(s: &mut S) -> Result<Shown, CallError>
    ensures { Answers S.sense Any (connect true) s.old result s.new }
{
    s.set_connected(true);
    Ok(Shown::Done)
}

fn link_down<S: Steps>(s: &mut S) -> Result<Shown, CallError>
    ensures { Answers S.sense Any (connect false) s.old result s.new }
{
    s.set_connected(false);
    hang_up(s)?;
    Ok(Shown::Done)
}

/// A provider is there from now on (CfConnectSyncRoot), or none: then all waits end as down, and all asks are dropped.
pub fn connect<S: Steps>(s: &mut S, on: bool) -> Result<Shown, CallError>
    ensures { Answers S.sense Any (connect on) s.old result s.new }
{
    if on { link_up(s) } else { link_down(s) }
}
