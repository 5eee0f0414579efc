//! The base of an item takes in what was uploaded.

ghost use Rattle.cf_engine_queue.specs.Books.{entry_value};
ghost use Rattle.cf_engine_replies.specs.Rebases.{ReadyWithout, change_and_mark, rebase_now};
ghost use Rattle.cf_engine_steps.specs.Answering.{Answers, Any, On};
ghost use Rattle.cf_engine_steps.specs.States.{whole};
ghost use Rattle.cf_filter_steps.specs.Suiting.{Ready};
ghost use Rattle.cf_model.specs.PushReplies.{rebase};

use crate::entries::take;
use crate::rebase_room::refuse_without;
use crate::seen_paths::see_and_mark;
use cf_base::{CallError, Change};
use cf_engine_host::EngineHost;
use cf_engine_queue::QueueEntry;
use cf_engine_steps::{Engine, skip};
use cf_filter_steps::change_copied;
use cf_remote::Remote;

// The change is made, and the item is marked where it may be.
fn change_and_mark<S: EngineHost, R: Remote>(
    s: &mut S,
    e: &mut Engine<R>,
    entry: &QueueEntry,
    change: &Change,
) -> Result<(), CallError>
    ensures { Answers (whole S.sense R.told) (On (Ready change.now)) (change_and_mark (entry_value entry.now) change.now) (s.old, e.old) result (s.new, e.new) }
{
    change_copied(s, change)?;
    see_and_mark(s, e, entry)
}

// The entry ends first.
fn rebase_now<S: EngineHost, R: Remote>(
    s: &mut S,
    e: &mut Engine<R>,
    entry: &QueueEntry,
    change: &Change,
) -> Result<(), CallError>
    ensures { Answers (whole S.sense R.told) (On (ReadyWithout entry.now.token change.now)) (rebase_now (entry_value entry.now) change.now) (s.old, e.old) result (s.new, e.new) }
{
    take(s, e, entry)?;
    change_and_mark(s, e, entry, change)
}

/// Makes the change of a Done, which ends the entry, and then marks the item where it may be. Where the change is refused, the record of
/// the entry gone already, nothing is done but the line of that, and the entry stays live. A stop of the device leaves the entry live, or
/// gone and the change begun, or what that of a mark leaves.
pub(crate) fn rebase<S: EngineHost, R: Remote>(
    s: &mut S,
    e: &mut Engine<R>,
    entry: &QueueEntry,
    change: &Change,
) -> Result<(), CallError>
    ensures { Answers (whole S.sense R.told) Any (rebase (entry_value entry.now) change.now) (s.old, e.old) result (s.new, e.new) }
{
    match refuse_without(s, entry.token, change)? {
        Some(code) => skip(s, e, code),
        None => rebase_now(s, e, entry, change),
    }
}
