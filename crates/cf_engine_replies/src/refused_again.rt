//! Refusals that count twice in a row: a name that is taken, and a directory that is not empty.

ghost use Rattle.std.specs.Prelude.{◌≡◌};
ghost use Rattle.cf_engine_queue.specs.Books.{action_of, entry_value};
ghost use Rattle.cf_engine_steps.specs.Answering.{Answers, Any};
ghost use Rattle.cf_engine_steps.specs.States.{whole};
ghost use Rattle.cf_engine_replies.specs.Refusals.{moved_off, name_refused, not_empty_refused};
ghost use Rattle.cf_model.specs.PushReplies.{drop_if, is_removal_by, lost_place, name_taken, name_taken_again, not_empty, nothing_further};

use cf_base::CallError;
use cf_engine_host::EngineHost;
use cf_engine_queue::{Action, QueueEntry};
use cf_engine_steps::{Engine, drop_tombstone, reset_cursor, to_conflict};
use cf_filter_steps::Steps;
use cf_remote::Remote;

fn is_removal(action: Action) -> bool
    ensures { result ≡ is_removal_by (action_of action) }
{
    match action {
        Action::Remove => true,
        Action::Put | Action::MakeDir | Action::Move => false,
    }
}

/// The entry's item or tombstone was not refused in a row. It takes no memory and never meets the device.
pub(crate) fn nothing_further<S: EngineHost, R: Remote>(
    s: &mut S,
    e: &mut Engine<R>,
    entry: &QueueEntry,
) -> Result<(), CallError>
    ensures { Answers (whole S.sense R.told) Any (nothing_further (entry_value entry.now)) (s.old, e.old) result (s.new, e.new) }
{
    e.leave_row(entry);
    Ok(())
}

// The tombstone of a removal goes.
fn drop_removal<S: EngineHost, R: Remote>(
    s: &mut S,
    e: &mut Engine<R>,
    entry: &QueueEntry,
) -> Result<(), CallError>
    ensures { Answers (whole S.sense R.told) Any (drop_if (is_removal_by (action_of entry.now.action)) (entry_value entry.now)) (s.old, e.old) result (s.new, e.new) }
{
    if is_removal(entry.action) {
        drop_tombstone(s, e, entry.number)
    } else {
        Ok(())
    }
}

/// The remote knows better: all is fed again, and the tombstone of a removal goes. It never meets the device, and is durable with the
/// next commit.
pub(crate) fn lost_place<S: EngineHost, R: Remote>(
    s: &mut S,
    e: &mut Engine<R>,
    entry: &QueueEntry,
) -> Result<(), CallError>
    ensures { Answers (whole S.sense R.told) Any (lost_place (entry_value entry.now)) (s.old, e.old) result (s.new, e.new) }
{
    e.leave_row(entry);
    reset_cursor(s, e)?;
    drop_removal(s, e, entry)
}

// The entry's item moves to its conflict name, where it is there.
fn move_off<S: EngineHost, R: Remote>(
    s: &mut S,
    e: &mut Engine<R>,
    entry: &QueueEntry,
) -> Result<(), CallError>
    ensures { Answers (whole S.sense R.told) Any (moved_off (entry_value entry.now)) (s.old, e.old) result (s.new, e.new) }
{
    let Some(_) = s.rows().get(entry.item) else {
        return Ok(());
    };
    to_conflict(s, e, entry.item)?;
    Ok(())
}

// The second time in a row the item moves to its conflict name.
fn name_taken_again<S: EngineHost, R: Remote>(
    s: &mut S,
    e: &mut Engine<R>,
    entry: &QueueEntry,
) -> Result<(), CallError>
    ensures { Answers (whole S.sense R.told) Any (name_taken_again (entry_value entry.now)) (s.old, e.old) result (s.new, e.new) }
{
    e.leave_row(entry);
    move_off(s, e, entry)
}

// The name of an item was taken.
fn name_refused<S: EngineHost, R: Remote>(
    s: &mut S,
    e: &mut Engine<R>,
    entry: &QueueEntry,
) -> Result<(), CallError>
    ensures { Answers (whole S.sense R.told) Any (name_refused (entry_value entry.now)) (s.old, e.old) result (s.new, e.new) }
{
    if e.volatile().was_name_taken(entry.item) {
        return name_taken_again(s, e, entry);
    }
    e.note_name_taken(entry.item)?;
    Ok(())
}

/// A name was taken. The second time in a row the item moves to its conflict name; of a removal it says nothing. A stop of the device
/// leaves what that of a change leaves.
pub(crate) fn name_taken<S: EngineHost, R: Remote>(
    s: &mut S,
    e: &mut Engine<R>,
    entry: &QueueEntry,
) -> Result<(), CallError>
    ensures { Answers (whole S.sense R.told) Any (name_taken (is_removal_by (action_of entry.now.action)) (entry_value entry.now)) (s.old, e.old) result (s.new, e.new) }
{
    if is_removal(entry.action) {
        nothing_further(s, e, entry)
    } else {
        name_refused(s, e, entry)
    }
}

// The directory of a tombstone was not empty. The second time in a row the tombstone goes.
fn not_empty_refused<S: EngineHost, R: Remote>(
    s: &mut S,
    e: &mut Engine<R>,
    entry: &QueueEntry,
) -> Result<(), CallError>
    ensures { Answers (whole S.sense R.told) Any (not_empty_refused (entry_value entry.now)) (s.old, e.old) result (s.new, e.new) }
{
    if e.volatile().was_not_empty(entry.number) {
        return lost_place(s, e, entry);
    }
    e.note_not_empty(entry.number)?;
    Ok(())
}

/// A directory was not empty. The second time in a row its tombstone goes, and all is fed again; of what is no removal it says nothing.
/// It never meets the device, and is durable with the next commit.
pub(crate) fn not_empty<S: EngineHost, R: Remote>(
    s: &mut S,
    e: &mut Engine<R>,
    entry: &QueueEntry,
) -> Result<(), CallError>
    ensures { Answers (whole S.sense R.told) Any (not_empty (is_removal_by (action_of entry.now.action)) (entry_value entry.now)) (s.old, e.old) result (s.new, e.new) }
{
    if is_removal(entry.action) {
        not_empty_refused(s, e, entry)
    } else {
        nothing_further(s, e, entry)
    }
}
