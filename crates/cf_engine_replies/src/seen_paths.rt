//! What is known of an item that the remote has now.

ghost use Rattle.std.specs.Prelude.{◌≡◌, IfOk};
ghost use Rattle.cf_engine_queue.specs.Books.{entry_value};
ghost use Rattle.cf_engine_replies.specs.Marks.{marked, see_then_mark, seen_and_marked};
ghost use Rattle.cf_engine_steps.specs.Answering.{Answers, Any};
ghost use Rattle.cf_engine_steps.specs.States.{whole};
ghost use Rattle.cf_model.specs.PushReplies.{entry_seen, is_new_entry, see_and_mark};
ghost use Rattle.cf_model.specs.Skips.{try_seen};

use cf_base::{CallError, Name, OutOfMemory, SeenPath, no_such_state};
use cf_engine_host::EngineHost;
use cf_engine_queue::{Action, QueueEntry};
use cf_engine_steps::{Engine, try_mark, try_seen};
use cf_filter_steps::Steps;
use cf_remote::Remote;
use std::alloc::Global;

/// Whether the entry makes a new item of the remote.
pub(crate) fn is_new(entry: &QueueEntry) -> bool
    ensures { result ≡ is_new_entry (entry_value entry.now) }
{
    match entry.action {
        Action::Put => entry.rid.0 == 0,
        Action::MakeDir => true,
        Action::Move => false,
        Action::Remove => false,
    }
}

// The name under which the entry's item stands in the remote. The path of an entry without one is never to be recorded.
fn name_of(alloc: Global, entry: &QueueEntry) -> Result<Name, OutOfMemory>
    ensures { IfOk result (λ n. n ≡ entry.now.name) }
{
    match Name::read(alloc, entry.name.as_slice()) {
        Ok(name) => Ok(name),
        Err(_) => Err(no_such_state()),
    }
}

fn path_of(alloc: Global, entry: &QueueEntry) -> Result<SeenPath, OutOfMemory>
    ensures { IfOk result (λ p. p ≡ entry_seen (entry_value entry.now)) }
{
    let name = name_of(alloc, entry)?;
    Ok(SeenPath {
        item: entry.item,
        parent: entry.parent,
        name,
    })
}

// The path is recorded. Whether it was.
fn see<S: EngineHost, R: Remote>(
    s: &mut S,
    e: &mut Engine<R>,
    entry: &QueueEntry,
) -> Result<bool, CallError>
    ensures { Answers (whole S.sense R.told) Any (try_seen (entry_seen (entry_value entry.now))) (s.old, e.old) result (s.new, e.new) }
{
    let path = path_of(s.alloc(), entry)?;
    let done = try_seen(s, e, &path);
    drop(path);
    done
}

// The path is recorded, and then the item is marked. False where the path or the mark was left out.
fn see_then_try<S: EngineHost, R: Remote>(
    s: &mut S,
    e: &mut Engine<R>,
    entry: &QueueEntry,
) -> Result<bool, CallError>
    ensures { Answers (whole S.sense R.told) Any (seen_and_marked (entry_value entry.now)) (s.old, e.old) result (s.new, e.new) }
{
    if !see(s, e, entry)? {
        return Ok(false);
    }
    try_mark(s, e, entry.item, entry.number)
}

/// Records the path of the entry, and then marks its item where it may be; where the path is left out, so is the mark. An item that is
/// gone has no path, which counts as done. The path does not meet the device; a stop of it leaves what that of a mark leaves.
pub(crate) fn see_then_mark<S: EngineHost, R: Remote>(
    s: &mut S,
    e: &mut Engine<R>,
    entry: &QueueEntry,
) -> Result<(), CallError>
    ensures { Answers (whole S.sense R.told) Any (see_then_mark (entry_value entry.now)) (s.old, e.old) result (s.new, e.new) }
{
    see_then_try(s, e, entry)?;
    Ok(())
}

// An item that is no new one of the remote has its path: it is only marked where it may be.
fn mark<S: EngineHost, R: Remote>(
    s: &mut S,
    e: &mut Engine<R>,
    entry: &QueueEntry,
) -> Result<(), CallError>
    ensures { Answers (whole S.sense R.told) Any (marked (entry_value entry.now)) (s.old, e.old) result (s.new, e.new) }
{
    try_mark(s, e, entry.item, entry.number)?;
    Ok(())
}

/// Records the path of a new item, and then marks the entry's item where it may be; where the path is left out, so is the mark. A
/// stop of the device leaves what that of a mark leaves.
pub(crate) fn see_and_mark<S: EngineHost, R: Remote>(
    s: &mut S,
    e: &mut Engine<R>,
    entry: &QueueEntry,
) -> Result<(), CallError>
    ensures { Answers (whole S.sense R.told) Any (see_and_mark (entry_value entry.now)) (s.old, e.old) result (s.new, e.new) }
{
    if is_new(entry) {
        see_then_mark(s, e, entry)
    } else {
        mark(s, e, entry)
    }
}
