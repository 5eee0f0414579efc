//! Done of a new item that is gone.

ghost use Rattle.std.specs.Prelude.{◌≡◌};
ghost use Rattle.cf_engine_queue.specs.Books.{action_of, entry_value, tombstone_value};
ghost use Rattle.cf_engine_replies.specs.Tombstones.{buried_new, tombstone_kept};
ghost use Rattle.cf_engine_steps.specs.Answering.{Answers, Any};
ghost use Rattle.cf_engine_steps.specs.States.{whole};
ghost use Rattle.cf_model.specs.PushReplies.{bury_new, tombstone_left, version_made};

use crate::entries::take;
use crate::seen_paths::is_new;
use cf_base::{CallError, Rid, Version};
use cf_engine_host::EngineHost;
use cf_engine_queue::{Action, QueueEntry, Tombstone};
use cf_engine_steps::{Engine, try_tombstone};
use cf_remote::Remote;

// A new directory has no version.
fn version_made(action: Action, version: Version) -> Version
    ensures { result ≡ version_made (action_of action) version }
{
    match action {
        Action::MakeDir => Version(0),
        Action::Put | Action::Move | Action::Remove => version,
    }
}

fn tombstone_left(entry: &QueueEntry, rid: Rid, version: Version) -> Tombstone
    ensures { tombstone_value result ≡ tombstone_left (entry_value entry.now) rid version }
{
    Tombstone {
        number: entry.number,
        rid,
        version: version_made(entry.action, version),
    }
}

// Of a new item a tombstone is left.
fn leave_tombstone<S: EngineHost, R: Remote>(
    s: &mut S,
    e: &mut Engine<R>,
    entry: &QueueEntry,
    rid: Rid,
    version: Version,
) -> Result<bool, CallError>
    ensures { Answers (whole S.sense R.told) Any (tombstone_kept (entry_value entry.now) rid version) (s.old, e.old) result (s.new, e.new) }
{
    if !is_new(entry) {
        return Ok(true);
    }
    let left = tombstone_left(entry, rid, version);
    try_tombstone(s, e, &left)
}

// The same, whether it was left or not.
fn try_leave<S: EngineHost, R: Remote>(
    s: &mut S,
    e: &mut Engine<R>,
    entry: &QueueEntry,
    rid: Rid,
    version: Version,
) -> Result<(), CallError>
    ensures { Answers (whole S.sense R.told) Any (buried_new (entry_value entry.now) rid version) (s.old, e.old) result (s.new, e.new) }
{
    leave_tombstone(s, e, entry, rid, version)?;
    Ok(())
}

/// The entry of an item that is gone ends. Of a new one a tombstone is left, or left out where the table has no room. A stop of the device
/// leaves the entry live, or no tombstone.
pub(crate) fn bury_new<S: EngineHost, R: Remote>(
    s: &mut S,
    e: &mut Engine<R>,
    entry: &QueueEntry,
    rid: Rid,
    version: Version,
) -> Result<(), CallError>
    ensures { Answers (whole S.sense R.told) Any (bury_new (entry_value entry.now) rid version) (s.old, e.old) result (s.new, e.new) }
{
    take(s, e, entry)?;
    try_leave(s, e, entry, rid, version)
}
