//! Refused: the remote has not done the upload, and says why.

ghost use Rattle.cf_engine_queue.specs.Books.{entry_value};
ghost use Rattle.cf_engine_steps.specs.Answering.{Answers, Any};
ghost use Rattle.cf_engine_steps.specs.States.{whole};
ghost use Rattle.cf_engine_replies.specs.Refusals.{held_refused, quota_refused};
ghost use Rattle.cf_model.specs.PushReplies.{by_why, take_refused};

use crate::refused_again::{lost_place, name_taken, not_empty, nothing_further};
use cf_base::{CallError, Code, Why};
use cf_engine_host::EngineHost;
use cf_engine_queue::QueueEntry;
use cf_engine_steps::{Engine, end_entry, skip};
use cf_remote::Remote;

// The remote is full, which has a line.
fn quota<S: EngineHost, R: Remote>(
    s: &mut S,
    e: &mut Engine<R>,
    entry: &QueueEntry,
) -> Result<(), CallError>
    ensures { Answers (whole S.sense R.told) Any (quota_refused (entry_value entry.now)) (s.old, e.old) result (s.new, e.new) }
{
    e.leave_row(entry);
    skip(s, e, Code::Quota)
}

// What the reason says further.
fn go_on<S: EngineHost, R: Remote>(
    s: &mut S,
    e: &mut Engine<R>,
    entry: &QueueEntry,
    why: Why,
) -> Result<(), CallError>
    ensures { Answers (whole S.sense R.told) Any (by_why why (entry_value entry.now)) (s.old, e.old) result (s.new, e.new) }
{
    match why {
        Why::Conflict => lost_place(s, e, entry),
        Why::NotThere => lost_place(s, e, entry),
        Why::NameTaken => name_taken(s, e, entry),
        Why::NotEmpty => not_empty(s, e, entry),
        Why::Quota => quota(s, e, entry),
        Why::Loop => nothing_further(s, e, entry),
        Why::BadName => nothing_further(s, e, entry),
        Why::TooDeep => nothing_further(s, e, entry),
        Why::TooLarge => nothing_further(s, e, entry),
    }
}

// The item or the tombstone is held back until a feed, and then what the reason says.
fn hold_back<S: EngineHost, R: Remote>(
    s: &mut S,
    e: &mut Engine<R>,
    entry: &QueueEntry,
    why: Why,
) -> Result<(), CallError>
    ensures { Answers (whole S.sense R.told) Any (held_refused (entry_value entry.now) why) (s.old, e.old) result (s.new, e.new) }
{
    e.hold_back(entry)?;
    go_on(s, e, entry, why)
}

/// Refused: the remote has not done the upload. It ends the entry, closes the round, and holds the item or the tombstone back until a
/// feed. A place that is lost is fed again, and the tombstone of a removal goes. A name that is taken twice in a row moves the item to
/// its conflict name; a directory that is not empty twice in a row is a place that is lost. A full remote has a line. A stop of the
/// device leaves the entry live, or what that of a change leaves. Out of memory leaves at each moment a point that a crash may open at.
pub fn take_refused<S: EngineHost, R: Remote>(
    s: &mut S,
    e: &mut Engine<R>,
    entry: &QueueEntry,
    why: Why,
) -> Result<(), CallError>
    ensures { Answers (whole S.sense R.told) Any (take_refused (entry_value entry.now) why) (s.old, e.old) result (s.new, e.new) }
{
    end_entry(s, e, entry.token)?;
    hold_back(s, e, entry, why)
}
