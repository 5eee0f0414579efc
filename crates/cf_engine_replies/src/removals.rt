//! Done of a removal.

ghost use Rattle.std.specs.Prelude.{IfOk};
ghost use Rattle.cf_engine_queue.specs.Books.{entry_value};
ghost use Rattle.cf_engine_replies.specs.Removals.{removal_ended, was_directory_at};
ghost use Rattle.cf_engine_steps.specs.Answering.{Answers, Any};
ghost use Rattle.cf_engine_steps.specs.States.{whole};
ghost use Rattle.cf_filter_steps.specs.Answering.{Any as AnyFilter, Reads as FilterReads};
ghost use Rattle.cf_model.specs.PushReplies.{done_removal, end_tombstone, reset_if};

use crate::entries::take;
use cf_base::{CallError, OutOfMemory, Usn};
use cf_engine_host::EngineHost;
use cf_engine_queue::QueueEntry;
use cf_engine_steps::{Engine, drop_tombstone, reset_cursor, tombstone};
use cf_remote::Remote;

// All is fed again, where it is to be.
fn reset_if<S: EngineHost, R: Remote>(
    s: &mut S,
    e: &mut Engine<R>,
    resets: bool,
) -> Result<(), CallError>
    ensures { Answers (whole S.sense R.told) Any (reset_if resets) (s.old, e.old) result (s.new, e.new) }
{
    if resets { reset_cursor(s, e) } else { Ok(()) }
}

// The cursor goes first: with a directory's tombstone nothing is said of what it has passed.
fn end_tombstone<S: EngineHost, R: Remote>(
    s: &mut S,
    e: &mut Engine<R>,
    entry: &QueueEntry,
    was_directory: bool,
) -> Result<(), CallError>
    ensures { Answers (whole S.sense R.told) Any (end_tombstone (entry_value entry.now) was_directory) (s.old, e.old) result (s.new, e.new) }
{
    reset_if(s, e, was_directory)?;
    drop_tombstone(s, e, entry.number)
}

// Whether the tombstone with this number is a directory's: that has no version.
fn was_directory<S: EngineHost>(s: &S, number: Usn) -> Result<bool, OutOfMemory>
    ensures { IfOk result (λ b. FilterReads S.sense AnyFilter (was_directory_at number) s.now b) }
{
    match tombstone(s, number)? {
        Some(tombstone) => Ok(tombstone.version.0 == 0),
        None => Ok(false),
    }
}

// The tombstone goes, and where it was a directory's all is fed again.
fn end_removal<S: EngineHost, R: Remote>(
    s: &mut S,
    e: &mut Engine<R>,
    entry: &QueueEntry,
) -> Result<(), CallError>
    ensures { Answers (whole S.sense R.told) Any (removal_ended (entry_value entry.now)) (s.old, e.old) result (s.new, e.new) }
{
    let directory = was_directory(s, entry.number)?;
    end_tombstone(s, e, entry, directory)
}

/// Done of a removal: the tombstone goes, and where it was a directory's all is fed again. A stop of the device leaves the entry live, or
/// the tombstone.
pub(crate) fn done_removal<S: EngineHost, R: Remote>(
    s: &mut S,
    e: &mut Engine<R>,
    entry: &QueueEntry,
) -> Result<(), CallError>
    ensures { Answers (whole S.sense R.told) Any (done_removal (entry_value entry.now)) (s.old, e.old) result (s.new, e.new) }
{
    take(s, e, entry)?;
    end_removal(s, e, entry)
}
