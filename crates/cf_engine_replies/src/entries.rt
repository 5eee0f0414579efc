//! Entries that end.

ghost use Rattle.cf_engine_queue.specs.Books.{entry_value};
ghost use Rattle.cf_engine_steps.specs.Answering.{Answers, Any};
ghost use Rattle.cf_engine_steps.specs.States.{whole};
ghost use Rattle.cf_model.specs.PushReplies.{end_and_close, take, take_void};

use cf_base::CallError;
use cf_engine_host::EngineHost;
use cf_engine_queue::QueueEntry;
use cf_engine_steps::{Engine, end_entry};
use cf_remote::Remote;

/// Ends the entry, closes the round, and takes its item or tombstone out of the row of refusals.
pub(crate) fn end_and_close<S: EngineHost, R: Remote>(
    s: &mut S,
    e: &mut Engine<R>,
    entry: &QueueEntry,
) -> Result<(), CallError>
    ensures { Answers (whole S.sense R.told) Any (end_and_close (entry_value entry.now)) (s.old, e.old) result (s.new, e.new) }
{
    end_entry(s, e, entry.token)?;
    e.take_from_row(entry);
    Ok(())
}

/// Done ends the entry, and the pass has taken one.
pub(crate) fn take<S: EngineHost, R: Remote>(
    s: &mut S,
    e: &mut Engine<R>,
    entry: &QueueEntry,
) -> Result<(), CallError>
    ensures { Answers (whole S.sense R.told) Any (take (entry_value entry.now)) (s.old, e.old) result (s.new, e.new) }
{
    e.note_done();
    end_and_close(s, e, entry)
}

/// Void: the remote has not done the upload and never will. It ends the entry and closes the round. A stop of the device leaves the
/// entry live.
pub fn take_void<S: EngineHost, R: Remote>(
    s: &mut S,
    e: &mut Engine<R>,
    entry: &QueueEntry,
) -> Result<(), CallError>
    ensures { Answers (whole S.sense R.told) Any (take_void (entry_value entry.now)) (s.old, e.old) result (s.new, e.new) }
{
    end_and_close(s, e, entry)
}
