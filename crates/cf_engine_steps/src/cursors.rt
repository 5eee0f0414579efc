//! The cursor, which the book keeps.

ghost use Rattle.cf_engine_steps.specs.Answering.{Answers, Any};
ghost use Rattle.cf_engine_steps.specs.States.{whole};
ghost use Rattle.cf_model.specs.Books.{with_cursor};
ghost use Rattle.cf_model.specs.PushReplies.{reset_cursor};
ghost use Rattle.cf_model.specs.Skips.{try_book, try_cursor};

use crate::book_reads::cursor;
use crate::books::put_or_leave_out;
use crate::engines::Engine;
use cf_base::CallError;
use cf_engine_host::EngineHost;
use cf_engine_queue::spell_cursor;
use cf_remote::Remote;

/// The key of the record of the cursor.
const CURSOR: &[u8] = b"c";

/// The cursor becomes 0, so that all is fed again. It never meets the device, and is durable with the next commit.
pub fn reset_cursor<S: EngineHost, R: Remote>(s: &mut S, e: &mut Engine<R>) -> Result<(), CallError>
    ensures { Answers (whole S.sense R.told) Any reset_cursor (s.old, e.old) result (s.new, e.new) }
{
    s.drop_record(CURSOR)
}

// A cursor of 0 has no record, so that it always finds room.
fn clear<S: EngineHost, R: Remote>(s: &mut S, e: &mut Engine<R>) -> Result<bool, CallError>
    ensures { Answers (whole S.sense R.told) Any (try_book (with_cursor 0)) (s.old, e.old) result (s.new, e.new) }
{
    s.drop_record(CURSOR)?;
    Ok(true)
}

fn put<S: EngineHost, R: Remote>(
    s: &mut S,
    e: &mut Engine<R>,
    clock: u64,
) -> Result<bool, CallError>
    ensures { Answers (whole S.sense R.told) Any (try_book (with_cursor clock)) (s.old, e.old) result (s.new, e.new) }
{
    if clock == 0 {
        return clear(s, e);
    }
    let record = spell_cursor(s.alloc(), clock)?;
    put_or_leave_out(s, e, &record)
}

/// The cursor becomes this clock, or that is left out where the table has no room. False where it was left out. Where it is so
/// already nothing is done. It never meets the device; what it records is durable with the next commit.
pub fn try_cursor<S: EngineHost, R: Remote>(
    s: &mut S,
    e: &mut Engine<R>,
    clock: u64,
) -> Result<bool, CallError>
    ensures { Answers (whole S.sense R.told) Any (try_cursor clock) (s.old, e.old) result (s.new, e.new) }
{
    let now = cursor(s)?;
    if now == clock {
        return Ok(true);
    }
    put(s, e, clock)
}
