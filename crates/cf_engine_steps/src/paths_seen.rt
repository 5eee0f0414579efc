//! Paths seen, which the book keeps.

ghost use Rattle.cf_engine_steps.specs.Answering.{Answers, Any};
ghost use Rattle.cf_engine_steps.specs.Readings.{is_here};
ghost use Rattle.cf_engine_steps.specs.States.{whole};
ghost use Rattle.cf_model.specs.Books.{with_seen};
ghost use Rattle.cf_model.specs.Skips.{try_book, try_seen};
ghost use Rattle.cf_filter_steps.specs.Answering.{Any as AnyFilter, Reads as FilterReads};

use crate::books::put_or_leave_out;
use crate::engines::Engine;
use cf_base::{CallError, ItemId, SeenPath};
use cf_engine_host::EngineHost;
use cf_engine_queue::spell_seen;
use cf_filter_steps::Steps;
use cf_remote::Remote;

/// Whether an item is there.
pub(crate) fn is_here<S: Steps>(s: &S, item: ItemId) -> bool
    ensures { FilterReads S.sense AnyFilter (is_here item) s.now result }
{
    match s.rows().get(item) {
        Some(_) => true,
        None => false,
    }
}

// Records the path, or leaves it out.
fn put_seen<S: EngineHost, R: Remote>(
    s: &mut S,
    e: &mut Engine<R>,
    seen: &SeenPath,
) -> Result<bool, CallError>
    ensures { Answers (whole S.sense R.told) Any (try_book (with_seen seen.now)) (s.old, e.old) result (s.new, e.new) }
{
    let record = spell_seen(s.alloc(), seen)?;
    put_or_leave_out(s, e, &record)
}

/// Records where an item stands in the remote, in place of what was recorded of it, or leaves that out where the table has no room.
/// False where it was left out. Of an item that is gone nothing is recorded, which counts as done. A name that is none cannot be
/// recorded: then it is out of memory, and all is as before. It never meets the device; what it records is durable with the next
/// commit.
pub fn try_seen<S: EngineHost, R: Remote>(
    s: &mut S,
    e: &mut Engine<R>,
    seen: &SeenPath,
) -> Result<bool, CallError>
    ensures { Answers (whole S.sense R.told) Any (try_seen seen.now) (s.old, e.old) result (s.new, e.new) }
{
    if is_here(s, seen.item) {
        put_seen(s, e, seen)
    } else {
        Ok(true)
    }
}
