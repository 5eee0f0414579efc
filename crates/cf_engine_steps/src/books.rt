//! Records of the book, which are put, left out or dropped.

ghost use Rattle.std.specs.Prelude.{OnOk};
ghost use Rattle.cf_engine_host.specs.BookSteps.{PutsBeside};
ghost use Rattle.cf_engine_queue.specs.Books.{entry_value, tombstone_value};
ghost use Rattle.cf_engine_steps.specs.Answering.{Answers, Any, On};
ghost use Rattle.cf_engine_steps.specs.Recorded.{NumberIf};
ghost use Rattle.cf_engine_steps.specs.States.{whole};
ghost use Rattle.cf_model.specs.Books.{Book, with_anchor, with_entry, with_tombstone, without_entry, without_tombstone};
ghost use Rattle.cf_model.specs.Pushes.{anchored};
ghost use Rattle.cf_model.specs.Skips.{in_book, try_book};

use crate::book_tests::{spell_entry, spell_tombstone};
use crate::engines::Engine;
use crate::item_tests::has_number;
use crate::skips::leave_out;
use cf_base::{AuxRecord, CallError, Code, ItemId, OutOfMemory, Token, Usn, no_such_state};
use cf_engine_host::EngineHost;
use cf_engine_queue::{QueueEntry, Tombstone, entry_key, tombstone_key};
use cf_filter_steps::Steps;
use cf_remote::Remote;

/// Puts a record beside the others, or leaves it out where the table has no room.
pub(crate) fn put_or_leave_out<S: EngineHost, R: Remote>(
    s: &mut S,
    e: &mut Engine<R>,
    record: &AuxRecord,
) -> Result<bool, CallError>
    ensures { (f : Book → Book) → Answers (whole S.sense R.told) (On (PutsBeside record.now f)) (try_book f) (s.old, e.old) result (s.new, e.new) }
{
    if s.put_record(record)? {
        return Ok(true);
    }
    leave_out(s, e, Code::TableFull)
}

/// Records an upload whose token is above those of all entries, or leaves that out where the table has no room. False where it was
/// left out. Another token is never to be recorded: then it is out of memory, and all is as before. It never meets the device; what it
/// records is durable with the next commit.
pub fn try_entry<S: EngineHost, R: Remote>(
    s: &mut S,
    e: &mut Engine<R>,
    entry: &QueueEntry,
) -> Result<bool, CallError>
    ensures { Answers (whole S.sense R.told) Any (try_book (with_entry (entry_value entry.now))) (s.old, e.old) result (s.new, e.new) }
{
    let record = spell_entry(s, entry)?;
    put_or_leave_out(s, e, &record)
}

/// Records a tombstone, whose number was given and is that of no other, or leaves that out where the table has no room. False where it was
/// left out. Another number is never to be recorded: then it is out of memory, and all is as before. It never meets the device; what
/// it records is durable with the next commit.
pub fn try_tombstone<S: EngineHost, R: Remote>(
    s: &mut S,
    e: &mut Engine<R>,
    tombstone: &Tombstone,
) -> Result<bool, CallError>
    ensures { Answers (whole S.sense R.told) Any (try_book (with_tombstone (tombstone_value tombstone.now))) (s.old, e.old) result (s.new, e.new) }
{
    let record = spell_tombstone(s, tombstone)?;
    put_or_leave_out(s, e, &record)
}

/// The entry with this token is over: its record goes. It never meets the device, and is durable with the next commit.
pub fn end_entry<S: EngineHost, R: Remote>(
    s: &mut S,
    e: &mut Engine<R>,
    token: Token,
) -> Result<(), CallError>
    ensures { Answers (whole S.sense R.told) Any (in_book (without_entry token)) (s.old, e.old) result (s.new, e.new) }
{
    let key = entry_key(s.alloc(), token)?;
    s.drop_record(key.as_slice())
}

/// The tombstone with this number goes. It never meets the device, and is durable with the next commit.
pub fn drop_tombstone<S: EngineHost, R: Remote>(
    s: &mut S,
    e: &mut Engine<R>,
    number: Usn,
) -> Result<(), CallError>
    ensures { Answers (whole S.sense R.told) Any (in_book (without_tombstone number)) (s.old, e.old) result (s.new, e.new) }
{
    let key = tombstone_key(s.alloc(), number)?;
    s.drop_record(key.as_slice())
}

fn check_number<S: Steps>(s: &S, item: ItemId, number: Usn) -> Result<(), OutOfMemory>
    ensures { OnOk result (NumberIf S.sense item number s.now) }
{
    if has_number(s, item, number) {
        Ok(())
    } else {
        Err(no_such_state())
    }
}

fn keep_anchor<S: EngineHost, R: Remote>(
    s: &mut S,
    e: &mut Engine<R>,
    item: ItemId,
    number: Usn,
) -> Result<(), CallError>
    ensures { Answers (whole S.sense R.told) Any (in_book (with_anchor item number)) (s.old, e.old) result (s.new, e.new) }
{
    check_number(s, item, number)?;
    s.keep_anchor(item)
}

/// The number of the entry is that of its item's last upload. A removal has no item, and changes nothing. An item that is gone, or that
/// has another number by now, is out of memory, and all is as before. It never meets the device, and is durable with the next
/// commit.
pub fn keep_number<S: EngineHost, R: Remote>(
    s: &mut S,
    e: &mut Engine<R>,
    entry: &QueueEntry,
) -> Result<(), CallError>
    ensures { Answers (whole S.sense R.told) Any (in_book (anchored (entry_value entry.now))) (s.old, e.old) result (s.new, e.new) }
{
    if entry.item.0 == 0 {
        return Ok(());
    }
    keep_anchor(s, e, entry.item, entry.number)
}
