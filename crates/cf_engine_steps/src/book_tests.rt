//! What is tested of the book before a record is put.

ghost use Rattle.std.specs.Prelude.{◌≡◌, ◌||◌, IfOk, true};
ghost use Rattle.std.specs.List.{list_all};
ghost use Rattle.cf_base.specs.declared.answers.AuxRecord.{AuxRecord};
ghost use Rattle.cf_engine_queue.specs.Books.{entry_value, tombstone_value};
ghost use Rattle.cf_engine_queue.specs.Keys.{AreByKey};
ghost use Rattle.cf_engine_steps.specs.Recorded.{GivenIf, NewIf, PutsIf, comes_after_entries};
ghost use Rattle.cf_model.specs.Books.{with_entry, with_tombstone};
ghost use Rattle.cf_model.specs.Words.{comes_before};

use cf_base::{AuxRecord, OutOfMemory, Usn, no_such_state};
use cf_engine_host::EngineHost;
use cf_engine_queue::{QueueEntry, Tombstone, find_tombstone};
use cf_table::is_above;
use cf_volume_image::AuxRecords;

/// The first byte of the keys of entries. Those of paths seen and of tombstones begin with greater ones.
const ENTRY: u8 = b'q';

fn comes_after_entries(record: &AuxRecord) -> bool
    ensures { result ≡ comes_after_entries record.now.key }
{
    match record.key.as_slice() {
        [first, ..] => *first > ENTRY,
        [] => false,
    }
}

// Whether no entry has this key or one after it, among records in order of key.
fn is_newest(records: &AuxRecords, key: &[u8]) -> bool
    ensures { result ≡ true → AreByKey records.now → list_all (λ (r : AuxRecord). comes_before r.key key.now || comes_after_entries r.key) records.now ≡ true }
{
    match records.from(key).next() {
        Some(record) => comes_after_entries(record),
        None => true,
    }
}

// Whether no tombstone has this number.
fn is_new<S: EngineHost>(s: &S, number: Usn) -> Result<bool, OutOfMemory>
    ensures { IfOk result (NewIf S.sense number s.now) }
{
    let found = find_tombstone(s.alloc(), s.records(), number)?;
    Ok(found.is_none())
}

// Whether a change had this number before, or one after it.
fn was_given<S: EngineHost>(s: &S, number: Usn) -> bool
    ensures { GivenIf S.sense number s.now result }
{
    match s.next_number() {
        Some(next) => is_above(next, number),
        None => number.epoch <= s.epoch(),
    }
}

/// The record of an entry whose token is above those of all entries. Another is never to be put: then it is out of memory.
pub(crate) fn spell_entry<S: EngineHost>(
    s: &S,
    entry: &QueueEntry,
) -> Result<AuxRecord, OutOfMemory>
    ensures { IfOk result (λ r. PutsIf S.sense r (with_entry (entry_value entry.now)) s.now) }
{
    let record = entry.spell(s.alloc())?;
    if !is_newest(s.records(), record.key.as_slice()) {
        return Err(no_such_state());
    }
    Ok(record)
}

/// The record of a tombstone whose number was given, and that no tombstone has. Another is never to be put: then it is out of memory.
pub(crate) fn spell_tombstone<S: EngineHost>(
    s: &S,
    tombstone: &Tombstone,
) -> Result<AuxRecord, OutOfMemory>
    ensures { IfOk result (λ r. PutsIf S.sense r (with_tombstone (tombstone_value tombstone.now)) s.now) }
{
    let record = tombstone.spell(s.alloc())?;
    if !was_given(s, tombstone.number) {
        return Err(no_such_state());
    }
    if !is_new(s, tombstone.number)? {
        return Err(no_such_state());
    }
    Ok(record)
}
