//! Auxiliary records, as they are read.

ghost use Rattle.std.specs.Prelude.{◌≡◌, ◌≢◌, ◌<◌, ◌^◌, ◌++◌, ◌∷◌, List, ℕ, codes, length, MatchOption, MatchResult};
ghost use Rattle.cf_model.specs.Books as model;
ghost use Rattle.cf_model.specs.Books.{action_byte, usn_bytes};
ghost use Rattle.cf_model.specs.Words.{in_bytes};
ghost use Rattle.cf_engine_queue.specs.Books.{action_of, entry_value, tombstone_value};
ghost use Rattle.cf_engine_queue.specs.Records.{FitsUsn, IsCursor, IsEntry, IsSeen, IsTombstone, Reads, Says};

use crate::fields::{number_and_rest, number_of, pair_of};
use crate::records::Record;
use crate::uploads::{Action, QueueEntry, Tombstone};
use cf_base::{
    AuxRecord, Blob, CallError, Code, ItemId, Key, Name, Rid, SeenPath, Token, Usn, Version,
};
use std::alloc::Global;

/// The clock that the record of the cursor has, 0 too. Refused as NotAVolume where the value has not eight bytes. Takes no
/// memory.
pub fn read_cursor(value: &[u8]) -> Result<u64, Code>
    ensures { MatchResult result (λ clock. IsCursor (record { key = codes "c"; value = value.now }) clock) (λ c. (c ≡ Code.NotAVolume) × (length value.now ≢ 8)) }
{
    match number_of(value) {
        Some(clock) => Ok(clock),
        None => Err(Code::NotAVolume),
    }
}

// The same of a record whose key begins as that of the cursor.
fn cursor(rest: &[u8], value: &[u8]) -> Result<u64, CallError>
    ensures { Reads (IsCursor (record { key = 99 ∷ rest.now; value = value.now })) result }
{
    if !rest.is_empty() {
        return Err(CallError::No(Code::NotAVolume));
    }
    match read_cursor(value) {
        Ok(clock) => Ok(clock),
        Err(code) => Err(CallError::No(code)),
    }
}

fn action_of(byte: u8) -> Option<Action>
    ensures { MatchOption result ((a : model.Action) → byte ≢ action_byte a) (λ a. byte ≡ action_byte (action_of a)) }
{
    match byte {
        1 => Some(Action::Put),
        2 => Some(Action::MakeDir),
        3 => Some(Action::Move),
        4 => Some(Action::Remove),
        _ => None,
    }
}

fn action_and_rest(bytes: &[u8]) -> Option<(Action, &[u8])>
    ensures { MatchOption result ((a : model.Action) (rest : List ℕ) → bytes.now ≡ action_byte a ∷ rest → ⊥) (λ p. bytes.now ≡ action_byte (action_of p.0) ∷ p.1.now) }
{
    let [byte, rest @ ..] = bytes else {
        return None;
    };
    match action_of(*byte) {
        Some(action) => Some((action, rest)),
        None => None,
    }
}

fn usn_of(bytes: &[u8]) -> Option<Usn>
    ensures { MatchOption result (length bytes.now ≢ 8) (λ n. FitsUsn n × (bytes.now ≡ usn_bytes n)) }
{
    match pair_of(bytes) {
        Some((epoch, place)) => Some(Usn { epoch, place }),
        None => None,
    }
}

fn usn_and_rest(bytes: &[u8]) -> Option<(Usn, &[u8])>
    ensures { MatchOption result (length bytes.now < 8) (λ p. FitsUsn p.0 × (bytes.now ≡ usn_bytes p.0 ++ p.1.now)) }
{
    if bytes.len() < 8 {
        return None;
    }
    let (front, rest) = bytes.split_at(8);
    match usn_of(front) {
        Some(number) => Some((number, rest)),
        None => None,
    }
}

// What stands behind the action of an entry: a number, two items of the remote, and a name.
#[derive(Drop)]
struct EntryTail<'a> {
    number: Usn,
    rid: u64,
    parent: u64,
    name: &'a [u8],
}

fn read_tail(bytes: &[u8]) -> Option<EntryTail<'_>>
    ensures { MatchOption result (length bytes.now < 24) (λ b. FitsUsn b.number × (b.rid < 2 ^ 64) × (b.parent < 2 ^ 64) × (bytes.now ≡ usn_bytes b.number ++ (in_bytes 8 b.rid ++ (in_bytes 8 b.parent ++ b.name.now)))) }
{
    let Some((number, rest)) = usn_and_rest(bytes) else {
        return None;
    };
    let Some((rid, rest)) = number_and_rest(rest) else {
        return None;
    };
    let Some((parent, name)) = number_and_rest(rest) else {
        return None;
    };
    Some(EntryTail {
        number,
        rid,
        parent,
        name,
    })
}

fn entry(alloc: Global, token: &[u8], value: &[u8]) -> Result<QueueEntry, CallError>
    ensures { Reads (λ e. IsEntry (record { key = 113 ∷ token.now; value = value.now }) (entry_value e)) result }
{
    let Some((epoch, number)) = pair_of(token) else {
        return Err(CallError::No(Code::NotAVolume));
    };
    let Some((item, rest)) = number_and_rest(value) else {
        return Err(CallError::No(Code::NotAVolume));
    };
    let Some((action, rest)) = action_and_rest(rest) else {
        return Err(CallError::No(Code::NotAVolume));
    };
    let Some(tail) = read_tail(rest) else {
        return Err(CallError::No(Code::NotAVolume));
    };
    let name = Blob::from_slice(alloc, tail.name)?;
    Ok(QueueEntry {
        token: Token(Key { epoch, number }),
        item: ItemId(item),
        action,
        number: tail.number,
        rid: Rid(tail.rid),
        parent: Rid(tail.parent),
        name,
    })
}

fn seen(alloc: Global, item: &[u8], value: &[u8]) -> Result<SeenPath, CallError>
    ensures { Reads (IsSeen (record { key = 115 ∷ item.now; value = value.now })) result }
{
    let Some(item) = number_of(item) else {
        return Err(CallError::No(Code::NotAVolume));
    };
    let Some((parent, name)) = number_and_rest(value) else {
        return Err(CallError::No(Code::NotAVolume));
    };
    match Name::read(alloc, name) {
        Ok(name) => Ok(SeenPath {
            item: ItemId(item),
            parent: Rid(parent),
            name,
        }),
        Err(CallError::OutOfMemory) => Err(CallError::OutOfMemory),
        Err(CallError::No(_)) => Err(CallError::No(Code::NotAVolume)),
    }
}

fn tombstone(number: &[u8], value: &[u8]) -> Result<Tombstone, CallError>
    ensures { Reads (λ t. IsTombstone (record { key = 116 ∷ number.now; value = value.now }) (tombstone_value t)) result }
{
    let Some(number) = usn_of(number) else {
        return Err(CallError::No(Code::NotAVolume));
    };
    let Some((rid, version)) = number_and_rest(value) else {
        return Err(CallError::No(Code::NotAVolume));
    };
    let Some(version) = number_of(version) else {
        return Err(CallError::No(Code::NotAVolume));
    };
    Ok(Tombstone {
        number,
        rid: Rid(rid),
        version: Version(version),
    })
}

/// The path seen that a record has. Refused as NotAVolume exactly where it is no record of one.
pub fn read_seen(alloc: Global, key: &[u8], value: &[u8]) -> Result<SeenPath, CallError>
    ensures { Reads (IsSeen (record { key = key.now; value = value.now })) result }
{
    let [kind, item @ ..] = key else {
        return Err(CallError::No(Code::NotAVolume));
    };
    if *kind != b's' {
        return Err(CallError::No(Code::NotAVolume));
    }
    seen(alloc, item, value)
}

/// What the record says. Refused as NotAVolume exactly where it says nothing of a book.
pub fn read_record(alloc: Global, record: &AuxRecord) -> Result<Record, CallError>
    ensures { Reads (Says record.now) result }
{
    let value = record.value.as_slice();
    let [kind, rest @ ..] = record.key.as_slice() else {
        return Err(CallError::No(Code::NotAVolume));
    };
    if *kind == b'c' {
        return Ok(Record::Cursor(cursor(rest, value)?));
    }
    if *kind == b'q' {
        return Ok(Record::Entry(entry(alloc, rest, value)?));
    }
    if *kind == b's' {
        return Ok(Record::Seen(seen(alloc, rest, value)?));
    }
    if *kind == b't' {
        return Ok(Record::Buried(tombstone(rest, value)?));
    }
    Err(CallError::No(Code::NotAVolume))
}
