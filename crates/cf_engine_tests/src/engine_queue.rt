//! What no clause says: that the calls succeed where there is memory, and some records from outside.

use cf_base::{AuxRecord, Blob, ItemId, Key, OutOfMemory, Rid, Token, Usn, Version};
use cf_engine_queue::{
    Action, Queue, QueueEntry, Tombstone, read_cursor, read_record, spell_cursor,
};
use std::alloc::Global;
use std::test::Fail;

const MOVE: [u8; 34] = [
    0, 0, 0, 0, 0, 0, 0, 2, 3, 0, 0, 0, 1, 0, 0, 0, 5, 0, 0, 0, 0, 0, 0, 0, 7, 0, 0, 0, 0, 0, 0, 0,
    1, 110,
];

const CURSOR: [u8; 8] = [0, 0, 0, 0, 0, 0, 1, 2];

fn number(place: u32) -> Usn {
    Usn { epoch: 1, place }
}

fn token(number: u32) -> Token {
    Token(Key { epoch: 1, number })
}

fn entry(alloc: Global, n: u32) -> Result<QueueEntry, OutOfMemory> {
    let name = Blob::from_slice(alloc, b"n")?;
    Ok(QueueEntry {
        token: token(n),
        item: ItemId(2),
        action: Action::Move,
        number: number(5),
        rid: Rid(7),
        parent: Rid(1),
        name,
    })
}

fn tombstone(place: u32) -> Tombstone {
    Tombstone {
        number: number(place),
        rid: Rid(7),
        version: Version(1),
    }
}

fn aux_record(alloc: Global, key: &[u8], value: &[u8]) -> Result<AuxRecord, OutOfMemory> {
    let key = Blob::from_slice(alloc, key)?;
    let value = Blob::from_slice(alloc, value)?;
    Ok(AuxRecord { key, value })
}

fn is_refused(alloc: Global, key: &[u8], value: &[u8]) -> Result<bool, OutOfMemory> {
    let one = aux_record(alloc, key, value)?;
    let read = read_record(alloc, &one);
    drop(one);
    let is_so = read.is_err();
    drop(read);
    Ok(is_so)
}

fn is_spelled(record: &AuxRecord, key: &[u8], value: &[u8]) -> bool {
    record.key.as_slice() == key && record.value.as_slice() == value
}

fn cursor_is_spelled(alloc: Global) -> Result<bool, OutOfMemory> {
    let spelled = spell_cursor(alloc, 258)?;
    let is_so = is_spelled(&spelled, b"c", &CURSOR)
        && read_cursor(spelled.value.as_slice()) == Ok(258);
    drop(spelled);
    Ok(is_so)
}

fn entry_is_spelled(alloc: Global) -> Result<bool, OutOfMemory> {
    let entry = entry(alloc, 3)?;
    let spelled = entry.spell(alloc);
    drop(entry);
    let spelled = spelled?;
    let is_so = is_spelled(&spelled, &[113, 0, 0, 0, 1, 0, 0, 0, 3], &MOVE);
    drop(spelled);
    Ok(is_so)
}

#[test]
fn records_are_spelled(rt: HostRuntime) -> Result<(), Fail> {
    assert!(rt; cursor_is_spelled(rt.alloc())?);
    assert!(rt; entry_is_spelled(rt.alloc())?);
    Ok(())
}

// Whether an entry and a tombstone are there after they were put in, and not after they were taken out.
fn holds(alloc: Global, queue: &mut Queue) -> Result<bool, OutOfMemory> {
    queue.add(entry(alloc, 3)?)?;
    queue.bury(tombstone(9))?;
    let held = queue.live(token(3)).is_some() && queue.drop_tombstone(number(9)).is_some();
    let ended = queue.end(token(3));
    let is_so = held && ended.is_some() && queue.live(token(3)).is_none();
    drop(ended);
    Ok(is_so)
}

#[test]
fn a_queue(rt: HostRuntime) -> Result<(), Fail> {
    let mut queue = Queue::new(rt.alloc());
    let held = holds(rt.alloc(), &mut queue);
    drop(queue);
    assert!(rt; held?);
    Ok(())
}

const BAD: [(&[u8], &[u8]); 4] = [(b"", b""), (b"x", b""), (b"c", &[1]), (b"cc", &CURSOR)];

#[test]
fn bad_records(rt: HostRuntime) -> Result<(), Fail> {
    for (key, value) in BAD {
        assert!(rt; is_refused(rt.alloc(), key, value)?);
    }
    Ok(())
}
