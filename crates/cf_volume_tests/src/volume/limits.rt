//! Volumes without room, and what `room` says before.

use crate::volume::edits::Edit;
use crate::volume::scripts::{Numbers, Step, wrong_step};
use cf_base::{CallError, Choice, Code, Pin};
use cf_disk::MemDisk;
use cf_volume::Room;
use std::alloc::Global;
use std::test::Fail;

// Of two clusters.
const TWO: u64 = 3_153_920;

const ALL: Room = Room {
    places: true,
    table: true,
    blocks: true,
};

const NO_TABLE: Room = Room {
    table: false,
    ..ALL
};

const NO_BLOCKS: Room = Room {
    blocks: false,
    ..ALL
};

const MAKE: Edit = Edit::Make(b'a');

// Whether each step goes so on a new volume of two clusters.
fn goes_so(alloc: Global, steps: &[Step]) -> Result<bool, CallError> {
    let disk = MemDisk::new(alloc, TWO)?;
    let wrong = wrong_step(alloc, disk, steps)?;
    Ok(wrong.is_none())
}

const STAYS: Numbers = Numbers {
    epoch: 1,
    count: 2,
    committed: 0,
    used: 2,
    clock: 0,
};

/// On a volume that may use two clusters.
pub(super) const WITHOUT_A_CLUSTER: [Step; 10] = [
    Step::Do(MAKE),
    Step::Room(Edit::Write(2, 0, 8192, 1), ALL),
    Step::Room(Edit::Write(2, 0, 8193, 1), NO_BLOCKS),
    Step::Refused(Edit::Write(2, 0, 8193, 1), Code::Full),
    Step::Do(Edit::Write(2, 0, 8192, 1)),
    Step::Room(Edit::Write(2, 8191, 1, 2), NO_BLOCKS),
    Step::Refused(Edit::Write(2, 8191, 1, 2), Code::Full),
    Step::Refused(Edit::Write(2, 8192, 1, 2), Code::Full),
    Step::Numbers(STAYS),
    Step::Has(2, 0, 8192, 1),
];

#[test]
fn a_change_without_a_cluster_is_refused(rt: HostRuntime) -> Result<(), Fail> {
    assert!(rt; goes_so(rt.alloc(), &WITHOUT_A_CLUSTER)?);
    Ok(())
}

// After the removal.
const REMOVED: Numbers = Numbers {
    epoch: 1,
    count: 5,
    committed: 4,
    used: 1,
    clock: 0,
};

// With the last point that a write leaves.
const WRITTEN: Numbers = Numbers {
    count: 6,
    committed: 5,
    ..REMOVED
};

const A_COMMIT_MAKES_ROOM: [Step; 14] = [
    Step::Do(MAKE),
    Step::Do(Edit::Make(b'b')),
    Step::Do(Edit::Write(2, 0, 1, 1)),
    Step::Do(Edit::Write(3, 0, 1, 1)),
    Step::Commit(4),
    Step::Do(Edit::Remove(3)),
    Step::Numbers(REMOVED),
    Step::Room(Edit::Write(2, 0, 1, 2), ALL),
    Step::Do(Edit::Write(2, 0, 1, 2)),
    Step::Numbers(WRITTEN),
    Step::Has(2, 0, 1, 2),
    Step::Cut(Choice::Drop),
    Step::Has(2, 0, 1, 1),
    Step::NoRow(3),
];

#[test]
fn a_commit_makes_room_for_a_change(rt: HostRuntime) -> Result<(), Fail> {
    assert!(rt; goes_so(rt.alloc(), &A_COMMIT_MAKES_ROOM)?);
    Ok(())
}

// The most zeros of the last record of a volume without a file: 115 bytes take the header and the root, 65,539 each of 19
// records, and 4 the last one beside its zeros.
const LAST: u16 = 61_264;

const FULL_TABLE: [Step; 13] = [
    Step::Fill(LAST),
    Step::NotPut((200, LAST + 1, 0)),
    Step::NotPut((201, 0, 0)),
    Step::NoRecord(201),
    Step::Room(MAKE, NO_TABLE),
    Step::Refused(MAKE, Code::TableFull),
    Step::Commit(0),
    Step::Cut(Choice::Drop),
    Step::Refused(MAKE, Code::TableFull),
    Step::TakeOut(200),
    Step::Room(MAKE, ALL),
    Step::Do(MAKE),
    Step::NoRecord(200),
];

#[test]
fn a_full_table_takes_no_record_and_no_item(rt: HostRuntime) -> Result<(), Fail> {
    assert!(rt; goes_so(rt.alloc(), &FULL_TABLE)?);
    Ok(())
}

// The file takes 75 bytes of the table.
const FULL_OF_RECORDS: [Step; 7] = [
    Step::Do(MAKE),
    Step::Fill(LAST - 75),
    Step::Room(Edit::Write(2, 0, 1, 1), NO_TABLE),
    Step::Refused(Edit::Write(2, 0, 1, 1), Code::TableFull),
    Step::Do(Edit::SetPin(2, Pin::Pinned)),
    Step::Do(Edit::Remove(2)),
    Step::Do(MAKE),
];

#[test]
fn a_full_table_takes_no_bytes(rt: HostRuntime) -> Result<(), Fail> {
    assert!(rt; goes_so(rt.alloc(), &FULL_OF_RECORDS)?);
    Ok(())
}

// The file and its records have to find room together: 4 bytes a record beside its value, and the last of each key counts.
const RECORDS_BESIDE: [Step; 17] = [
    Step::Fill(LAST - 75),
    Step::Room(MAKE, ALL),
    Step::RoomWith(MAKE, &[], ALL),
    Step::RoomWith(MAKE, &[(201, 0, 0)], NO_TABLE),
    Step::RoomWith(MAKE, &[(200, LAST - 75, 1)], ALL),
    Step::RoomWith(MAKE, &[(201, 0, 0), (200, LAST - 79, 0)], ALL),
    Step::RoomWith(MAKE, &[(201, 1, 0), (200, LAST - 79, 0)], NO_TABLE),
    Step::RoomWith(
        MAKE,
        &[(201, 100, 0), (200, LAST - 79, 0), (201, 0, 0)],
        ALL,
    ),
    Step::Do(MAKE),
    Step::NotPutAll(&[(200, 0, 0), (201, LAST - 78, 0)]),
    Step::NoRecord(201),
    Step::PutAll(&[(201, LAST - 79, 7), (200, 0, 0)]),
    Step::Next(19, (200, 0, 0)),
    Step::Next(200, (201, LAST - 79, 7)),
    Step::Commit(1),
    Step::Cut(Choice::Drop),
    Step::Next(200, (201, LAST - 79, 7)),
];

#[test]
fn records_find_room_beside_a_change(rt: HostRuntime) -> Result<(), Fail> {
    assert!(rt; goes_so(rt.alloc(), &RECORDS_BESIDE)?);
    Ok(())
}
