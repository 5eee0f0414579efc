//! The order in which a feed's entries come, also where they name an item twice, as no remote of a script does; and that
//! there is no copy of no item.

use cf_base::{Blob, Entry, Identity, ItemId, Kind, OutOfMemory, Pin, Rid, Usn, Version};
use cf_engine_feed_plan::{copy_off, order};
use cf_table::{Place, Row, Rows};
use std::alloc::Global;
use std::test::Fail;

const MOST_NAME: usize = 255;

const MOST_IDENTITY: usize = 65_535;

fn row(alloc: Global, id: u64, parent: u64, kind: Kind) -> Result<Row, OutOfMemory> {
    let name = Blob::from_slice(alloc, b"n")?;
    let identity = Identity::new(alloc, b"")?;
    let place = Place {
        id: ItemId(id),
        parent: ItemId(parent),
        name,
        pin: Pin::Unspecified,
        number: Usn { epoch: 1, place: 7 },
    };
    Ok(Row::made(alloc, place, kind, 0, identity))
}

// No test has a row that cannot be spelled.
fn put(rows: &mut Rows, row: Row) -> Result<(), OutOfMemory> {
    if row.name.as_slice().len() <= MOST_NAME && row.identity.as_slice().len() <= MOST_IDENTITY {
        rows.put_row(row)
    } else {
        drop(row);
        Ok(())
    }
}

// A directory 2, and in it a file 3.
fn fill(alloc: Global, rows: &mut Rows) -> Result<(), OutOfMemory> {
    let directory = row(alloc, 2, 1, Kind::Dir)?;
    put(rows, directory)?;
    let file = row(alloc, 3, 2, Kind::File)?;
    put(rows, file)
}

fn entry(alloc: Global, rid: u64, live: bool) -> Result<Entry, OutOfMemory> {
    let name = Blob::from_slice(alloc, b"n")?;
    Ok(Entry {
        rid: Rid(rid),
        parent: Rid(1),
        name,
        dir: rid == 2,
        live,
        version: Version(1),
        len: 0,
        changed: 1,
    })
}

// A feed: the remote's items, and whether they live.
type Told = (u64, bool);

fn push(alloc: Global, feed: &mut Vec<Entry>, told: &[Told]) -> Result<(), OutOfMemory> {
    for (rid, live) in told {
        feed.push(entry(alloc, *rid, *live)?)?;
    }
    Ok(())
}

// Whether a feed comes in the order of these places.
fn comes_so(
    alloc: Global,
    rows: &Rows,
    feed: &mut Vec<Entry>,
    told: &[Told],
    known: &[Option<ItemId>],
    places: &[usize],
) -> Result<bool, OutOfMemory> {
    push(alloc, feed, told)?;
    let order = order(alloc, rows, feed.as_slice(), known)?;
    let same = order.as_slice() == places;
    drop(order);
    Ok(same)
}

fn is_order(
    alloc: Global,
    rows: &Rows,
    told: &[Told],
    known: &[Option<ItemId>],
    places: &[usize],
) -> Result<bool, OutOfMemory> {
    let mut feed = Vec::new(alloc);
    let same = comes_so(alloc, rows, &mut feed, told, known, places);
    drop(feed);
    same
}

const DIRECTORY: Option<ItemId> = Some(ItemId(2));

const FILE: Option<ItemId> = Some(ItemId(3));

const MIXED: [Told; 5] = [(9, true), (8, false), (2, false), (7, true), (3, false)];

const DOUBLED: [Told; 6] = [
    (3, true),
    (2, false),
    (3, false),
    (2, true),
    (3, false),
    (3, true),
];

// The dead come first, the deepest of them before others, and each entry of one item at its turn.
fn are_orders(alloc: Global, rows: &Rows) -> Result<bool, OutOfMemory> {
    let known = [None, None, DIRECTORY, None, FILE];
    let mixed = is_order(alloc, rows, &MIXED, &known, &[4, 2, 1, 0, 3])?;
    let known = [FILE, DIRECTORY, FILE, DIRECTORY, FILE, FILE];
    let doubled = is_order(alloc, rows, &DOUBLED, &known, &[2, 4, 1, 0, 3, 5])?;
    Ok(mixed && doubled)
}

fn has_no_copy(alloc: Global, rows: &Rows) -> bool {
    match copy_off(alloc, rows, ItemId(9)) {
        Ok(None) => true,
        Ok(Some(change)) => {
            drop(change);
            false
        }
        Err(_) => false,
    }
}

fn goes_well(alloc: Global, rows: &mut Rows) -> Result<bool, OutOfMemory> {
    fill(alloc, rows)?;
    Ok(are_orders(alloc, rows)? && has_no_copy(alloc, rows))
}

#[test]
fn entries_come_dead_first_and_each_at_its_turn(rt: HostRuntime) -> Result<(), Fail> {
    let mut rows = Rows::new(rt.alloc())?;
    let well = goes_well(rt.alloc(), &mut rows);
    drop(rows);
    assert!(rt; well?);
    Ok(())
}
