//! What an engine opens: a volume that an engine may have left, and no other.

use super::SMALL;
use cf_base::{CallError, Code, Hydration, Identity, Policy, Population, Sequence};
use cf_disk::{Disk, MemDisk};
use cf_engine::SyncEngine;
use cf_filter::Filter;
use cf_item_rules::Creation;
use cf_journal::Journal;
use cf_link::Link;
use cf_remote::StoreRemote;
use std::alloc::Global;
use std::test::Fail;

const POLICY: Policy = Policy {
    hydration: Hydration::Partial,
    population: Population::Full,
    validate: false,
    restart: false,
    auto: false,
};

const IDENTITY: [u8; 24] = [
    0, 0, 0, 0, 0, 0, 0, 2, 0, 0, 0, 0, 0, 0, 0, 2, 0, 0, 0, 0, 0, 0, 0, 1,
];

/// The key of an upload.
const UPLOAD: [u8; 9] = [113, 0, 0, 0, 1, 0, 0, 0, 1];

/// An upload of a new file `n`, which is item 2 at its number 1.1.
const PUT: [u8; 34] = [
    0, 0, 0, 0, 0, 0, 0, 2, 1, 0, 0, 0, 1, 0, 0, 0, 1, 0, 0, 0, 0, 0, 0, 0, 0, 0, 0, 0, 0, 0, 0, 0,
    1, 110,
];

/// What is on a volume.
#[derive(Clone, Copy)]
enum Left {
    Nothing,
    /// A file with an identity of an engine.
    Ours,
    /// A file with an identity of one byte.
    Other,
    /// A record that says nothing of a book.
    Unknown,
    /// An upload of an item that was never there.
    NoItem,
    /// An upload of a file which notes no upload.
    NoAnchor,
}

fn volume(alloc: Global) -> Result<Filter<MemDisk>, CallError> {
    let disk = MemDisk::new(alloc, SMALL)?;
    if !Journal::is_fit_size(disk.size()) {
        drop(disk);
        return Err(CallError::No(Code::NotAVolume));
    }
    match Filter::format(alloc, disk, POLICY) {
        Ok(filter) => Ok(filter),
        Err((disk, error)) => {
            drop(disk);
            Err(error)
        }
    }
}

fn place(alloc: Global, filter: &mut Filter<MemDisk>, identity: &[u8]) -> Result<(), CallError> {
    let identity = Identity::new(alloc, identity)?;
    let what = Creation::Placeholder {
        size: 0,
        identity,
        mark: false,
    };
    let mut notes = Sequence::new(alloc);
    let made = filter.create("/n", &what, &mut notes);
    drop(notes);
    drop(what);
    made?;
    Ok(())
}

fn fill(alloc: Global, filter: &mut Filter<MemDisk>, what: Left) -> Result<(), CallError> {
    match what {
        Left::Nothing => Ok(()),
        Left::Ours => place(alloc, filter, &IDENTITY),
        Left::Other => place(alloc, filter, b"a"),
        Left::Unknown => filter.aux_put(b"x", Some(b"")),
        Left::NoItem => filter.aux_put(&UPLOAD, Some(&PUT)),
        Left::NoAnchor => {
            place(alloc, filter, &IDENTITY)?;
            filter.aux_put(&UPLOAD, Some(&PUT))
        }
    }
}

fn fill_and_flush(
    alloc: Global,
    filter: &mut Filter<MemDisk>,
    what: Left,
) -> Result<(), CallError> {
    fill(alloc, filter, what)?;
    filter.flush()?;
    Ok(())
}

// The disk of a volume with this on it, made durable.
fn disk_with(alloc: Global, what: Left) -> Result<MemDisk, CallError> {
    let mut filter = volume(alloc)?;
    let filled = fill_and_flush(alloc, &mut filter, what);
    let disk = filter.into_disk();
    match filled {
        Ok(()) => Ok(disk),
        Err(error) => {
            drop(disk);
            Err(error)
        }
    }
}

// Whether an engine opens the volume on the disk; nothing where it is refused for another cause than that it is none.
fn opens(alloc: Global, disk: MemDisk, link: Link<StoreRemote>) -> Option<bool> {
    if !Journal::is_fit_size(disk.size()) {
        drop(disk);
        drop(link);
        return None;
    }
    match SyncEngine::open(alloc, disk, POLICY, link) {
        Ok(engine) => {
            drop(engine);
            Some(true)
        }
        Err((disk, link, error)) => {
            drop(disk);
            drop(link);
            if error == CallError::No(Code::NotAVolume) {
                Some(false)
            } else {
                None
            }
        }
    }
}

fn is_opened(alloc: Global, what: Left) -> Result<Option<bool>, CallError> {
    let disk = disk_with(alloc, what)?;
    match StoreRemote::new(alloc) {
        Ok(remote) => Ok(opens(alloc, disk, Link::new(alloc, remote))),
        Err(_) => {
            drop(disk);
            Err(CallError::OutOfMemory)
        }
    }
}

const CASES: [(Left, bool); 6] = [
    (Left::Nothing, true),
    (Left::Ours, true),
    (Left::Other, false),
    (Left::Unknown, false),
    (Left::NoItem, false),
    (Left::NoAnchor, false),
];

#[test]
fn an_engine_opens_what_an_engine_leaves(rt: HostRuntime) -> Result<(), Fail> {
    for (what, opens) in CASES {
        assert!(rt; is_opened(rt.alloc(), what)? == Some(opens));
    }
    Ok(())
}
