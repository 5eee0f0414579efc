//! The engine as a cloud client links it: a folder on a disk, kept as the remote has it.

use super::SMALL;
use cf_base::{
    Answer, Blob, Call, Handle, Hydration, Key, OutOfMemory, Policy, Population, Shown, Text,
};
use cf_disk::{Disk, MemDisk};
use cf_engine::SyncEngine;
use cf_journal::Journal;
use cf_link::Link;
use cf_remote::StoreRemote;
use std::alloc::Global;
use std::test::Fail;

const POLICY: Policy = Policy {
    hydration: Hydration::Partial,
    population: Population::Full,
    validate: false,
    restart: false,
    auto: false,
};

const HANDLE: Handle = Handle(Key {
    epoch: 1,
    number: 1,
});

type Folder = SyncEngine<MemDisk, StoreRemote>;

fn is_done(answer: Result<Answer, OutOfMemory>) -> Result<bool, OutOfMemory> {
    let answer = answer?;
    let is_refused = matches!(&answer.shown, Shown::Refused(_));
    drop(answer);
    Ok(!is_refused)
}

fn leaves_nothing(answer: Result<Answer, OutOfMemory>) -> Result<bool, OutOfMemory> {
    let answer = answer?;
    let is_so = matches!(&answer.shown, Shown::Count(0));
    drop(answer);
    Ok(is_so)
}

/// A file is made, opened and written.
fn writes(alloc: Global, folder: &mut Folder) -> Result<bool, OutOfMemory> {
    let path = Text::from_str(alloc, "/note")?;
    let made = is_done(folder.app(Call::Create { path }))?;
    let path = Text::from_str(alloc, "/note")?;
    let opened = is_done(folder.app(Call::Open { path }))?;
    let bytes = Blob::from_slice(alloc, b"hello")?;
    let written = is_done(folder.app(Call::Write {
        handle: HANDLE,
        offset: 0,
        bytes,
    }))?;
    Ok(made && opened && written)
}

/// It is uploaded by a sync, which leaves nothing to do, and made durable.
fn uploads(folder: &mut Folder) -> Result<bool, OutOfMemory> {
    let closed = is_done(folder.app(Call::Close { handle: HANDLE }))?;
    let synced = leaves_nothing(folder.sync())?;
    let flushed = is_done(folder.app(Call::Flush))?;
    Ok(closed && synced && flushed)
}

/// Whether both is done in a new folder.
fn serves(alloc: Global, disk: MemDisk, link: Link<StoreRemote>) -> Result<bool, OutOfMemory> {
    if !Journal::is_fit_size(disk.size()) {
        drop(disk);
        drop(link);
        return Ok(false);
    }
    match SyncEngine::format(alloc, disk, POLICY, link) {
        Ok(mut folder) => {
            let written = writes(alloc, &mut folder);
            let uploaded = uploads(&mut folder);
            drop(folder);
            Ok(written? && uploaded?)
        }
        Err((disk, link, _)) => {
            drop(disk);
            drop(link);
            Ok(false)
        }
    }
}

fn serves_on_a_new_disk(alloc: Global) -> Result<bool, OutOfMemory> {
    let remote = StoreRemote::new(alloc)?;
    match MemDisk::new(alloc, SMALL) {
        Ok(disk) => serves(alloc, disk, Link::new(alloc, remote)),
        Err(error) => {
            drop(remote);
            Err(error)
        }
    }
}

#[test]
fn a_client_writes_a_file_and_uploads_it(rt: HostRuntime) -> Result<(), Fail> {
    assert!(rt; serves_on_a_new_disk(rt.alloc())?);
    Ok(())
}
