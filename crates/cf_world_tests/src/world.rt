//! Whole runs: each status, and faults of the outside. Reports, and power cuts at each call of the device, stand in tests/.

mod faults;
mod remotes;
mod sinks;

use super::SMALL;
use cf_base::{OutOfMemory, Status};
use cf_disk::{Disk, MemDisk};
use cf_io::{MemSink, MemSource};
use cf_remote::{FlakyRemote, StoreRemote};
use cf_world::{Finish, run};
use std::alloc::Global;

/// The device of the program: 15,616 clusters.
const DEVICE: u64 = 67_108_864;

/// The most bytes that a run writes here.
const ROOM: usize = 20_000;

/// What a run is given. The calls that fail are counted from 1.
#[derive(Clone, Copy)]
struct Run<'a> {
    words: &'a [&'a str],
    bytes: &'a [u8],
    /// Which calls of source, sink and remote fail.
    source_fails: &'a [u64],
    sink_fails: &'a [u64],
    remote_fails: &'a [u64],
    /// How large the device is, and how many of its calls pass before one fails, if one does.
    size: u64,
    calls: Option<u32>,
}

const FILTER: &[&str] = &["filter"];

const REPLAY: &[&str] = &["replay"];

const NONE: &[u64] = &[];

/// A command where nothing fails.
fn command<'a>(words: &'a [&'a str], bytes: &'a [u8]) -> Run<'a> {
    Run {
        words,
        bytes,
        source_fails: NONE,
        sink_fails: NONE,
        remote_fails: NONE,
        size: SMALL,
        calls: None,
    }
}

fn filter<'a>(script: &'a [u8]) -> Run<'a> {
    command(FILTER, script)
}

fn replay<'a>(script: &'a [u8]) -> Run<'a> {
    command(REPLAY, script)
}

/// How a run finishes.
type Finished = Finish<MemDisk, FlakyRemote>;

fn run_on(
    alloc: Global,
    words: &[String],
    source: &mut MemSource,
    sink: &mut MemSink,
    given: &Run,
) -> Result<Finished, OutOfMemory> {
    let inner = StoreRemote::new(alloc)?;
    let remote = FlakyRemote::new(alloc, inner, given.remote_fails)?;
    let mut disk = match MemDisk::new(alloc, given.size) {
        Ok(disk) => disk,
        Err(error) => {
            drop(remote);
            return Err(error);
        }
    };
    if let Some(calls) = given.calls {
        disk.arm(calls);
    }
    Ok(run(alloc, words, source, sink, disk, remote))
}

fn run_with(
    alloc: Global,
    words: &mut Vec<String>,
    sink: &mut MemSink,
    given: &Run,
) -> Result<Finished, OutOfMemory> {
    for word in given.words {
        words.push(String::from_str(alloc, word)?)?;
    }
    let mut source = MemSource::new(alloc, given.bytes, given.source_fails)?;
    let finished = run_on(alloc, words.as_slice(), &mut source, sink, given);
    drop(source);
    finished
}

/// Does a run, which writes to this sink.
fn finish(alloc: Global, given: &Run, sink: &mut MemSink) -> Result<Finished, OutOfMemory> {
    let mut words = Vec::new(alloc);
    let finished = run_with(alloc, &mut words, sink, given);
    drop(words);
    finished
}

/// How a run ends that writes to this sink.
fn status_of(alloc: Global, given: &Run, sink: &mut MemSink) -> Result<Status, OutOfMemory> {
    let finished = finish(alloc, given, sink)?;
    let status = finished.status;
    drop(finished);
    Ok(status)
}

/// Whether a run ends so, and has written exactly this.
fn ends(alloc: Global, given: &Run, status: Status, written: &[u8]) -> Result<bool, OutOfMemory> {
    let mut sink = MemSink::new(alloc, ROOM, given.sink_fails)?;
    let ended = status_of(alloc, given, &mut sink);
    let same = sink.bytes() == written;
    drop(sink);
    Ok(ended? == status && same)
}
