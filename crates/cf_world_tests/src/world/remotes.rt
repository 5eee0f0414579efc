//! `replay` over a remote that fails, and with a device that fails in a `sync`.

use super::{ROOM, Run, replay, status_of};
use cf_base::{OutOfMemory, Status};
use cf_io::MemSink;
use std::alloc::Global;
use std::test::Fail;

/// A file that another device put, one that is made here, and a read of both.
const SCRIPT: &[u8] =
    b"peer put /a 68656c6c6f\nsync\ncreate /n\nopen /n\nwrite 1.1 0 61\nclose 1.1\nsync\nsync\nget /a 0 5\nget /n 0 1\n";

/// More asks than the script makes.
const MOST_ASKS: u64 = 16;

/// How many lines of the report begin so.
fn lines_with(report: &[u8], start: &[u8]) -> usize {
    report
        .split(|byte| *byte == b'\n')
        .filter(|line| line.starts_with(start))
        .count()
}

/// How many faults are reported; none where the file that is made here is lost.
fn faults_in(report: &[u8]) -> Option<usize> {
    if !report.ends_with(b"= data 61\n") {
        return None;
    }
    let lines = lines_with(report, b"- fault ");
    let refused = lines_with(report, b"= refused RemoteFault");
    Some(lines.saturating_add(refused))
}

/// How many faults a run reports in which one ask fails, where it is done.
fn faults_of(alloc: Global, ask: u64) -> Result<Option<usize>, OutOfMemory> {
    let fails = [ask];
    let run = Run {
        remote_fails: &fails,
        ..replay(SCRIPT)
    };
    let mut sink = MemSink::new(alloc, ROOM, &[])?;
    let status = status_of(alloc, &run, &mut sink);
    let faults = faults_in(sink.bytes());
    drop(sink);
    Ok(if status? == Status::Done {
        faults
    } else {
        None
    })
}

#[test]
fn each_ask_that_fails_is_reported_once(rt: HostRuntime) -> Result<(), Fail> {
    let mut all: usize = 0;
    for ask in 1..=MOST_ASKS {
        let faults = faults_of(rt.alloc(), ask)?;
        assert!(rt; faults.is_some(), "ask {ask}");
        all = faults.unwrap_or(0).saturating_add(all);
    }
    assert!(rt; 8 <= all && all <= 16, "{all} faults");
    Ok(())
}

/// Whether this run is done, and its report ends with the one byte of the file and its one version at the remote.
fn keeps_the_file(alloc: Global, script: &[u8]) -> Result<bool, OutOfMemory> {
    let mut sink = MemSink::new(alloc, ROOM, &[])?;
    let status = status_of(alloc, &replay(script), &mut sink);
    let is_kept = sink.bytes().ends_with(b"= data 61\n= ok 3 1\n");
    drop(sink);
    Ok(status? == Status::Done && is_kept)
}

/// Whether a run ends as it should whose device fails after that many calls of a `sync`: a later `sync` leaves nothing to do, the file
/// is here, and the remote has one version of it.
fn ends_well(alloc: Global, calls: u32, choice: &str) -> Result<bool, Fail> {
    let script = format!(in alloc;
        "peer put /a 68656c6c6f\ncreate /n\nopen /n\nwrite 1.1 0 61\nflush\nstop {calls}\nsync\ncrash {choice}\nrestart\nsync\nsync\nget /n 0 1\npeer stat /n\n"
    )?;
    let is_kept = keeps_the_file(alloc, script.as_str().as_bytes());
    drop(script);
    Ok(is_kept?)
}

/// More device calls than the `sync` makes.
const MOST_CALLS: u32 = 24;

#[test]
fn a_sync_that_is_stopped_is_made_good(rt: HostRuntime) -> Result<(), Fail> {
    for choice in ["keep", "drop", "mix 5"] {
        for calls in 0..MOST_CALLS {
            assert!(rt;
                ends_well(rt.alloc(), calls, choice)?,
                "{calls} calls, {choice}"
            );
        }
    }
    Ok(())
}
