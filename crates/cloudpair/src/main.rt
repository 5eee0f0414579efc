//! From standard input to standard output: a script of two devices that share one remote, to its report.
#![tactic(auto)]

use cf_base::Status;
use cf_disk::MemDisk;
use cf_io::{StdSink, StdSource};
use cf_pair_run::run_pair;
use cf_remote::StoreRemote;
use std::alloc::Global;
use std::process::ExitCode;
use std::{env, io};

/// The words after the program's name. Where one is no UTF-8 they are none that the program takes.
fn words(rt: &HostRuntime) -> Result<Vec<String>, Status> {
    let mut args = match env::args(rt) {
        Ok(args) => args,
        Err(e) if e.kind() == io::ErrorKind::InvalidData => return Err(Status::Usage),
        Err(_) => return Err(Status::OutOfMemory),
    };
    let _program = args.next();
    match args.collect(rt.alloc()) {
        Ok(words) => Ok(words),
        Err(_) => Err(Status::OutOfMemory),
    }
}

/// The size of each device, in bytes: 15,616 clusters.
const DEVICE: u64 = 67_108_864;

/// Two devices and a remote in memory.
fn outside(alloc: Global) -> Result<(MemDisk, MemDisk, StoreRemote), cf_base::OutOfMemory> {
    let first = MemDisk::new(alloc, DEVICE)?;
    let second = MemDisk::new(alloc, DEVICE)?;
    let remote = StoreRemote::new(alloc)?;
    Ok((first, second, remote))
}

/// The exit status of a run. Where there were words, a line on standard error says that it takes none.
fn ended(rt: &HostRuntime, status: Status) -> ExitCode {
    if status == Status::Usage {
        // That it cannot be written changes nothing.
        let _ = eprintln!(rt; "cloudpair: expected no words; the script comes from standard input");
    }
    ExitCode::from(status.number())
}

fn main(rt: HostRuntime) -> ExitCode {
    let words = match words(&rt) {
        Ok(words) => words,
        Err(status) => return ended(&rt, status),
    };
    let Ok((first, second, remote)) = outside(rt.alloc()) else {
        return ended(&rt, Status::OutOfMemory);
    };
    let mut source = StdSource::new(rt.reader());
    let mut sink = StdSink::new(io::writer(&rt));
    let finish = run_pair(
        rt.alloc(),
        &words,
        &mut source,
        &mut sink,
        first,
        second,
        remote,
    );
    ended(&rt, finish.status)
}
