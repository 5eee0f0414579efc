//! From standard input to standard output: a script to its report, or the bytes of a device to those of its volume in format 2.
#![tactic(auto)]

use cf_base::Status;
use cf_disk::MemDisk;
use cf_io::{StdSink, StdSource};
use cf_remote::StoreRemote;
use cf_world::run;
use std::alloc::Global;
use std::process::ExitCode;
use std::{env, io};

/// The words after the program's name. Where one is no UTF-8 they are no command.
fn words(rt: &HostRuntime) -> Result<Vec<String>, Status> {
    let mut args = match env::args(rt) {
        Ok(args) => args,
        Err(e) if e.kind() == io::ErrorKind::InvalidData => return Err(Status::Usage),
        Err(_) => return Err(Status::OutOfMemory),
    };
    let _program = args.next();
    match args.collect(rt.alloc()) {
        Ok(words) => Ok(words),
        Err(_) => Err(Status::OutOfMemory),
    }
}

/// The size of the device, in bytes: 15,616 clusters.
const DEVICE: u64 = 67_108_864;

/// A device and a remote in memory.
fn outside(alloc: Global) -> Result<(MemDisk, StoreRemote), cf_base::OutOfMemory> {
    let disk = MemDisk::new(alloc, DEVICE)?;
    let remote = StoreRemote::new(alloc)?;
    Ok((disk, remote))
}

/// The exit status of a run. Where the words were no command, a line on standard error says which there are.
fn ended(rt: &HostRuntime, status: Status) -> ExitCode {
    if status == Status::Usage {
        // That it cannot be written changes nothing.
        let _ = eprintln!(rt;
            "cloudfiles: expected replay, filter, state, image, scrub, migrate, check, or gen and a number"
        );
    }
    ExitCode::from(status.number())
}

fn main(rt: HostRuntime) -> ExitCode {
    let words = match words(&rt) {
        Ok(words) => words,
        Err(status) => return ended(&rt, status),
    };
    let Ok((disk, remote)) = outside(rt.alloc()) else {
        return ended(&rt, Status::OutOfMemory);
    };
    let mut source = StdSource::new(rt.reader());
    let mut sink = StdSink::new(io::writer(&rt));
    let finish = run(rt.alloc(), &words, &mut source, &mut sink, disk, remote);
    if let Some(explanation) = &finish.explanation {
        let _ = eprintln!(rt; "cloudfiles: {explanation}");
    }
    ended(&rt, finish.status)
}
