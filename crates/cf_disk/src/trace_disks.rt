//! A disk in memory that keeps its past.

ghost use Rattle.std.specs.Prelude.{◌≡◌, ◌<◌, ◌^◌, [], ℕ, None, Some, IfOk, replicate, length, true};
ghost use Rattle.cf_disk.specs.Images.{IsWhole, durable};
ghost use Rattle.cf_disk.specs.Trails.{run_calls, MovesOn};

use crate::counters::is_spent;
use crate::disks::{Disk, DiskError};
use crate::media::Medium;
use crate::patches::zeros;
use crate::powers::KeptPowers;
use crate::trails::{Calls, Head, Kind};
use cf_base::{Choice, OutOfMemory};
use std::alloc::Global;

/// A disk in memory that also keeps each `read`, `write` and `sync` since the last power cut, with its bytes, and its first
/// power cuts. So it tells the images since each time that is not before the last power cut, and the list of its power cuts until
/// there are more than it has room for. A call that finds no room fails without being done. It does not tell its
/// armed number, and has the greatest quota.
#[derive(Drop)]
pub struct TraceDisk {
    medium: Medium,
    start: Vec<u8>,
    calls: Calls,
    powers: KeptPowers,
    /// How many moments lie before the last power cut, while that can be told.
    before: Option<u64>,
    armed: Option<u32>,
    aim: Option<u64>,
    faults: u64,
    written: u64,
    ghost whole: { IsWhole medium },
    ghost traced: { medium ≡ run_calls (durable start.items) calls.calls },
    ghost sizes: { powers.size ≡ length start.items },
    ghost same: { length medium.bytes ≡ length start.items },
    ghost small_faults: { faults < 2 ^ 64 },
    ghost small_written: { written < 2 ^ 64 },
}

// What a disk keeps of its past: the bytes at the last power cut, the calls since, and the power cuts.
#[derive(Drop)]
struct Past {
    start: Vec<u8>,
    calls: Calls,
    powers: KeptPowers,
}

// The past of a disk of zeros.
fn no_past(
    alloc: Global,
    size: usize,
    calls: usize,
    bytes: usize,
    powers: usize,
) -> Result<Past, OutOfMemory>
    ensures start { IfOk result (λ p. p.start.items ≡ replicate size 0) }
    ensures calls { IfOk result (λ p. p.calls ≡ record { calls = []; most = calls; most_bytes = bytes }) }
    ensures powers { IfOk result (λ p. p.powers ≡ record { kept = []; size = size; most = powers; told = true }) }
{
    let start = zeros(alloc, size)?;
    let calls = Calls::new(alloc, calls, bytes)?;
    let powers = KeptPowers::new(alloc, size, powers)?;
    Ok(Past {
        start,
        calls,
        powers,
    })
}

// How many moments lie before a power cut, where so many lay before the one before it.
fn moments_after(before: Option<u64>, calls: usize) -> Option<u64>
    ensures moves { MovesOn before calls result }
    ensures small { (b : ℕ) → before ≡ Some b → b < 2 ^ 64 }
{
    let before = before?;
    let now = before.checked_add(calls as u64)?;
    now.checked_add(1)
}

// A sync, done or not.
fn sync_head(done: bool) -> Head
    ensures { result ≡ record { kind = Kind.Sync; at = 0; len = 0; done = done } }
{
    Head {
        kind: Kind::Sync,
        at: 0,
        len: 0,
        done,
    }
}

impl TraceDisk {
    ghost use Rattle.cf_disk.specs.Disk.{Only};
    ghost use Rattle.cf_disk.specs.TraceState.{trace_state};

    /// A disk of so many bytes, all of them zero and durable, with none armed; with room for so many calls with so many
    /// bytes between two power cuts, and for so many power cuts. No later call takes memory.
    pub fn new(
        alloc: Global,
        size: u64,
        calls: u32,
        bytes: u64,
        powers: u32,
    ) -> Result<TraceDisk, OutOfMemory>
        ensures zeros { IfOk result (λ d. (trace_state d).seen ≡ replicate size 0) }
        ensures durable { IfOk result (λ d. Only (trace_state d).seen (trace_state d)) }
        ensures counts { IfOk result (λ d. ((trace_state d).written ≡ 0) × ((trace_state d).faults ≡ 0)) }
        ensures armed { IfOk result (λ d. d.armed ≡ None) }
        ensures tells { IfOk result (λ d. (trace_state d).tells (trace_state d).moment) }
        ensures powers { IfOk result (λ d. (trace_state d).powers ≡ Some []) }
        ensures room { IfOk result (λ d. (d.calls ≡ record { calls = []; most = calls; most_bytes = bytes }) × (d.powers.most ≡ powers)) }
    {
        let medium = Medium::new(alloc, size as usize)?;
        match no_past(
            alloc,
            size as usize,
            calls as usize,
            bytes as usize,
            powers as usize,
        ) {
            Ok(past) => {
                Ok(TraceDisk {
                    medium,
                    start: past.start,
                    calls: past.calls,
                    powers: past.powers,
                    before: Some(0),
                    armed: None,
                    aim: None,
                    faults: 0,
                    written: 0,
                })
            }
            Err(memory) => {
                drop(medium);
                Err(memory)
            }
        }
    }
}

impl Disk for TraceDisk {
    ghost use Rattle.std.specs.Prelude.{◌≡◌, Some, option_map};
    ghost use Rattle.cf_disk.specs.Disk.{Only, Powers, IsUnchanged};
    ghost use Rattle.cf_disk.specs.Images.{left_by};
    ghost use Rattle.cf_disk.specs.TraceState.{trace_state, one_size, tells_now, no_other};

    ghost state = { trace_state };

    fn size(&self) -> u64 {
        self.medium.len() as u64
    }

    fn read(&mut self, at: u64, out: &mut [u8]) -> Result<(), DiskError> {
        if !self.calls.has_room(out.len()) {
            self.faults = self.faults.saturating_add(1);
            return Err(DiskError);
        }
        if is_spent(&mut self.armed, &mut self.faults) {
            self.calls.push(
                Head {
                    kind: Kind::Read,
                    at,
                    len: 0,
                    done: false,
                },
                &[],
            );
            return Err(DiskError);
        }
        self.medium.read(at as usize, out);
        self.calls.push(
            Head {
                kind: Kind::Read,
                at,
                len: out.len(),
                done: true,
            },
            out,
        );
        Ok(())
    }

    fn write(&mut self, at: u64, bytes: &[u8]) -> Result<(), DiskError> {
        if !self.calls.has_room(bytes.len()) {
            self.faults = self.faults.saturating_add(1);
            return Err(DiskError);
        }
        self.medium.write(at as usize, bytes);
        self.written = self.written.saturating_add(bytes.len() as u64);
        let spent = is_spent(&mut self.armed, &mut self.faults);
        self.calls.push(
            Head {
                kind: Kind::Write,
                at,
                len: bytes.len(),
                done: !spent,
            },
            bytes,
        );
        if spent {
            return Err(DiskError);
        }
        Ok(())
    }

    fn sync(&mut self) -> Result<(), DiskError> {
        if !self.calls.has_room(0) {
            self.faults = self.faults.saturating_add(1);
            return Err(DiskError);
        }
        if is_spent(&mut self.armed, &mut self.faults) {
            self.calls.push(sync_head(false), &[]);
            return Err(DiskError);
        }
        self.medium.sync();
        self.calls.push(sync_head(true), &[]);
        Ok(())
    }

    fn arm(&mut self, calls: u32)
        ensures same { IsUnchanged (trace_state self.old) (trace_state self.new) }
        ensures armed { (trace_state self.new).armed ≡ option_map (λ _. Some calls) (trace_state self.old).armed }
        ensures number { self.new.armed ≡ Some calls }
    {
        self.armed = Some(calls);
    }

    /// What the power cut leaves of the pending bytes is the choice's, as with `MemDisk`.
    fn power(&mut self, choice: Choice)
        ensures left { (trace_state self.old).may_leave (trace_state self.new).seen }
        ensures durable { Only (trace_state self.new).seen (trace_state self.new) }
        ensures powers { Powers choice (trace_state self.old) (trace_state self.new) }
        ensures choice { (trace_state self.new).seen ≡ left_by choice self.old.medium }
    {
        self.before = moments_after(self.before, self.calls.len());
        self.medium.power(choice);
        self.medium.copy_to(&mut self.start);
        self.powers.add(choice, &self.start);
        self.calls.clear();
        self.armed = None;
    }

    fn quota(&self) -> u64 {
        u64::MAX
    }

    fn aim(&mut self, changes: u64) {
        self.aim = Some(changes);
    }

    fn aimed(&self) -> Option<u64> {
        self.aim
    }

    ghost counts_now = { tells_now };

    ghost only_now = { no_other };

    ghost reads_one = { λ d. d.whole.reads_one };

    ghost same_size = { one_size };
}
