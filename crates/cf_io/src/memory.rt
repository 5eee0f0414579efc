//! A source and a sink in memory, of which listed calls fail.

ghost use Rattle.std.specs.Prelude.{◌≡◌, ◌≤◌, ◌⊎◌, [], take, drop, length, Some, IfOk};
ghost use Rattle.cf_io.specs.Moves.{Store, Rose};

use crate::faults::IoError;
use crate::sinks::Sink;
use crate::sources::Source;
use cf_base::OutOfMemory;
use std::alloc::Global;
use std::marker::Model;

/// Which calls fail, counted from 1, and how often one did.
#[derive(Drop)]
struct Faults {
    listed: Vec<u64>,
    calls: u64,
    count: u64,
}

impl Faults {
    /// Counts a call, and tells whether it is listed.
    fn is_next_listed(&mut self) -> bool
        ensures { self.new.count ≡ self.old.count }
    {
        self.calls = self.calls.saturating_add(1);
        self.listed.contains(&self.calls)
    }

    fn rise(&mut self) -> IoError
        ensures rose { Rose self.old.count self.new.count }
        ensures never_falls { self.old.count ≤ self.new.count }
    {
        self.count = self.count.saturating_add(1);
        IoError
    }
}

/// Copies as many bytes as both sides have, from the front, and reports how many.
fn copy_front(from: &[u8], to: &mut [u8]) -> usize
    ensures all { (result ≡ length from.now) ⊎ (result ≡ length to.old) }
    ensures from { result ≤ length from.now }
    ensures within { result ≤ length to.old }
    ensures size { length to.new ≡ length to.old }
    ensures copied { take result to.new ≡ take result from.now }
{
    let count = to.len().min(from.len());
    to[..count].copy_from_slice(&from[..count]);
    count
}

/// Bytes in memory. The listed calls fail, counted from 1.
#[derive(Drop)]
pub struct MemSource {
    bytes: Vec<u8>,
    at: usize,
    faults: Faults,
}

impl Model for MemSource {
    ghost Value = { Store };

    ghost view = { λ s. record { bytes = drop s.at s.bytes.items; faults = s.faults.count } };

    ghost invariant = { λ s. s.at ≤ length s.bytes.items };
}

impl MemSource {
    /// A source with these bytes, of which these calls fail.
    pub fn new(alloc: Global, bytes: &[u8], fails: &[u64]) -> Result<MemSource, OutOfMemory>
        ensures { IfOk result (λ s. s ≡ record { bytes = bytes.now; faults = 0 }) }
    {
        let bytes = Vec::from_slice(alloc, bytes)?;
        let listed = Vec::from_slice(alloc, fails)?;
        let faults = Faults {
            listed,
            calls: 0,
            count: 0,
        };
        Ok(MemSource {
            bytes,
            at: 0,
            faults,
        })
    }
}

impl Source for MemSource {
    ghost left = { λ s. Some s.bytes };

    ghost faults = { λ s. s.faults };

    fn read(&mut self, out: &mut [u8]) -> Result<usize, IoError> {
        if self.faults.is_next_listed() {
            return Err(self.faults.rise());
        }
        let count = copy_front(&self.bytes[self.at..], out);
        self.at += count;
        Ok(count)
    }
}

/// A sink in memory, with room for so many bytes. The listed calls fail, counted from 1, and each that finds no room.
#[derive(Drop)]
pub struct MemSink {
    bytes: Vec<u8>,
    room: usize,
    faults: Faults,
}

impl Model for MemSink {
    ghost Value = { Store };

    ghost view = { λ s. record { bytes = s.bytes.items; faults = s.faults.count } };
}

impl MemSink {
    /// An empty sink with room for `room` bytes, of which these calls fail. It takes its room now.
    pub fn new(alloc: Global, room: usize, fails: &[u64]) -> Result<MemSink, OutOfMemory>
        ensures { IfOk result (λ s. s ≡ record { bytes = []; faults = 0 }) }
    {
        let bytes = Vec::with_capacity(alloc, room)?;
        let listed = Vec::from_slice(alloc, fails)?;
        let faults = Faults {
            listed,
            calls: 0,
            count: 0,
        };
        Ok(MemSink {
            bytes,
            room,
            faults,
        })
    }

    /// The bytes that it took.
    pub fn bytes(&self) -> &[u8]
        ensures { result.now ≡ self.now.bytes }
    {
        self.bytes.as_slice()
    }
}

impl Sink for MemSink {
    ghost held = { λ s. Some s.bytes };

    ghost faults = { λ s. s.faults };

    fn write(&mut self, piece: &[u8]) -> Result<usize, IoError> {
        if self.faults.is_next_listed() {
            return Err(self.faults.rise());
        }
        let count = piece.len().min(self.room.saturating_sub(self.bytes.len()));
        if count == 0 {
            return Err(self.faults.rise());
        }
        if self.bytes.extend_from_slice(&piece[..count]).is_err() {
            return Err(self.faults.rise());
        }
        Ok(count)
    }
}
