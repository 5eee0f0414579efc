//! A source and a sink of the system. What they read and write is not told to contracts.

ghost use Rattle.std.specs.Prelude.{None};

use crate::faults::IoError;
use crate::sinks::Sink;
use crate::sources::Source;
use std::io::{Read, Write};

/// A reader of the system, with a count of its faults.
#[derive(Drop)]
pub struct StdSource<T> {
    reader: T,
    count: u64,
}

impl<T: Read> StdSource<T> {
    /// A source that reads from here, and has met no fault yet.
    pub fn new(reader: T) -> StdSource<T> {
        StdSource { reader, count: 0 }
    }
}

impl<T: Read> Source for StdSource<T> {
    ghost left = { λ _. None };

    ghost faults = { λ s. s.count };

    fn read(&mut self, out: &mut [u8]) -> Result<usize, IoError> {
        match self.reader.read(out) {
            Ok(count) => Ok(count),
            Err(_) => {
                self.count = self.count.saturating_add(1);
                Err(IoError)
            }
        }
    }
}

/// A writer of the system, with a count of its faults. To take nothing counts as a fault.
#[derive(Drop)]
pub struct StdSink<T> {
    writer: T,
    count: u64,
}

impl<T: Write> StdSink<T> {
    /// A sink that writes to here, and has met no fault yet.
    pub fn new(writer: T) -> StdSink<T> {
        StdSink { writer, count: 0 }
    }
}

impl<T: Write> Sink for StdSink<T> {
    ghost held = { λ _. None };

    ghost faults = { λ s. s.count };

    fn write(&mut self, piece: &[u8]) -> Result<usize, IoError> {
        match self.writer.write(piece) {
            Ok(count) if count > 0 => Ok(count),
            _ => {
                self.count = self.count.saturating_add(1);
                Err(IoError)
            }
        }
    }
}
