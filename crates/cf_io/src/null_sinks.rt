//! A sink that keeps nothing.

ghost use Rattle.std.specs.Prelude.{None};

use crate::faults::IoError;
use crate::sinks::Sink;

/// Takes all bytes and keeps none. It never fails.
#[derive(Drop)]
pub struct NullSink;

impl Sink for NullSink {
    ghost held = { λ s. None };

    ghost faults = { λ s. 0 };

    fn write(&mut self, piece: &[u8]) -> Result<usize, IoError> {
        Ok(piece.len())
    }
}
