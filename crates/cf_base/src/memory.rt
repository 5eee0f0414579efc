//! Out of memory.

ghost use Rattle.std.specs.Prelude.{◌≡◌};

use std::alloc::{AllocError, AllocFailed};

/// There was no memory. The object of the call is unchanged, unless the call says otherwise.
#[derive(Clone, Copy, Debug, PartialEq, Eq, thiserror::Error)]
#[error("out of memory")]
pub struct OutOfMemory;

impl From<AllocError> for OutOfMemory {
    fn from(_e: AllocError) -> OutOfMemory {
        OutOfMemory
    }
}

impl<T: Drop> From<AllocFailed<T>> for OutOfMemory {
    fn from(_e: AllocFailed<T>) -> OutOfMemory {
        OutOfMemory
    }
}

/// The answer to a case that no state has, where no law rules it out in code. Nothing is lost or wrong by it: the caller opens
/// the volume again, as after any other lack of memory. Each such place calls this, so that they can be counted.
pub fn no_such_state() -> OutOfMemory
    ensures { result ≡ record {} }
{
    OutOfMemory
}
