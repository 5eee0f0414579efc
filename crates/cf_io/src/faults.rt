//! Why bytes do not move.

ghost use Rattle.std.specs.Prelude.{◌≡◌};
ghost use Rattle.cf_io.specs.declared.faults.ReadError.TheVariants.{Fault, OutOfMemory};

use std::alloc::AllocError;

/// A read or a write failed.
#[derive(Clone, Copy, Debug, PartialEq, Eq, thiserror::Error)]
#[error("reading or writing failed")]
pub struct IoError;

/// Why a whole source is not read.
#[derive(Clone, Copy, Debug, PartialEq, Eq, thiserror::Error)]
pub enum ReadError {
    /// The source failed.
    #[error("reading failed")]
    Fault,
    /// The source has more bytes than the limit.
    #[error("too many bytes")]
    TooLong,
    #[error("out of memory")]
    OutOfMemory,
}

impl From<AllocError> for ReadError {
    ghost from_gives = { λ _ e. e ≡ OutOfMemory };

    fn from(_e: AllocError) -> ReadError {
        ReadError::OutOfMemory
    }
}

impl From<IoError> for ReadError {
    ghost from_gives = { λ _ e. e ≡ Fault };

    fn from(_e: IoError) -> ReadError {
        ReadError::Fault
    }
}
