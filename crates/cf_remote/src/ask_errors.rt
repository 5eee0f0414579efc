//! Why an ask has no reply.

ghost use Rattle.std.specs.Prelude.{◌≡◌};
ghost use Rattle.cf_remote.specs.declared.ask_errors.AskError.TheVariants.{OutOfMemory};

use std::alloc::{AllocError, AllocFailed};

/// Why an ask has no reply.
#[derive(Clone, Copy, Debug, PartialEq, Eq, thiserror::Error)]
pub enum AskError {
    /// The remote failed. What it holds is as before.
    #[error("the remote failed")]
    Fault,
    /// There was no memory. The remote is as before.
    #[error("out of memory")]
    OutOfMemory,
}

impl From<AllocError> for AskError {
    ghost from_gives = { λ _ e. e ≡ OutOfMemory };

    fn from(_e: AllocError) -> AskError {
        AskError::OutOfMemory
    }
}

impl<T: Drop> From<AllocFailed<T>> for AskError {
    ghost from_gives = { λ _ e. e ≡ OutOfMemory };

    fn from(_e: AllocFailed<T>) -> AskError {
        AskError::OutOfMemory
    }
}

impl From<cf_base::OutOfMemory> for AskError {
    ghost from_gives = { λ _ e. e ≡ OutOfMemory };

    fn from(_e: cf_base::OutOfMemory) -> AskError {
        AskError::OutOfMemory
    }
}
