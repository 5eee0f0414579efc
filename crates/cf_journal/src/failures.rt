//! Why a call of a journal fails.

ghost use Rattle.std.specs.Prelude.{◌≡◌};
ghost use Rattle.cf_journal.specs.declared.failures.JournalError.TheVariants.{Failed, OutOfMemory};

use cf_disk::DiskError;
use std::alloc::{AllocError, AllocFailed};

/// Why a call of a journal fails.
#[derive(Clone, Copy, Debug, PartialEq, Eq, thiserror::Error)]
pub enum JournalError {
    /// A call of the disk failed, whose count of faults rose.
    #[error("the disk failed")]
    Failed,
    /// The disk's bytes stand for no content.
    #[error("the disk holds no volume")]
    NotAVolume,
    /// An earlier call of this journal answered `Failed`: open the disk again.
    #[error("an earlier call failed")]
    Broken,
    /// There was no memory.
    #[error("out of memory")]
    OutOfMemory,
}

impl From<DiskError> for JournalError {
    ghost from_gives = { λ _ e. e ≡ Failed };

    fn from(_: DiskError) -> JournalError {
        JournalError::Failed
    }
}

impl From<AllocError> for JournalError {
    ghost from_gives = { λ _ e. e ≡ OutOfMemory };

    fn from(_: AllocError) -> JournalError {
        JournalError::OutOfMemory
    }
}

impl<T: Drop> From<AllocFailed<T>> for JournalError {
    ghost from_gives = { λ _ e. e ≡ OutOfMemory };

    fn from(_: AllocFailed<T>) -> JournalError {
        JournalError::OutOfMemory
    }
}

impl From<cf_base::OutOfMemory> for JournalError {
    ghost from_gives = { λ _ e. e ≡ OutOfMemory };

    fn from(_: cf_base::OutOfMemory) -> JournalError {
        JournalError::OutOfMemory
    }
}
