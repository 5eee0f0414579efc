//! Why a row cannot be read.

ghost use Rattle.std.specs.Prelude.{◌≡◌};
ghost use Rattle.cf_table.specs.Faults.{of_codec};
ghost use Rattle.cf_table.specs.declared.failures.RowError.TheVariants.{OutOfMemory};

use cf_codec::CodecError;
use std::alloc::{AllocError, AllocFailed};

/// Why a row, or a text with rows in it, cannot be read. The number is a place in the bytes that the reader was made of,
/// from 0.
#[derive(Clone, Copy, Debug, PartialEq, Eq, thiserror::Error)]
pub enum RowError {
    /// The field that begins at this place lacks bytes.
    #[error("the field at byte {0} lacks bytes")]
    Short(usize),
    /// The field that begins at this place spells what may not stand there, or the byte at this place should not be there.
    #[error("the field at byte {0} is wrong")]
    BadField(usize),
    /// There was no memory.
    #[error("out of memory")]
    OutOfMemory,
}

impl From<CodecError> for RowError {
    ghost from_gives = { λ c e. e ≡ of_codec c };

    fn from(fail: CodecError) -> RowError {
        match fail {
            CodecError::Short(place) => RowError::Short(place),
            CodecError::BadField(place) => RowError::BadField(place),
        }
    }
}

impl From<AllocError> for RowError {
    ghost from_gives = { λ _ e. e ≡ OutOfMemory };

    fn from(_: AllocError) -> RowError {
        RowError::OutOfMemory
    }
}

impl<T: Drop> From<AllocFailed<T>> for RowError {
    ghost from_gives = { λ _ e. e ≡ OutOfMemory };

    fn from(_: AllocFailed<T>) -> RowError {
        RowError::OutOfMemory
    }
}

impl From<cf_base::OutOfMemory> for RowError {
    ghost from_gives = { λ _ e. e ≡ OutOfMemory };

    fn from(_: cf_base::OutOfMemory) -> RowError {
        RowError::OutOfMemory
    }
}
