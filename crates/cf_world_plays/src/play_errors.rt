//! Why a run ends early.

ghost use Rattle.std.specs.Prelude.{◌≡◌};
ghost use Rattle.cf_world_plays.specs.declared.play_errors.PlayError.TheVariants.{OutOfMemory, SinkFault};

use cf_io::IoError;
use std::alloc::AllocError;

/// Why not all is written.
#[derive(Clone, Copy, Debug, PartialEq, Eq, thiserror::Error)]
pub enum PlayError {
    #[error("writing failed")]
    SinkFault,
    /// The next text would bring the report past its limit.
    #[error("the report is too long")]
    TooLong,
    #[error("out of memory")]
    OutOfMemory,
}

impl From<AllocError> for PlayError {
    ghost from_gives = { λ _ e. e ≡ OutOfMemory };

    fn from(_e: AllocError) -> PlayError {
        PlayError::OutOfMemory
    }
}

impl From<cf_base::OutOfMemory> for PlayError {
    ghost from_gives = { λ _ e. e ≡ OutOfMemory };

    fn from(_e: cf_base::OutOfMemory) -> PlayError {
        PlayError::OutOfMemory
    }
}

impl From<IoError> for PlayError {
    ghost from_gives = { λ _ e. e ≡ SinkFault };

    fn from(_e: IoError) -> PlayError {
        PlayError::SinkFault
    }
}
