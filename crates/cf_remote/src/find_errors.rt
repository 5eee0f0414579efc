//! Why a look-up in a directory finds nothing out.

ghost use Rattle.std.specs.Prelude.{◌≡◌};
ghost use Rattle.cf_remote.specs.Stops.{find_error_of};
ghost use Rattle.cf_remote.specs.declared.find_errors.FindError.TheVariants.{OutOfMemory};

use crate::ask_errors::AskError;
use cf_base::Reply;

/// Why a look-up in a directory finds nothing out.
#[derive(Debug, Drop, thiserror::Error)]
pub enum FindError {
    /// The remote failed. What it holds is as before.
    #[error("the remote failed")]
    Fault,
    /// The reply is no listing of the directory.
    #[error("a reply that does not fit")]
    Stray(Reply),
    /// There was no memory.
    #[error("out of memory")]
    OutOfMemory,
}

impl From<cf_base::OutOfMemory> for FindError {
    ghost from_gives = { λ _ e. e ≡ OutOfMemory };

    fn from(_e: cf_base::OutOfMemory) -> FindError {
        FindError::OutOfMemory
    }
}

impl From<AskError> for FindError {
    ghost from_gives = { λ a e. e ≡ find_error_of a };

    fn from(e: AskError) -> FindError {
        match e {
            AskError::Fault => FindError::Fault,
            AskError::OutOfMemory => FindError::OutOfMemory,
        }
    }
}
