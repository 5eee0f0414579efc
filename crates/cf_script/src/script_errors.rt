//! Why a script is not read.

ghost use Rattle.std.specs.Prelude.{◌≡◌};
ghost use Rattle.cf_script.specs.declared.script_errors.ScriptError.TheVariants as fails;

use std::alloc::{AllocError, AllocFailed};

/// Why a script is not read. Lines are counted from 1.
#[derive(Clone, Copy, Debug, PartialEq, Eq, thiserror::Error)]
pub enum ScriptError {
    /// The first bad line: it spells no event of the mode.
    #[error("line {0} is bad")]
    Syntax(u32),
    /// The line of the 100,001st event.
    #[error("line {0} has one event too many")]
    TooManyEvents(u32),
    #[error("out of memory")]
    OutOfMemory,
}

impl From<cf_base::OutOfMemory> for ScriptError {
    ghost from_gives = { λ _ e. e ≡ fails.OutOfMemory };

    fn from(_e: cf_base::OutOfMemory) -> ScriptError {
        ScriptError::OutOfMemory
    }
}

impl From<AllocError> for ScriptError {
    ghost from_gives = { λ _ e. e ≡ fails.OutOfMemory };

    fn from(_e: AllocError) -> ScriptError {
        ScriptError::OutOfMemory
    }
}

impl<T: Drop> From<AllocFailed<T>> for ScriptError {
    ghost from_gives = { λ _ e. e ≡ fails.OutOfMemory };

    fn from(_e: AllocFailed<T>) -> ScriptError {
        ScriptError::OutOfMemory
    }
}
