//! Why a call is refused.

ghost use Rattle.std.specs.Prelude.{◌≡◌};
ghost use Rattle.cf_base.specs.Codes.{number_of};
ghost use Rattle.cf_base.specs.declared.codes.CallError.TheVariants.{OutOfMemory};

use crate::ids::Usn;
use std::alloc::{AllocError, AllocFailed};

/// Why a call or an event is refused. A call tests its causes in the order that it names.
#[derive(Clone, Copy, Debug, PartialEq, Eq)]
pub enum Code {
    /// A name of the path is none, or the path is the root's where that is not meant.
    BadPath,
    NotFound,
    Exists,
    NotDirectory,
    IsDirectory,
    NotEmpty,
    /// A directory would come under itself.
    IntoItself,
    /// A path would have more than 32 names.
    TooDeep,
    /// The directory's entries have not come yet.
    NotPopulated,
    NotPlaceholder,
    AlreadyPlaceholder,
    PolicyDenied,
    Pinned,
    NotInSync,
    /// Another number was given than the item's, which it names.
    UsnMismatch(Usn),
    /// A byte of the file is not here.
    NotHydrated,
    IdentityTooLong,
    /// A handle is open on the item, or a wait on it is live.
    InUse,
    BadRange,
    /// A file would have more than 16,777,216 bytes.
    TooLarge,
    NoHandle,
    NoWait,
    /// A byte or an entry is missing, and no provider is connected.
    ProviderDown,
    /// The key names no live ask.
    StaleKey,
    Misaligned,
    /// A block of the span is not owned by the ask.
    OutsideAsk,
    /// The operation does not answer an ask of this kind.
    WrongKind,
    /// The policy does not allow that hydration starts again.
    RestartDenied,
    BadPolicy,
    TooManyWaits,
    TooManyAsks,
    TooManyHandles,
    /// No cluster is left for the blocks of the change.
    Full,
    /// The table would have too many items or bytes.
    TableFull,
    /// A number of the epoch was the last of its kind.
    Exhausted,
    /// A call of the device failed.
    Device,
    /// An earlier call met Device or found no memory.
    Broken,
    /// The power is off.
    Off,
    /// The power is on already.
    Running,
    NoMessage,
    /// The reply does not fit, or nothing waits for it any more.
    Stale,
    RemoteFault,
    /// The remote would hold too many bytes or items.
    Quota,
    /// The device's bytes spell no volume.
    NotAVolume,
    /// The remote made the version once and no longer holds it.
    VersionGone,
}

impl Code {
    /// The number by which a refused fetch names the code, 1 to 45.
    pub fn number(self) -> u32
        ensures { result ≡ number_of self }
    {
        match self {
            Code::BadPath => 1,
            Code::NotFound => 2,
            Code::Exists => 3,
            Code::NotDirectory => 4,
            Code::IsDirectory => 5,
            Code::NotEmpty => 6,
            Code::IntoItself => 7,
            Code::TooDeep => 8,
            Code::NotPopulated => 9,
            Code::NotPlaceholder => 10,
            Code::AlreadyPlaceholder => 11,
            Code::PolicyDenied => 12,
            Code::Pinned => 13,
            Code::NotInSync => 14,
            Code::UsnMismatch(_) => 15,
            Code::NotHydrated => 16,
            Code::IdentityTooLong => 17,
            Code::InUse => 18,
            Code::BadRange => 19,
            Code::TooLarge => 20,
            Code::NoHandle => 21,
            Code::NoWait => 22,
            Code::ProviderDown => 23,
            Code::StaleKey => 24,
            Code::Misaligned => 25,
            Code::OutsideAsk => 26,
            Code::WrongKind => 27,
            Code::RestartDenied => 28,
            Code::BadPolicy => 29,
            Code::TooManyWaits => 30,
            Code::TooManyAsks => 31,
            Code::TooManyHandles => 32,
            Code::Full => 33,
            Code::TableFull => 34,
            Code::Exhausted => 35,
            Code::Device => 36,
            Code::Broken => 37,
            Code::Off => 38,
            Code::Running => 39,
            Code::NoMessage => 40,
            Code::Stale => 41,
            Code::RemoteFault => 42,
            Code::Quota => 43,
            Code::NotAVolume => 44,
            Code::VersionGone => 45,
        }
    }
}

/// Why a call fails: it is refused, or there was no memory.
#[derive(Clone, Copy, Debug, PartialEq, Eq, thiserror::Error)]
pub enum CallError {
    #[error("refused: {0:?}")]
    No(Code),
    #[error("out of memory")]
    OutOfMemory,
}

impl From<AllocError> for CallError {
    ghost from_gives = { λ _ e. e ≡ OutOfMemory };

    fn from(_e: AllocError) -> CallError {
        CallError::OutOfMemory
    }
}

impl<T: Drop> From<AllocFailed<T>> for CallError {
    ghost from_gives = { λ _ e. e ≡ OutOfMemory };

    fn from(_e: AllocFailed<T>) -> CallError {
        CallError::OutOfMemory
    }
}

impl From<crate::memory::OutOfMemory> for CallError {
    ghost from_gives = { λ _ e. e ≡ OutOfMemory };

    fn from(_e: crate::memory::OutOfMemory) -> CallError {
        CallError::OutOfMemory
    }
}
