//! Why a frame is not read.

ghost use Rattle.std.specs.Prelude.{◌≡◌};
ghost use Rattle.cf_wire.specs.declared.failures.WireError.TheVariants.{OutOfMemory};
ghost use Rattle.cf_wire.specs.Given.{wire_of};

use cf_codec::CodecError;

/// Why a frame is not read. The number is a place in its bytes, from 0.
#[derive(Clone, Copy, Debug, PartialEq, Eq, thiserror::Error)]
pub enum WireError {
    /// The field that begins at this place lacks bytes.
    #[error("the field at byte {0} lacks bytes")]
    Short(usize),
    /// The byte at this place is none that can stand there.
    #[error("the byte at {0} is wrong")]
    BadField(usize),
    /// There was no memory.
    #[error("out of memory")]
    OutOfMemory,
}

impl From<CodecError> for WireError {
    ghost from_gives = { λ c e. e ≡ wire_of c };

    fn from(fail: CodecError) -> WireError {
        match fail {
            CodecError::Short(place) => WireError::Short(place),
            CodecError::BadField(place) => WireError::BadField(place),
        }
    }
}

impl From<cf_base::OutOfMemory> for WireError {
    ghost from_gives = { λ _ e. e ≡ OutOfMemory };

    fn from(_: cf_base::OutOfMemory) -> WireError {
        WireError::OutOfMemory
    }
}
