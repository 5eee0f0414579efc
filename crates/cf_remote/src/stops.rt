//! How the look-up of a peer event ends.

ghost use Rattle.std.specs.Prelude.{◌≡◌};
ghost use Rattle.cf_remote.specs.Stops.{stop_of};
ghost use Rattle.cf_remote.specs.declared.stops.Stop.TheVariants as stop;

use crate::find_errors::FindError;
use cf_base::{Code, Reply, Request, Rid, Version};

/// Why the look-up of a peer event ends it.
#[derive(Drop)]
pub(crate) enum Stop {
    Refused(Code),
    /// The remote failed.
    Fault,
    /// The reply cannot be.
    Stray(Reply),
    OutOfMemory,
}

/// What a peer event does once its paths are looked up.
#[derive(Drop)]
pub(crate) enum Plan {
    Send(Request),
    Tell(Rid, Version),
}

impl From<cf_base::OutOfMemory> for Stop {
    ghost from_gives = { λ _ e. e ≡ stop.OutOfMemory };

    fn from(_e: cf_base::OutOfMemory) -> Stop {
        Stop::OutOfMemory
    }
}

impl From<FindError> for Stop {
    ghost from_gives = { λ a e. e ≡ stop_of a };

    fn from(e: FindError) -> Stop {
        match e {
            FindError::Fault => Stop::Fault,
            FindError::Stray(reply) => Stop::Stray(reply),
            FindError::OutOfMemory => Stop::OutOfMemory,
        }
    }
}
