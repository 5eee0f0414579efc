//! Why calls of a volume stop.

ghost use Rattle.std.specs.Prelude.{◌≡◌};
ghost use Rattle.cf_volume_changes.specs.Calls.{IsStopping, fail_of};

use cf_base::{CallError, Code};
use cf_volume_points::Stop;

/// What a call answers that was stopped.
pub(crate) fn fail_of(stop: Stop) -> CallError
    ensures { result ≡ fail_of stop }
{
    match stop {
        Stop::Device => CallError::No(Code::Device),
        Stop::OutOfMemory => CallError::OutOfMemory,
    }
}

/// Whether a failure breaks the volume.
pub(crate) fn stops(fail: CallError) -> bool
    ensures { IsStopping fail result }
{
    matches!(fail, CallError::OutOfMemory | CallError::No(Code::Device))
}
