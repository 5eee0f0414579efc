//! An ask of the remote.

ghost use Rattle.std.specs.Prelude.{None, Ok, Err};
ghost use Rattle.cf_link.specs.Parts.{IsAsked, IsUnanswered};
ghost use Rattle.cf_wire.specs.Spelled.{HasRoom};

use cf_base::{OutOfMemory, Reply, Request};
use cf_remote::{AskError, Remote};

fn unanswered(e: AskError) -> Result<Option<Reply>, OutOfMemory>
    ensures { IsUnanswered e result }
{
    match e {
        AskError::Fault => Ok(None),
        AskError::OutOfMemory => Err(OutOfMemory),
    }
}

/// The remote's reply to a request, or none where it failed. Without memory what it tells is as before.
pub(crate) fn ask<R: Remote>(
    remote: &mut R,
    request: &Request,
) -> Result<Option<Reply>, OutOfMemory>
    requires { HasRoom request.now }
    ensures { IsAsked request.now (R.told remote.old) result (R.told remote.new) }
{
    match remote.ask(request) {
        Ok(reply) => Ok(Some(reply)),
        Err(e) => unanswered(e),
    }
}
