//! Requests that are sent, and replies that come at once.

ghost use Rattle.cf_engine_steps.specs.Answering.{Answers, Any};
ghost use Rattle.cf_engine_steps.specs.Exchanges.{exchange};
ghost use Rattle.cf_engine_steps.specs.States.{whole};
ghost use Rattle.cf_wire.specs.Spelled.{HasRoom};

use crate::engines::Engine;
use crate::messages::come;
use crate::posts::note_line;
use cf_base::{CallError, Reply, Request};
use cf_engine_host::EngineHost;
use cf_remote::Remote;

/// Sends a request, with its line. Under an inline link it comes to the remote at once: the reply that is kept is given, which is still
/// to be taken. As `post` and `come`.
pub fn exchange<S: EngineHost, R: Remote>(
    s: &mut S,
    e: &mut Engine<R>,
    request: &Request,
) -> Result<Option<Reply>, CallError>
    requires { HasRoom request.now }
    ensures { Answers (whole S.sense R.told) Any (exchange request.now) (s.old, e.old) result (s.new, e.new) }
{
    let posted = e.post(request.copy()?)?;
    let number = posted.number;
    let kept = posted.kept;
    note_line(s, posted.line)?;
    if !kept {
        return Ok(None);
    }
    if !e.is_inline() {
        return Ok(None);
    }
    come(s, e, number, request)
}
