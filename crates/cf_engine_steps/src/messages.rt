//! Requests that come to the remote.

ghost use Rattle.cf_engine_steps.specs.Answering.{Answers, Any, Reads};
ghost use Rattle.cf_engine_steps.specs.States.{whole};
ghost use Rattle.cf_model.specs.Messages.{come, is_inline};
ghost use Rattle.cf_wire.specs.Spelled.{HasRoom};

use crate::engines::Engine;
use crate::posts::note_line;
use cf_base::{CallError, Reply, Request};
use cf_engine_host::EngineHost;
use cf_remote::Remote;

/// Whether requests come to the remote as they are sent, and their replies are taken at once.
pub fn is_inline<S: EngineHost, R: Remote>(s: &S, e: &Engine<R>) -> bool
    ensures { Reads (whole S.sense R.told) Any is_inline (s.now, e.now) result }
{
    let _ = s;
    e.is_inline()
}

/// The request, which is the message of this number, comes to the remote. Its reply is sent as the next message, with its line; none
/// where that is not kept, and where the remote failed, which has a line of its own. The items and the book stay as they are. It never
/// meets the device. Out of memory leaves the remote asked or not, and no line.
pub fn come<S: EngineHost, R: Remote>(
    s: &mut S,
    e: &mut Engine<R>,
    number: u32,
    request: &Request,
) -> Result<Option<Reply>, CallError>
    requires { HasRoom request.now }
    ensures { Answers (whole S.sense R.told) Any (come number request.now) (s.old, e.old) result (s.new, e.new) }
{
    let came = e.come(number, request)?;
    let reply = came.reply;
    match note_line(s, came.line) {
        Ok(()) => Ok(reply),
        Err(error) => {
            drop(reply);
            Err(error)
        }
    }
}
