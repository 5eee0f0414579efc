//! Who sends requests.

ghost use Rattle.cf_engine_steps.specs.Answering.{Answers, Any};
ghost use Rattle.cf_engine_steps.specs.States.{whole};
ghost use Rattle.cf_model.specs.Messages.{send};
ghost use Rattle.cf_wire.specs.Spelled.{HasRoom};

use cf_base::{CallError, Request};
use cf_engine_host::EngineHost;
use cf_engine_steps::Engine;
use cf_remote::Remote;

/// Sends requests, and takes the replies that come at once.
pub trait Sender {
    /// Sends a request, whose names need at most 255 bytes and whose bytes fewer than 4,294,967,296. What an upload is about is durable
    /// before its message. A stop of the device in that commit leaves no message.
    fn send<S: EngineHost, R: Remote>(
        &self,
        s: &mut S,
        e: &mut Engine<R>,
        request: Request,
    ) -> Result<(), CallError>
        requires { HasRoom request }
        ensures { Answers (whole S.sense R.told) Any (send request) (s.old, e.old) result (s.new, e.new) };
}
