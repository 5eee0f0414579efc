//! How a pass sends its uploads.

use cf_base::{CallError, Request};
use cf_engine_host::EngineHost;
use cf_engine_messages::send;
use cf_engine_steps::Engine;
use cf_engine_uploads::Sender;
use cf_remote::Remote;

/// Sends as the engine does, which takes the replies that come at once.
pub(crate) struct Messenger;

impl Sender for Messenger {
    fn send<S: EngineHost, R: Remote>(
        &self,
        s: &mut S,
        e: &mut Engine<R>,
        request: Request,
    ) -> Result<(), CallError> {
        let done = send(s, e, &request);
        drop(request);
        done
    }
}
