//! What the provider does in a callback.

use crate::agents::Agent;
use cf_base::{AskKind, OutOfMemory};
use cf_provider::{Callback, Port, Provider};
use cf_remote::Remote;

impl<R: Remote> Provider for Agent<R> {
    ghost use Rattle.cf_engine_provider.specs.Answering.{Answers};

    ghost answers = { Answers R.told };

    fn on_callback<P: Port>(&mut self, call: &Callback, port: &mut P) -> Result<(), OutOfMemory> {
        match call.ask.kind {
            AskKind::Fetch => self.fetch(call, port),
            AskKind::Validate => Ok(()),
            AskKind::List => self.list(call, port),
            AskKind::Dehydrate => self.consent(call, port),
        }
    }
}
