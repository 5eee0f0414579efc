//! Callbacks that are requests.

ghost use Rattle.std.specs.Prelude.{◌≡◌};
ghost use Rattle.cf_engine_provider.specs.Agencies.{Performs};
ghost use Rattle.cf_engine_provider.specs.Answering.{Answers};
ghost use Rattle.cf_engine_provider.specs.Parts.{Speaks};
ghost use Rattle.cf_base.specs.declared.waits.AskKind.TheVariants as ask_kind;
ghost use Rattle.cf_provider.specs.declared.outcomes.Callback.{Callback};
ghost use Rattle.cf_wire.specs.Spelled.{HasRoom};

use crate::agents::Agent;
use crate::exchanges::speak;
use crate::fetches::fetch_of;
use crate::list_views::find;
use crate::listings::list_of;
use crate::message_lines::note_line;
use cf_base::{Operation, OutOfMemory, Reply, Request, no_such_state};
use cf_provider::{Callback, Port};
use cf_remote::Remote;

impl<R: Remote> Agent<R> {
    // Sends a request, and gives the reply that came at once.
    fn send<P: Port>(
        &mut self,
        request: &Request,
        port: &mut P,
    ) -> Result<Option<Reply>, OutOfMemory>
        requires { HasRoom request.now }
        ensures { Speaks R.told P.goes request.now self.old port.old result self.new port.new }
    {
        let exchange = speak(&mut self.link, request)?;
        let Ok(()) = note_line(exchange.first, port) else {
            drop(exchange.second);
            drop(exchange.reply);
            return Err(OutOfMemory);
        };
        let Ok(()) = note_line(exchange.second, port) else {
            drop(exchange.reply);
            return Err(OutOfMemory);
        };
        Ok(exchange.reply)
    }

    /// Sends Fetch for a fetch ask, and takes its reply.
    pub(crate) fn fetch<P: Port>(
        &mut self,
        call: &Callback,
        port: &mut P,
    ) -> Result<(), OutOfMemory>
        requires { call.now.ask.kind ≡ ask_kind.Fetch }
        ensures { Performs P.goes (λ acts. Answers R.told self.old (P.sight port.old) call.now acts self.new) port.old result port.new }
    {
        let Some(row) = port.rows().get(call.ask.item) else {
            return Ok(());
        };
        let Some(request) = fetch_of(&call.ask, row) else {
            return Err(no_such_state());
        };
        let live = port.ask(call.ask.key);
        match self.send(&request, port) {
            Ok(Some(reply)) => {
                let taken = self.take_fetched(call.ask.key, live, &request, reply, port);
                drop(request);
                taken
            }
            Ok(None) => {
                drop(request);
                Ok(())
            }
            Err(_) => {
                drop(request);
                Err(OutOfMemory)
            }
        }
    }

    /// Sends List for a list ask, and takes its reply.
    pub(crate) fn list<P: Port>(&mut self, call: &Callback, port: &mut P) -> Result<(), OutOfMemory>
        requires { call.now.ask.kind ≡ ask_kind.List }
        ensures { Performs P.goes (λ acts. Answers R.told self.old (P.sight port.old) call.now acts self.new) port.old result port.new }
    {
        let Some(row) = port.rows().get(call.ask.item) else {
            return Ok(());
        };
        let Some(request) = list_of(&call.ask, row) else {
            return Err(no_such_state());
        };
        let Ok(found) = find(self.alloc, call.ask.key, port) else {
            drop(request);
            return Err(OutOfMemory);
        };
        match self.send(&request, port) {
            Ok(Some(reply)) => {
                let taken = self.take_listed(call.ask.key, &found, &request, &reply, port);
                drop(reply);
                drop(found);
                drop(request);
                taken
            }
            Ok(None) => {
                drop(found);
                drop(request);
                Ok(())
            }
            Err(_) => {
                drop(found);
                drop(request);
                Err(OutOfMemory)
            }
        }
    }

    /// Consents to a dehydration.
    pub(crate) fn consent<P: Port>(&self, call: &Callback, port: &mut P) -> Result<(), OutOfMemory>
        requires { call.now.ask.kind ≡ ask_kind.Dehydrate }
        ensures { Performs P.goes (λ acts. Answers R.told self.now (P.sight port.old) call.now acts self.now) port.old result port.new }
    {
        let consent = Operation::AckDehydrate {
            key: call.ask.key,
            good: true,
        };
        self.do_op(&consent, port)
    }
}
