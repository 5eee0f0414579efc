//! What is asked of the remote for a fetch ask, and what its reply does.

ghost use Rattle.std.specs.Prelude.{◌≡◌, Some, IfSome};
ghost use Rattle.cf_engine_provider.specs.Agencies.{Any, Performs, Plays};
ghost use Rattle.cf_engine_provider.specs.Answering.{IsLive, IsShort};
ghost use Rattle.cf_engine_queue.specs.Identities.{HasOurs};
ghost use Rattle.cf_engine_provider.specs.Parts.{IsFetch, fetched, refuse_ask};
ghost use Rattle.cf_model.specs.Agents.{fetch_of};
ghost use Rattle.cf_model.specs.Fetching.{no_entries};
ghost use Rattle.cf_model.specs.Items.{Item};
ghost use Rattle.cf_model.specs.Messages.{take_reply};
ghost use Rattle.cf_table.specs.Means.{Means};

use crate::agents::Agent;
use cf_base::{
    Ask, AskKind, Code, Key, Operation, OutOfMemory, Reply, Request, Rid, Sequence, Version,
};
use cf_engine_queue::numbers_of;
use cf_provider::Port;
use cf_remote::Remote;
use cf_table::Row;
use cf_wire::{NoItems, fits};

pub(crate) const NO_FILE: u32 = 2;

/// The request for the bytes of the base that the ask is about. None where its numbers do not hold the span, or no engine gave the
/// item's identity.
pub(crate) fn fetch_of(ask: &Ask, row: &Row) -> Option<Request>
    ensures some { (i : Item) → Means row.now i → HasOurs i → IsShort ask.now.span → result ≡ Some (fetch_of ask.now i) }
    ensures is { IfSome result (λ q. (i : Item) → Means row.now i → q ≡ fetch_of ask.now i) }
    ensures fetch { IfSome result (IsFetch ask.now.key) }
{
    let Ok(start) = u32::try_from(ask.span.start) else {
        return None;
    };
    let Ok(len) = u32::try_from(ask.span.len) else {
        return None;
    };
    let numbers = numbers_of(&row.identity)?;
    Some(Request::Fetch {
        key: ask.key,
        rid: Rid(numbers.base),
        version: Version(numbers.version),
        start,
        len,
    })
}

impl<R: Remote> Agent<R> {
    pub(crate) fn no_entries<P: Port>(&self, key: Key, port: &mut P) -> Result<(), OutOfMemory>
        ensures { Performs P.goes (λ acts. Plays R.told Any (no_entries key) self.now acts self.now) port.old result port.new }
    {
        let none = Operation::Entries {
            key,
            list: Sequence::new(self.alloc),
            good: false,
        };
        self.do_op(&none, port)
    }

    /// No bytes for the whole ask, or no entries.
    pub fn refuse_ask<P: Port>(
        &self,
        status: u32,
        ask: &Ask,
        port: &mut P,
    ) -> Result<(), OutOfMemory>
        ensures { Performs P.goes (λ acts. Plays R.told Any (refuse_ask status ask.now) self.now acts self.now) port.old result port.new }
    {
        match ask.kind {
            AskKind::Fetch => {
                let refuse = Operation::Refuse {
                    key: ask.key,
                    span: ask.span,
                    status,
                };
                self.do_op(&refuse, port)
            }
            AskKind::Validate => Ok(()),
            AskKind::List => self.no_entries(ask.key, port),
            AskKind::Dehydrate => Ok(()),
        }
    }

    /// Does what a reply to a request for bytes does that fits it, where this is the live ask with its key.
    pub fn act_on_fetched<P: Port>(
        &mut self,
        ask: &Ask,
        reply: Reply,
        port: &mut P,
    ) -> Result<(), OutOfMemory>
        ensures { Performs P.goes (λ acts. Plays R.told Any (fetched (Some ask.now) reply) self.old acts self.new) port.old result port.new }
    {
        match reply {
            Reply::Bytes { key, start, bytes } => self.take_bytes(key, start, bytes, port),
            Reply::Missing { key: _ } => self.refuse_ask(NO_FILE, ask, port),
            Reply::Gone { key: _ } => self.refuse_ask(Code::VersionGone.number(), ask, port),
            Reply::Feed { .. } => Ok(()),
            Reply::Listing { .. } => Ok(()),
            Reply::Done { .. } => Ok(()),
            Reply::Void { .. } => Ok(()),
            Reply::Refused { .. } => Ok(()),
        }
    }

    /// Takes the reply to a request for bytes of the ask with this key, where `live` is that ask if it is live. A reply that is
    /// stale does nothing.
    pub fn take_fetched<P: Port>(
        &mut self,
        key: Key,
        live: Option<Ask>,
        request: &Request,
        reply: Reply,
        port: &mut P,
    ) -> Result<(), OutOfMemory>
        requires { IsFetch key request.now }
        ensures { Performs P.goes (λ acts. Plays R.told (IsLive key live) (take_reply request.now reply) self.old acts self.new) port.old result port.new }
    {
        let Ok(fitting) = fits(self.alloc, &NoItems, Rid(0), request, &reply) else {
            drop(reply);
            return Err(OutOfMemory);
        };
        if !fitting {
            drop(reply);
            return Ok(());
        }
        match live {
            Some(ask) => self.act_on_fetched(&ask, reply, port),
            None => {
                drop(reply);
                Ok(())
            }
        }
    }
}
