//! What entries of a directory do.

ghost use Rattle.std.specs.Prelude.{◌≡◌, IfSome, Some};
ghost use Rattle.cf_engine_provider.specs.Agencies.{Any, Performs, Plays};
ghost use Rattle.cf_engine_provider.specs.Findings.{Knows};
ghost use Rattle.cf_engine_queue.specs.Identities.{HasOurs};
ghost use Rattle.cf_engine_provider.specs.Parts.{IsList, give_entries, listed, listing_unless};
ghost use Rattle.cf_base.specs.declared.answers.Shown.TheVariants as shown;
ghost use Rattle.cf_model.specs.Agents.{list_of};
ghost use Rattle.cf_model.specs.Arrows.{then_do};
ghost use Rattle.cf_model.specs.Fetching.{after_listing, no_entries};
ghost use Rattle.cf_model.specs.Items.{Item};
ghost use Rattle.cf_model.specs.Messages.{take_reply};
ghost use Rattle.cf_model.specs.Skips.{skip};
ghost use Rattle.cf_table.specs.Means.{Means};

use crate::agents::Agent;
use crate::attempts::{Told, attempt};
use crate::entries::{new_items, paths_from, unknown};
use crate::fetches::NO_FILE;
use crate::list_views::Found;
use crate::locals::target_of;
use cf_base::{
    Ask, Code, Entry, Key, NewItem, Operation, OutOfMemory, Reply, Request, Rid, SeenPath, Sequence,
};
use cf_provider::Port;
use cf_remote::Remote;
use cf_table::Row;
use cf_wire::fits;

/// The request for the entries of the item that the ask is about. None where no engine gave the item's identity.
pub(crate) fn list_of(ask: &Ask, row: &Row) -> Option<Request>
    ensures some { (i : Item) → Means row.now i → HasOurs i → result ≡ Some (list_of ask.now i) }
    ensures is { IfSome result (λ q. (i : Item) → Means row.now i → q ≡ list_of ask.now i) }
    ensures list { IfSome result (IsList ask.now.key) }
{
    let rid = target_of(row)?;
    Some(Request::List { key: ask.key, rid })
}

impl<R: Remote> Agent<R> {
    // A step is left out, and there are no entries.
    fn skip_entries<P: Port>(
        &mut self,
        key: Key,
        code: Code,
        port: &mut P,
    ) -> Result<(), OutOfMemory>
        ensures { Performs P.goes (λ acts. Plays R.told Any (then_do (skip code) (no_entries key)) self.old acts self.new) port.old result port.new }
    {
        self.skip(code, port)?;
        self.no_entries(key, port)
    }

    fn after_listing<P: Port>(
        &mut self,
        key: Key,
        code: Code,
        port: &mut P,
    ) -> Result<(), OutOfMemory>
        ensures { Performs P.goes (λ acts. Plays R.told Any (after_listing key (shown.Refused code)) self.old acts self.new) port.old result port.new }
    {
        match code {
            Code::TableFull => self.skip(code, port),
            Code::TooManyAsks => self.skip(code, port),
            Code::Exhausted => self.skip(code, port),
            Code::TooDeep => self.skip_entries(key, code, port),
            _ => self.no_entries(key, port),
        }
    }

    /// Entries, with the paths seen of their items. Where there is no room, or no number, the ask stays live; for any other
    /// cause there are no entries.
    pub(crate) fn give_entries<P: Port>(
        &mut self,
        key: Key,
        list: Sequence<NewItem>,
        seen: &[SeenPath],
        port: &mut P,
    ) -> Result<(), OutOfMemory>
        ensures { Performs P.goes (λ acts. Plays R.told Any (give_entries key list seen.now) self.old acts self.new) port.old result port.new }
    {
        let entries = Operation::Entries {
            key,
            list,
            good: true,
        };
        let told = attempt(&entries, seen, port);
        drop(entries);
        match told {
            Ok(Told::Refused(code)) => self.after_listing(key, code, port),
            Ok(Told::Done) => Ok(()),
            Ok(Told::Device) => Ok(()),
            Err(_) => Err(OutOfMemory),
        }
    }

    // The entries of items that are not here become new items.
    fn take_listing<P: Port>(
        &mut self,
        key: Key,
        entries: &[Entry],
        found: &Found,
        port: &mut P,
    ) -> Result<(), OutOfMemory>
        ensures { (own : Key) → Performs P.goes (λ acts. Plays R.told (Knows own found.now) (listing_unless found.now.sends_new key entries.now) self.old acts self.new) port.old result port.new }
    {
        if found.sends_new {
            return Ok(());
        }
        let new = unknown(self.alloc, &found.local, entries)?;
        let list = new_items(self.alloc, &new)?;
        let seen = paths_from(self.alloc, found.next.0, &new)?;
        self.give_entries(key, list, &seen, port)
    }

    /// Does what a reply to a request for entries does that fits it, where this is the live ask with its key.
    pub fn act_on_listed<P: Port>(
        &mut self,
        ask: &Ask,
        reply: &Reply,
        found: &Found,
        port: &mut P,
    ) -> Result<(), OutOfMemory>
        ensures { (own : Key) → Performs P.goes (λ acts. Plays R.told (Knows own found.now) (listed (Some ask.now) found.now.sends_new reply.now) self.old acts self.new) port.old result port.new }
    {
        match reply {
            Reply::Listing { key, entries } => self.take_listing(
                *key,
                entries.as_slice(),
                found,
                port,
            ),
            Reply::Missing { .. } => self.refuse_ask(NO_FILE, ask, port),
            Reply::Gone { .. } => Ok(()),
            Reply::Bytes { .. } => Ok(()),
            Reply::Feed { .. } => Ok(()),
            Reply::Done { .. } => Ok(()),
            Reply::Void { .. } => Ok(()),
            Reply::Refused { .. } => Ok(()),
        }
    }

    /// Takes the reply to a request for the entries of the ask with this key. A reply that is stale does nothing.
    pub fn take_listed<P: Port>(
        &mut self,
        key: Key,
        found: &Found,
        request: &Request,
        reply: &Reply,
        port: &mut P,
    ) -> Result<(), OutOfMemory>
        requires { IsList key request.now }
        ensures { Performs P.goes (λ acts. Plays R.told (Knows key found.now) (take_reply request.now reply.now) self.old acts self.new) port.old result port.new }
    {
        let fitting = fits(self.alloc, &found.local, Rid(0), request, reply)?;
        if !fitting {
            return Ok(());
        }
        match &found.live {
            Some(ask) => self.act_on_listed(ask, reply, found, port),
            None => Ok(()),
        }
    }
}
