//! What the remote holds, and what requests make of it.

ghost use Rattle.std.specs.Prelude.{◌≡◌, ◌≤◌, ◌<◌, ◌^◌, IfOk, OnOk, OnErr, None, length, option_map};
ghost use Rattle.cf_base.specs.declared.messages.Reply.TheVariants as reply;
ghost use Rattle.cf_base.specs.declared.messages.Request.TheVariants as request;
ghost use Rattle.cf_model.specs.Peers.{named};
ghost use Rattle.cf_model.specs.Store.{RecordedVoid, as_recorded, empty_remote, feed_of, is_live_dir, keep_last, listing_of, recorded_at, remote_step, settle, with_token};
ghost use Rattle.cf_remote.specs.Listable.{AreApart};
ghost use Rattle.cf_remote.specs.Stores.{Gives};
ghost use Rattle.cf_wire.specs.Spelled.{HasRoom, ReplyHasRoom};

use crate::decisions::is_live_dir;
use crate::outcomes::Outcome;
use crate::shelves::{Shelf, first_shelf};
use crate::tokens::Tokens;
use cf_base::{
    Blob, Entry, Key, OutOfMemory, Reply, Request, Rid, Round, Sequence, Token, Version, Why,
};
use std::alloc::Global;
use std::marker::Model;

/// The items, the clock of the last change, and what became of each token.
#[derive(Drop)]
pub(crate) struct Store {
    pub(crate) shelf: Shelf,
    pub(crate) clock: u64,
    pub(crate) tokens: Tokens,
    pub(crate) keep: Option<u32>,
    pub(crate) alloc: Global,
}

impl Model for Store {
    ghost use Rattle.std.specs.Prelude.{◌≤◌, length};
    ghost use Rattle.cf_model.specs.Store.{Held};

    ghost Value = { Held };

    ghost view = { λ s. record { items = s.shelf; clock = s.clock; tokens = s.tokens; keep = s.keep } };

    ghost invariant = { λ s. s.clock ≤ length s.tokens };
}

impl Store {
    /// The live root directory alone.
    pub(crate) fn new(alloc: Global) -> Result<Store, OutOfMemory>
        ensures { IfOk result (λ s. s ≡ empty_remote) }
    {
        let shelf = first_shelf(alloc)?;
        Ok(Store {
            shelf,
            clock: 0,
            tokens: Tokens::new(alloc),
            keep: None,
            alloc,
        })
    }

    /// The reply to a request whose token came before.
    fn recall(&self, token: Token) -> Option<Reply>
        ensures { result ≡ option_map (as_recorded token) (recorded_at self.now.tokens token) }
    {
        match self.tokens.get(token) {
            None => None,
            Some(Outcome::Done { rid, version }) => Some(Reply::Done {
                token,
                rid,
                version,
            }),
            Some(Outcome::Void) => Some(Reply::Void { token }),
        }
    }

    /// The token is void from now on.
    fn make_void(&mut self, token: Token) -> Result<(), OutOfMemory>
        requires { recorded_at self.old.tokens token ≡ None }
        ensures ok { OnOk result (self.new ≡ with_token token RecordedVoid self.old) }
        ensures err { OnErr result (self.new ≡ self.old) }
    {
        self.tokens.record(token, Outcome::Void)?;
        Ok(())
    }

    /// The request is refused, and its token void from now on.
    pub(crate) fn refuse(
        &mut self,
        token: Token,
        why: Why,
        version: Version,
    ) -> Result<Reply, OutOfMemory>
        requires { recorded_at self.old.tokens token ≡ None }
        ensures reply { IfOk result (λ r. r ≡ reply.Refused token why version) }
        ensures ok { OnOk result (self.new ≡ with_token token RecordedVoid self.old) }
        ensures err { OnErr result (self.new ≡ self.old) }
    {
        self.make_void(token)?;
        Ok(Reply::Refused {
            token,
            why,
            version,
        })
    }

    // what the remote reports

    fn feed(&self, round: Round, after: u64) -> Result<Reply, OutOfMemory>
        ensures told { IfOk result (λ r. r ≡ reply.Feed round self.now.clock (feed_of self.now after)) }
        ensures room { IfOk result ReplyHasRoom }
    {
        let entries = with_room(self.shelf.feed(after)?)?;
        Ok(Reply::Feed {
            round,
            clock: self.clock,
            entries,
        })
    }

    fn list(&self, key: Key, rid: Rid) -> Result<Reply, OutOfMemory>
        ensures told { IfOk result (λ r. r ≡ (remote_step self.now (request.List key rid)).0) }
        ensures room { IfOk result ReplyHasRoom }
    {
        if !is_live_dir(&self.shelf, rid) {
            return Ok(Reply::Missing { key });
        }
        let entries = with_room(self.shelf.listing(rid)?)?;
        Ok(Reply::Listing { key, entries })
    }

    /// The item is a live directory, so that a List of it is answered by a listing.
    pub(crate) fn is_listed(&self, rid: Rid) -> bool
        ensures { result ≡ is_live_dir self.now rid }
    {
        is_live_dir(&self.shelf, rid)
    }

    /// The entry of a name in the listing of a directory, where a reply has room for a listing. By a binary search.
    pub(crate) fn find(&self, rid: Rid, name: &[u8]) -> Result<Option<Entry>, OutOfMemory>
        ensures found { IfOk result (λ e. e ≡ named name.now (listing_of self.now rid)) }
        ensures room { IfOk result (λ _. length self.now.items < 2 ^ 32) }
        ensures apart { IfOk result (λ _. AreApart (listing_of self.now rid)) }
    {
        if self.shelf.len() > u32::MAX as usize {
            return Err(OutOfMemory);
        }
        match self.shelf.child(rid, name) {
            None => Ok(None),
            Some(item) => Ok(Some(item.entry()?)),
        }
    }

    fn fetch(
        &self,
        key: Key,
        rid: Rid,
        version: Version,
        start: u32,
        len: u32,
    ) -> Result<Reply, OutOfMemory>
        ensures told { IfOk result (λ r. r ≡ (remote_step self.now (request.Fetch key rid version start len)).0) }
        ensures room { IfOk result ReplyHasRoom }
    {
        match self.shelf.get(rid) {
            None => Ok(Reply::Missing { key }),
            Some(item) => item.fetched(self.alloc, key, version, start, len),
        }
    }

    // tokens alone

    fn settle(&mut self, token: Token) -> Result<Reply, OutOfMemory>
        ensures { Gives (settle self.old token (recorded_at self.old.tokens token)) self.old result self.new }
    {
        if let Some(reply) = self.recall(token) {
            return Ok(reply);
        }
        self.make_void(token)?;
        Ok(Reply::Void { token })
    }

    fn keep_last(&mut self, token: Token, count: u32) -> Result<Reply, OutOfMemory>
        requires { recorded_at self.old.tokens token ≡ None }
        ensures { Gives (keep_last self.old token count None) self.old result self.new }
    {
        let rid = Rid(1);
        let version = Version(0);
        self.tokens.record(token, Outcome::Done { rid, version })?;
        self.shelf.trim(count);
        self.keep = Some(count);
        Ok(Reply::Done {
            token,
            rid,
            version,
        })
    }

    fn put(
        &mut self,
        token: Token,
        rid: Rid,
        expect: Version,
        parent: Rid,
        name: Blob,
        bytes: Blob,
    ) -> Result<Reply, OutOfMemory>
        requires { length name ≤ 255 }
        ensures step { Gives (remote_step self.old (request.Put token rid expect parent name bytes)) self.old result self.new }
        ensures room { IfOk result ReplyHasRoom }
    {
        match self.recall(token) {
            Some(reply) => {
                drop(name);
                drop(bytes);
                Ok(reply)
            }
            None if rid.0 == 0 => self.put_new(token, parent, name, bytes),
            None => {
                drop(name);
                self.put_version(token, rid, expect, bytes)
            }
        }
    }

    /// Does a request by the rules of the remote. It keeps the bytes of a put, and does not copy them. Without memory nothing
    /// changes. It takes time by the logarithm of the number of items, and by the depth; a Feed and the Move of a directory with
    /// children go through all items, a Keep through all and the versions that it drops.
    pub(crate) fn step(&mut self, q: Request) -> Result<Reply, OutOfMemory>
        requires { HasRoom q }
        ensures step { Gives (remote_step self.old q) self.old result self.new }
        ensures room { IfOk result ReplyHasRoom }
    {
        match q {
            Request::Feed { round, after } => self.feed(round, after),
            Request::List { key, rid } => self.list(key, rid),
            Request::Fetch {
                key,
                rid,
                version,
                start,
                len,
            } => self.fetch(key, rid, version, start, len),
            Request::Put {
                token,
                rid,
                expect,
                parent,
                name,
                bytes,
            } => self.put(token, rid, expect, parent, name, bytes),
            Request::MakeDir {
                token,
                parent,
                name,
            } => match self.recall(token) {
                Some(reply) => {
                    drop(name);
                    Ok(reply)
                }
                None => self.make_dir(token, parent, name),
            },
            Request::Move {
                token,
                rid,
                parent,
                name,
            } => match self.recall(token) {
                Some(reply) => {
                    drop(name);
                    Ok(reply)
                }
                None => self.move_to(token, rid, parent, name),
            },
            Request::Remove { token, rid, expect } => match self.recall(token) {
                Some(reply) => Ok(reply),
                None => self.remove(token, rid, expect),
            },
            Request::Settle { token } => self.settle(token),
            Request::Keep { token, count } => match self.recall(token) {
                Some(reply) => Ok(reply),
                None => self.keep_last(token, count),
            },
        }
    }
}

/// The entries, where a reply has room for so many.
fn with_room(entries: Sequence<Entry>) -> Result<Sequence<Entry>, OutOfMemory>
    ensures same { IfOk result (λ es. es ≡ entries) }
    ensures room { IfOk result (λ es. length es < 2 ^ 32) }
{
    if entries.as_slice().len() > u32::MAX as usize {
        return Err(OutOfMemory);
    }
    Ok(entries)
}
