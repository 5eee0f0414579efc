//! The link itself.

ghost use Rattle.std.specs.Prelude.{◌≡◌, ◌<◌, ◌-◌, ◌^◌, IfErr, IfOk, true};
ghost use Rattle.cf_link.specs.Linked.{DoesPeer, IsLink, StopsPeer, linked_to};
ghost use Rattle.cf_model.specs.Peers.{peer_event};
ghost use Rattle.cf_model.specs.State as state;
ghost use Rattle.cf_model.specs.State.{new_link};
ghost use Rattle.cf_model.specs.Store.{Held};
ghost use Rattle.cf_remote.specs.LookUps.{EventHasRoom};
ghost use Rattle.cf_remote.specs.Peers.{IsCount, IsHeld};
ghost use Rattle.cf_wire.specs.Sending.{no_messages};

use cf_base::{Answer, OutOfMemory, PeerEvent};
use cf_remote::{Remote, peer};
use cf_wire::Net;
use std::alloc::Global;
use std::marker::Model;

/// The messages by number, the remote, and whether the link is inline: then a request comes to the remote at once, and its
/// reply is taken at once.
#[derive(Drop)]
pub struct Link<R: Remote> {
    pub(crate) alloc: Global,
    pub(crate) net: Net,
    pub(crate) remote: R,
    pub(crate) inline: bool,
}

impl<R: Remote> Model for Link<R> {
    ghost use Rattle.cf_link.specs.Linked.{Linked};

    ghost Value = { Linked R };

    ghost view = { λ l. record { net = l.net; remote = l.remote; inline = l.inline } };
}

impl<R: Remote> Link<R> {
    /// A link to this remote, inline and without messages. Takes no memory.
    pub fn new(alloc: Global, remote: R) -> Link<R>
        ensures new { result ≡ record { net = no_messages; remote = remote; inline = true } }
        ensures stands { (held : Held) → IsHeld (R.told remote).held held → IsCount (R.told remote).asks 0 → IsLink R.told result (new_link held) }
    {
        Link {
            alloc,
            net: Net::new(alloc),
            remote,
            inline: true,
        }
    }

    /// Whether a request comes to the remote, and its reply is taken, at once.
    pub fn is_inline(&self) -> bool
        ensures { result ≡ self.now.inline }
    {
        self.inline
    }

    /// Makes the link inline or not.
    pub fn set_inline(&mut self, inline: bool)
        ensures set { self.new ≡ record self.old { inline = inline } }
        ensures stands { (link : state.Link) → IsLink R.told self.old link → IsLink R.told self.new (record link { inline = inline }) }
    {
        self.inline = inline;
    }

    /// Does an event of another device on the remote: `cf_remote::peer` says what it needs and what it answers. The messages
    /// stay, and so does whether the link is inline, also without memory.
    pub fn peer(&mut self, next: &mut u32, e: &PeerEvent) -> Result<Answer, OutOfMemory>
        requires first { 0 < next.old }
        requires next { next.old < 2 ^ 32 - 1 }
        requires room { EventHasRoom e.now }
        ensures does { IfOk result (λ a. DoesPeer R.told (peer_event e.now) next.old self.old a next.new self.new) }
        ensures err { IfErr result (λ _. StopsPeer R.told (peer_event e.now) next.old self.old next.new self.new) }
        ensures net { self.new.net ≡ self.old.net }
        ensures inline { self.new.inline ≡ self.old.inline }
    {
        peer(self.alloc, &mut self.remote, next, e)
    }

    /// The same link to another remote, of any kind, and the remote that it had. The messages stay, and so does whether the link is
    /// inline.
    pub fn with_remote<S: Remote>(self, remote: S) -> (Link<S>, R)
        ensures link { result.0 ≡ linked_to remote self }
        ensures back { result.1 ≡ self.remote }
    {
        let Link {
            alloc,
            net,
            remote: former,
            inline,
        } = self;
        let link = Link {
            alloc,
            net,
            remote,
            inline,
        };
        (link, former)
    }

    /// The remote.
    pub fn into_remote(self) -> R
        ensures { result ≡ self.remote }
    {
        self.remote
    }
}
