//! A link without its remote.

ghost use Rattle.std.specs.Prelude.{◌≡◌};
ghost use Rattle.cf_link.specs.Linked.{IsLink, IsMailbox, IsRemote};
ghost use Rattle.cf_model.specs.State as state;

use crate::links::Link;
use cf_remote::Remote;
use cf_wire::Net;
use std::alloc::Global;
use std::marker::Model;

/// The messages by number, and whether requests come to the remote, and replies are taken, at once.
#[derive(Drop)]
pub struct Mailbox {
    alloc: Global,
    net: Net,
    inline: bool,
}

impl Model for Mailbox {
    ghost use Rattle.cf_link.specs.Linked.{Boxed};

    ghost Value = { Boxed };

    ghost view = { λ m. record { net = m.net; inline = m.inline } };
}

impl<R: Remote> Link<R> {
    /// Takes the remote out. Takes no memory.
    pub fn part(self) -> (Mailbox, R)
        ensures mailbox { result.0 ≡ record { net = self.net; inline = self.inline } }
        ensures remote { result.1 ≡ self.remote }
        ensures stands { (link : state.Link) → IsLink R.told self link → IsMailbox result.0 link × IsRemote (R.told result.1) link }
    {
        let mailbox = Mailbox {
            alloc: self.alloc,
            net: self.net,
            inline: self.inline,
        };
        (mailbox, self.remote)
    }

    /// Puts a remote in, which may be another than before. Takes no memory.
    pub fn join(mailbox: Mailbox, remote: R) -> Link<R>
        ensures joined { result ≡ record { net = mailbox.net; remote = remote; inline = mailbox.inline } }
        ensures stands { (link : state.Link) → IsMailbox mailbox link → IsRemote (R.told remote) link → IsLink R.told result link }
    {
        Link {
            alloc: mailbox.alloc,
            net: mailbox.net,
            remote,
            inline: mailbox.inline,
        }
    }
}
