//! The link's own calls, for an engine that keeps its link in its provider.

ghost use Rattle.std.specs.Prelude.{◌≡◌, ◌<◌, ◌-◌, ◌^◌, IfErr, IfOk, OnErr};
ghost use Rattle.cf_base.specs.declared.notices.Frame.TheVariants as frame;
ghost use Rattle.cf_link.specs.Linked.{Arrives, Does, DoesPeer, Posts, Rises, Stopped, StopsPeer, posted_line};
ghost use Rattle.cf_model.specs.Messages.{come};
ghost use Rattle.cf_model.specs.Peers.{peer_event};
ghost use Rattle.cf_remote.specs.LookUps.{EventHasRoom};
ghost use Rattle.cf_wire.specs.Spelled.{HasRoom};

use crate::agents::Agent;
use cf_base::{Answer, CallError, Notes, OutOfMemory, PeerEvent, Request};
use cf_link::{Came, Posted};
use cf_remote::Remote;

impl<R: Remote> Agent<R> {
    /// As `Link::post`.
    pub fn post(&mut self, request: Request) -> Result<Posted, OutOfMemory>
        requires { HasRoom request }
        ensures posts { IfOk result (λ p. Posts R.told (frame.Request request) self.old.link p self.new.link) }
        ensures line { IfOk result (λ p. p.line ≡ posted_line (frame.Request request) p) }
        ensures remote { self.new.link.remote ≡ self.old.link.remote }
        ensures rest { self.new ≡ record self.old { link = self.new.link } }
        ensures err { OnErr result (self.new ≡ self.old) }
    {
        self.link.post(request)
    }

    /// As `Link::come`.
    pub fn come(&mut self, number: u32, request: &Request) -> Result<Came, OutOfMemory>
        requires { HasRoom request.now }
        ensures does { IfOk result (λ c. Does R.told (come number request.now) self.old.link c.reply c.line self.new.link) }
        ensures rises { IfOk result (λ c. Rises c.line (R.told self.old.link.remote) (R.told self.new.link.remote)) }
        ensures err { IfErr result (λ _. Stopped R.told (come number request.now) self.old.link self.new.link) }
        ensures rest { self.new ≡ record self.old { link = self.new.link } }
    {
        self.link.come(number, request)
    }

    /// As `Link::arrive`.
    pub fn arrive(&mut self, number: u32, notes: &mut Notes) -> Result<(), CallError>
        ensures arrives { Arrives R.told number self.old.link notes.old result self.new.link notes.new }
        ensures rest { self.new ≡ record self.old { link = self.new.link } }
    {
        self.link.arrive(number, notes)
    }

    /// As `Link::peer`.
    pub fn peer(&mut self, next: &mut u32, e: &PeerEvent) -> Result<Answer, OutOfMemory>
        requires first { 0 < next.old }
        requires next { next.old < 2 ^ 32 - 1 }
        requires room { EventHasRoom e.now }
        ensures does { IfOk result (λ a. DoesPeer R.told (peer_event e.now) next.old self.old.link a next.new self.new.link) }
        ensures err { IfErr result (λ _. StopsPeer R.told (peer_event e.now) next.old self.old.link next.new self.new.link) }
        ensures rest { self.new ≡ record self.old { link = self.new.link } }
    {
        self.link.peer(next, e)
    }

    /// As `Link::set_inline`.
    pub fn set_inline(&mut self, inline: bool)
        ensures { self.new ≡ record self.old { link = record self.old.link { inline = inline } } }
    {
        self.link.set_inline(inline);
    }
}
