//! What an engine does beside the volume: events of other devices, and messages that come to the remote by hand. The link takes
//! part also while the volume is broken or off, and outlives it.

ghost use Rattle.std.specs.Prelude.{◌≡◌, ◌<◌, ◌-◌, ◌^◌, IfErr, IfOk};
ghost use Rattle.cf_engine_steps.specs.States.{own_to, with_link_of};
ghost use Rattle.cf_link.specs.Linked.{Arrives, DoesPeer, StopsPeer};
ghost use Rattle.cf_model.specs.Peers.{peer_event};
ghost use Rattle.cf_model.specs.State.{fresh};
ghost use Rattle.cf_remote.specs.LookUps.{EventHasRoom};

use crate::engines::Engine;
use cf_base::{Answer, CallError, Notes, OutOfMemory, PeerEvent};
use cf_link::Link;
use cf_remote::Remote;

impl<R: Remote> Engine<R> {
    /// As `Link::set_inline`.
    pub fn set_inline(&mut self, inline: bool)
        ensures { self.new ≡ with_link_of (record self.old.agent.link { inline = inline }) self.old }
    {
        self.agent.set_inline(inline);
    }

    /// As `Link::arrive`. All but the link is as before.
    pub fn arrive(&mut self, number: u32, notes: &mut Notes) -> Result<(), CallError>
        ensures arrives { Arrives R.told number self.old.agent.link notes.old result self.new.agent.link notes.new }
        ensures rest { self.new ≡ with_link_of self.new.agent.link self.old }
    {
        self.agent.arrive(number, notes)
    }

    /// As `Link::peer`. All but the link is as before.
    pub fn peer(&mut self, next: &mut u32, event: &PeerEvent) -> Result<Answer, OutOfMemory>
        requires first { 0 < next.old }
        requires next { next.old < 2 ^ 32 - 1 }
        requires room { EventHasRoom event.now }
        ensures does { IfOk result (λ a. DoesPeer R.told (peer_event event.now) next.old self.old.agent.link a next.new self.new.agent.link) }
        ensures err { IfErr result (λ _. StopsPeer R.told (peer_event event.now) next.old self.old.agent.link next.new self.new.agent.link) }
        ensures rest { self.new ≡ with_link_of self.new.agent.link self.old }
    {
        self.agent.peer(next, event)
    }

    /// The volume is opened again: what was known until then is known no more. The link stays, with its messages and its remote.
    pub fn reopen(&mut self)
        ensures { self.new ≡ record self.old { volatile = fresh } }
    {
        self.volatile.forget();
    }

    /// The same engine with another remote, of any kind, and the remote that it had. All else stays.
    pub fn with_remote<S: Remote>(self, remote: S) -> (Engine<S>, R)
        ensures engine { result.0 ≡ own_to remote self }
        ensures back { result.1 ≡ self.agent.link.remote }
    {
        let Engine {
            agent,
            took_done,
            first_clock,
            volatile,
        } = self;
        let (agent, former) = agent.with_remote(remote);
        let engine = Engine {
            agent,
            took_done,
            first_clock,
            volatile,
        };
        (engine, former)
    }

    /// The link, with its messages and its remote. All else is gone.
    pub fn into_link(self) -> Link<R>
        ensures { result ≡ self.agent.link }
    {
        self.agent.into_link()
    }
}
