//! An engine as the actor of the command `replay`.

ghost use Rattle.std.specs.Prelude.{◌≡◌, ℕ};
ghost use Rattle.cf_base.specs.declared.policies.Mode.TheVariants as mode;
ghost use Rattle.cf_engine.specs.Actors.{acts_of, new_engine, with_remote};
ghost use Rattle.cf_link.specs.Linked.{IsRemote};
ghost use Rattle.cf_model.specs.State.{State, start};
ghost use Rattle.cf_model.specs.Store.{Held};
ghost use Rattle.cf_remote.specs.Peers.{IsCount, IsHeld};

use cf_base::{Answer, Event, Mode, OutOfMemory, no_such_state};
use cf_engine_steps::Engine;
use cf_filter::FilterOn;
use cf_filter_events::Actor;
use cf_link::Link;
use cf_provider::{Callback, Port, Provider};
use cf_remote::Remote;
use cf_volume_ground::Ground;
use std::alloc::Global;
use std::marker::Model;

/// An engine with its link to the remote, and the number of the next token of other devices.
#[derive(Drop)]
pub struct SyncActor<R: Remote> {
    pub(crate) engine: Engine<R>,
    pub(crate) next: u32,
}

impl<R: Remote> Model for SyncActor<R> {
    ghost use Rattle.cf_engine.specs.Actors.{Syncing};

    ghost Value = { Syncing R };

    ghost view = { λ a. record { engine = a.engine; next = a.next } };
}

impl<R: Remote> SyncActor<R> {
    /// An engine of a volume that was just made, on a link without messages to this remote, which was not asked yet. Other devices have
    /// used no token. Takes no memory.
    pub fn new(alloc: Global, remote: R) -> SyncActor<R>
        ensures remote { result.engine.agent.link.remote ≡ remote }
        ensures begins { (held : Held) (clusters : ℕ) → IsHeld (R.told remote).held held → IsCount (R.told remote).asks 0 → (acts_of R.told).stands result (start mode.Replay held clusters) }
    {
        SyncActor::on_link(alloc, Link::new(alloc, remote))
    }

    /// An engine of a volume that was just opened, on this link. Other devices have used no token. Takes no memory.
    pub fn on_link(alloc: Global, link: Link<R>) -> SyncActor<R>
        ensures { result ≡ new_engine link }
    {
        SyncActor {
            engine: Engine::new(alloc, link),
            next: 1,
        }
    }

    /// The same engine with another remote, of any kind, and the remote that it had. All else stays. So one remote can be moved to
    /// the device that acts, where several devices share it.
    pub fn with_remote<S: Remote>(self, remote: S) -> (SyncActor<S>, R)
        ensures actor { result.0 ≡ with_remote remote self }
        ensures back { result.1 ≡ self.engine.agent.link.remote }
    {
        let SyncActor { engine, next } = self;
        let (engine, former) = engine.with_remote(remote);
        (SyncActor { engine, next }, former)
    }

    /// The link.
    pub fn link(&self) -> &Link<R>
        ensures { result.now ≡ self.now.engine.agent.link }
    {
        self.engine.link()
    }

    /// The link, with its messages and its remote.
    pub fn into_link(self) -> Link<R>
        ensures { result ≡ self.engine.agent.link }
    {
        self.engine.into_link()
    }

    /// The remote.
    pub fn into_remote(self) -> R
        ensures is { result ≡ self.engine.agent.link.remote }
        ensures holds { (s : State) → (acts_of R.told).holds self s → IsRemote (R.told result) s.link }
    {
        self.into_link().into_remote()
    }
}

impl<R: Remote> Provider for SyncActor<R> {
    ghost use Rattle.cf_engine.specs.Actors.{Answers};

    ghost answers = { Answers R.told };

    fn on_callback<P: Port>(&mut self, call: &Callback, port: &mut P) -> Result<(), OutOfMemory> {
        self.engine.on_callback(call, port)
    }
}

impl<R: Remote> Actor for SyncActor<R> {
    ghost use Rattle.cf_engine.specs.Playing.{is_actor};

    ghost acts = { acts_of R.told };

    fn mode(&self) -> Mode {
        let _ = &self.next;
        Mode::Replay
    }

    fn begin(&mut self) {
        self.engine.begin();
    }

    fn reopen(&mut self) {
        self.engine.reopen();
    }

    fn beside(&mut self, alloc: Global, event: &Event) -> Result<Answer, OutOfMemory> {
        match event {
            Event::Engine(event) => self.do_beside(alloc, *event),
            Event::Peer(event) => self.peer(event),
            _ => Err(no_such_state()),
        }
    }

    fn act<G: Ground>(
        &mut self,
        alloc: Global,
        filter: &mut FilterOn<G>,
        event: &Event,
    ) -> Result<Answer, OutOfMemory> {
        match event {
            Event::Engine(event) => self.do_engine(alloc, filter, *event),
            _ => Err(no_such_state()),
        }
    }

    ghost actor = { is_actor R.told };
}
