//! Events of the engine on the open volume.

ghost use Rattle.std.specs.Prelude.{◌≡◌, true};
ghost use Rattle.cf_base.specs.declared.events.Event.TheVariants as events;
ghost use Rattle.cf_engine.specs.Actors.{acts_of};
ghost use Rattle.cf_engine.specs.Sessions.{StepsEngine, said};
ghost use Rattle.cf_engine_steps.specs.Answering.{Answers, Any};
ghost use Rattle.cf_engine_steps.specs.States.{whole};
ghost use Rattle.cf_filter_events.specs.Counted.{StepsOn};
ghost use Rattle.cf_model.specs.EngineEvents.{engine_event};
ghost use Rattle.cf_model.specs.Events.{engine_needs};

use crate::actors::SyncActor;
use cf_base::{Answer, CallError, EngineEvent, Notes, OutOfMemory, Shown, no_such_state};
use cf_engine_host::EngineHost;
use cf_engine_passes::{deliver, sync, work};
use cf_engine_space::space;
use cf_engine_steps::Engine;
use cf_filter::{FilterOn, Told};
use cf_filter_events::answered;
use cf_remote::Remote;
use cf_volume_ground::Ground;
use std::alloc::Global;

// What the event does on any host. One that needs no volume is none of these.
fn part<H: EngineHost, R: Remote>(
    host: &mut H,
    engine: &mut Engine<R>,
    event: EngineEvent,
) -> Result<Shown, CallError>
    ensures { Answers (whole H.sense R.told) Any (engine_event event) (host.old, engine.old) result (host.new, engine.new) }
{
    match event {
        EngineEvent::Deliver { message } => deliver(host, engine, message),
        EngineEvent::Work => work(host, engine),
        EngineEvent::Sync => sync(host, engine),
        EngineEvent::Space { blocks } => space(host, engine, blocks),
        _ => Err(CallError::from(no_such_state())),
    }
}

// A refusal of the event is an answer.
fn said(told: Result<Shown, CallError>) -> Told<Shown>
    ensures { result ≡ said told }
{
    match told {
        Ok(shown) => Ok(Ok(shown)),
        Err(error) => Err(error),
    }
}

// The event as one session of notes on the filter, which no call has broken.
fn session<G: Ground, R: Remote>(
    alloc: Global,
    filter: &mut FilterOn<G>,
    engine: &mut Engine<R>,
    event: EngineEvent,
) -> Result<Answer, OutOfMemory>
    requires { engine_needs event ≡ true }
    ensures { StepsEngine G.state R.told event filter.old engine.old result filter.new engine.new }
{
    let mut notes = Notes::new(alloc);
    if filter.begin(&mut notes).is_err() {
        return Err(no_such_state());
    }
    let told = part(filter, engine, event);
    let told = filter.finish_with(said(told), &mut notes);
    answered(told, notes)
}

impl<R: Remote> SyncActor<R> {
    /// Does an event of the engine that needs the volume, which it has begun.
    pub(crate) fn do_engine<G: Ground>(
        &mut self,
        alloc: Global,
        filter: &mut FilterOn<G>,
        event: EngineEvent,
    ) -> Result<Answer, OutOfMemory>
        requires { engine_needs event ≡ true }
        ensures { StepsOn (acts_of R.told) G.state (events.Engine event) (record { filter = filter.old; actor = self.old }) result (record { filter = filter.new; actor = self.new }) }
    {
        session(alloc, filter, &mut self.engine, event)
    }
}
