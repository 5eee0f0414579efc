//! Events that are none of the device.

ghost use Rattle.std.specs.Prelude.{◌≡◌, false, true};
ghost use Rattle.cf_filter_events.specs.Actors.{is_device_event};
ghost use Rattle.cf_filter_events.specs.Counted.{Counts, CountsTo, StepsOff, StepsOn};
ghost use Rattle.cf_filter_events.specs.Faulted.{Faults};
ghost use Rattle.cf_filter_events.specs.Meaning.{IsOff, IsOn};
ghost use Rattle.cf_filter_events.specs.Stepped.{Steps};
ghost use Rattle.cf_model.specs.Events.{is_of, needs_volume};

use crate::actors::Actor;
use crate::answers::{known, local, refused};
use crate::places::{Cut, RunningOn};
use cf_base::{Answer, Code, EngineEvent, Event, OutOfMemory};
use cf_disk::Disk;
use cf_volume_ground::Ground;
use std::alloc::Global;

fn needs_volume(event: &Event) -> bool
    ensures { result ≡ needs_volume event.now }
{
    match event {
        Event::Call(_) | Event::Provider(_) => true,
        Event::Device(_) | Event::Peer(_) => false,
        Event::Engine(event) => !matches!(
            event,
            EngineEvent::Link { .. } | EngineEvent::Arrive { .. }
        ),
    }
}

/// Does an event of the mode that is none of the device while the volume is off, and answers it. What needs the volume is refused as
/// Off, and the rest the actor does. Where memory runs out the event is not answered, and nothing more is said of the actor.
pub fn act_off<A: Actor>(alloc: Global, actor: &mut A, event: &Event) -> Result<Answer, OutOfMemory>
    requires of { is_of A.acts.mode event.now ≡ true }
    requires other { is_device_event event.now ≡ false }
    ensures { StepsOff A.acts event.now actor.old result actor.new }
{
    if needs_volume(event) {
        return Ok(refused(alloc, Code::Off));
    }
    let told = actor.beside(alloc, event);
    known(told, false)
}

impl<G: Ground, A: Actor> RunningOn<G, A> {
    /// Does an event while the volume is open, and answers it. After an event that met Device what needs the volume is refused as
    /// Broken.
    pub fn act(&mut self, alloc: Global, event: &Event) -> Result<Answer, OutOfMemory>
        requires of { is_of A.acts.mode event.now ≡ true }
        requires other { is_device_event event.now ≡ false }
        ensures steps { Steps A.acts.mode (IsOn A.acts G.state) event.now self.old result self.new }
        ensures counts { Counts (IsOn A.acts G.state) self.old result (G.state self.old.filter.disk) (G.state self.new.filter.disk) }
        ensures faults { Faults (IsOn A.acts G.state) self.old result (A.acts.remote self.old.actor) (A.acts.remote self.new.actor) }
    {
        if !needs_volume(event) {
            let told = self.actor.beside(alloc, event);
            return known(told, false);
        }
        if self.filter.is_broken() {
            return Ok(refused(alloc, Code::Broken));
        }
        self.actor.begin();
        let told = self.act_begun(alloc, event);
        local(known(told, self.filter.is_broken()))
    }

    // An event that the actor has begun.
    fn act_begun(&mut self, alloc: Global, event: &Event) -> Result<Answer, OutOfMemory>
        requires of { is_of A.acts.mode event.now ≡ true }
        requires needs { needs_volume event.now ≡ true }
        ensures { StepsOn A.acts G.state event.now self.old result self.new }
    {
        match event {
            Event::Call(call) => self.call(alloc, call),
            event => self.actor.act(alloc, &mut self.filter, event),
        }
    }
}

impl<D: Disk, A: Actor> Cut<D, A> {
    /// Does an event while the volume is off, and answers it. What needs the volume is refused as Off.
    pub(crate) fn act(&mut self, alloc: Global, event: &Event) -> Result<Answer, OutOfMemory>
        requires of { is_of A.acts.mode event.now ≡ true }
        requires other { is_device_event event.now ≡ false }
        ensures steps { Steps A.acts.mode (IsOff A.acts D.state) event.now self.old result self.new }
        ensures counts { CountsTo result (D.state self.old.disk) (D.state self.new.disk) }
        ensures faults { Faults (IsOff A.acts D.state) self.old result (A.acts.remote self.old.actor) (A.acts.remote self.new.actor) }
        ensures whole { self.new.whole ≡ self.old.whole }
    {
        act_off(alloc, &mut self.actor, event)
    }
}
