//! What waits for bytes, entries or consent.

ghost use Rattle.std.specs.Prelude.{◌≡◌};
ghost use Rattle.cf_filter_events.specs.Counted.{StepsOn};
ghost use Rattle.cf_base.specs.declared.calls.Call.TheVariants as call;
ghost use Rattle.cf_base.specs.declared.events.Event.TheVariants as event;

use crate::actors::Actor;
use crate::answers::answered;
use crate::places::RunningOn;
use crate::results::{done, waited};
use cf_base::{Answer, Notes, OutOfMemory, Text, WaitId};
use cf_volume_ground::Ground;
use std::alloc::Global;

fn wide(range: Option<(u32, u32)>) -> Option<(u64, u64)>
    ensures { result ≡ range }
{
    match range {
        Some((start, len)) => Some((start as u64, len as u64)),
        None => None,
    }
}

impl<G: Ground, A: Actor> RunningOn<G, A> {
    /// `cancel`
    pub(crate) fn cancel(&mut self, alloc: Global, wait: WaitId) -> Result<Answer, OutOfMemory>
        ensures { StepsOn A.acts G.state (event.Call (call.Cancel wait)) self.old result self.new }
    {
        let mut notes = Notes::new(alloc);
        let told = self.filter.cancel(wait, &mut self.actor, &mut notes);
        answered(done(told), notes)
    }

    /// `tick`
    pub(crate) fn tick(&mut self, alloc: Global, ticks: u32) -> Result<Answer, OutOfMemory>
        ensures { StepsOn A.acts G.state (event.Call (call.Tick ticks)) self.old result self.new }
    {
        let mut notes = Notes::new(alloc);
        let told = self.filter.tick(ticks, &mut self.actor, &mut notes);
        answered(done(told), notes)
    }

    /// `list`
    pub(crate) fn list(&mut self, alloc: Global, path: &Text) -> Result<Answer, OutOfMemory>
        ensures { StepsOn A.acts G.state (event.Call (call.List path.now)) self.old result self.new }
    {
        let mut notes = Notes::new(alloc);
        let told = self.filter.list(path.as_str(), &mut self.actor, &mut notes);
        answered(waited(told), notes)
    }

    /// `hydrate`
    pub(crate) fn hydrate(&mut self, alloc: Global, path: &Text) -> Result<Answer, OutOfMemory>
        ensures { StepsOn A.acts G.state (event.Call (call.Hydrate path.now)) self.old result self.new }
    {
        let mut notes = Notes::new(alloc);
        let told = self
            .filter
            .hydrate(path.as_str(), &mut self.actor, &mut notes);
        answered(waited(told), notes)
    }

    /// `dehydrate`
    pub(crate) fn dehydrate(
        &mut self,
        alloc: Global,
        path: &Text,
        range: Option<(u32, u32)>,
    ) -> Result<Answer, OutOfMemory>
        ensures { StepsOn A.acts G.state (event.Call (call.Dehydrate path.now range)) self.old result self.new }
    {
        let mut notes = Notes::new(alloc);
        let told = self
            .filter
            .dehydrate(path.as_str(), wide(range), &mut self.actor, &mut notes);
        answered(waited(told), notes)
    }

    /// `keep`
    pub(crate) fn keep_full(
        &mut self,
        alloc: Global,
        path: &Text,
        on: bool,
    ) -> Result<Answer, OutOfMemory>
        ensures { StepsOn A.acts G.state (event.Call (call.Keep path.now on)) self.old result self.new }
    {
        let mut notes = Notes::new(alloc);
        let told = self
            .filter
            .keep_full(path.as_str(), on, &mut self.actor, &mut notes);
        answered(done(told), notes)
    }
}
