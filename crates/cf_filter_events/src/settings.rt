//! The policy, the provider's connection, files that are opened, and commits.

ghost use Rattle.cf_filter_events.specs.Counted.{StepsOn};
ghost use Rattle.cf_base.specs.declared.calls.Call.TheVariants as call;
ghost use Rattle.cf_base.specs.declared.events.Event.TheVariants as event;

use crate::actors::Actor;
use crate::answers::answered;
use crate::places::RunningOn;
use crate::results::{count, done, opened};
use cf_base::{Answer, Notes, OutOfMemory, Policy, Text};
use cf_volume_ground::Ground;
use std::alloc::Global;

impl<G: Ground, A: Actor> RunningOn<G, A> {
    /// `open`
    pub(crate) fn open(&mut self, alloc: Global, path: &Text) -> Result<Answer, OutOfMemory>
        ensures { StepsOn A.acts G.state (event.Call (call.Open path.now)) self.old result self.new }
    {
        let told = self.filter.open_file(path.as_str());
        answered(opened(told), Notes::new(alloc))
    }

    /// `flush`
    pub(crate) fn flush(&mut self, alloc: Global) -> Result<Answer, OutOfMemory>
        ensures { StepsOn A.acts G.state (event.Call call.Flush) self.old result self.new }
    {
        let told = self.filter.flush();
        answered(count(told), Notes::new(alloc))
    }

    /// `policy`
    pub(crate) fn set_policy(
        &mut self,
        alloc: Global,
        policy: &Policy,
    ) -> Result<Answer, OutOfMemory>
        ensures { StepsOn A.acts G.state (event.Call (call.Policy policy.now)) self.old result self.new }
    {
        let told = self.filter.set_policy(self.actor.mode(), policy);
        answered(done(told), Notes::new(alloc))
    }

    /// `connect` and `disconnect`
    pub(crate) fn connect(&mut self, alloc: Global, on: bool) -> Result<Answer, OutOfMemory>
        ensures { StepsOn A.acts G.state (event.Call (call.Connect on)) self.old result self.new }
    {
        let mut notes = Notes::new(alloc);
        let told = self.filter.connect(on, &mut notes);
        answered(done(told), notes)
    }
}
