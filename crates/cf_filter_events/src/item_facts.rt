//! What is told of items and of the volume.

ghost use Rattle.cf_filter_events.specs.Counted.{StepsOn};
ghost use Rattle.cf_base.specs.declared.calls.Call.TheVariants as call;
ghost use Rattle.cf_base.specs.declared.events.Event.TheVariants as event;

use crate::actors::Actor;
use crate::answers::answered;
use crate::places::RunningOn;
use crate::results::{blocks, info, runs, used};
use cf_base::{Answer, Class, Notes, OutOfMemory, Text};
use cf_volume_ground::Ground;
use std::alloc::Global;

impl<G: Ground, A: Actor> RunningOn<G, A> {
    /// `info`
    pub(crate) fn info(&mut self, alloc: Global, path: &Text) -> Result<Answer, OutOfMemory>
        ensures { StepsOn A.acts G.state (event.Call (call.Info path.now)) self.old result self.new }
    {
        let told = self.filter.info(path.as_str());
        answered(info(told), Notes::new(alloc))
    }

    /// `ranges`
    pub(crate) fn ranges(
        &mut self,
        alloc: Global,
        path: &Text,
        class: Class,
    ) -> Result<Answer, OutOfMemory>
        ensures { StepsOn A.acts G.state (event.Call (call.Ranges path.now class)) self.old result self.new }
    {
        let told = self.filter.ranges(path.as_str(), class);
        answered(runs(told), Notes::new(alloc))
    }

    /// `used`
    pub(crate) fn used(&mut self, alloc: Global, path: &Text) -> Result<Answer, OutOfMemory>
        ensures { StepsOn A.acts G.state (event.Call (call.Used path.now)) self.old result self.new }
    {
        let told = self.filter.used(path.as_str());
        answered(used(told), Notes::new(alloc))
    }

    /// `df`
    pub(crate) fn df(&mut self, alloc: Global) -> Result<Answer, OutOfMemory>
        ensures { StepsOn A.acts G.state (event.Call call.Df) self.old result self.new }
    {
        let told = self.filter.df();
        answered(blocks(told), Notes::new(alloc))
    }
}
