//! Items that come, go, move or are pinned.

ghost use Rattle.cf_filter_events.specs.Counted.{StepsOn};
ghost use Rattle.cf_base.specs.declared.calls.Call.TheVariants as call;
ghost use Rattle.cf_base.specs.declared.events.Event.TheVariants as event;

use crate::actors::Actor;
use crate::answers::answered;
use crate::places::RunningOn;
use crate::results::{done, item};
use cf_base::{Answer, Notes, OutOfMemory, Pin, Reach, Text};
use cf_item_rules::Creation;
use cf_volume_ground::Ground;
use std::alloc::Global;

impl<G: Ground, A: Actor> RunningOn<G, A> {
    /// `create`
    pub(crate) fn create(&mut self, alloc: Global, path: &Text) -> Result<Answer, OutOfMemory>
        ensures { StepsOn A.acts G.state (event.Call (call.Create path.now)) self.old result self.new }
    {
        let mut notes = Notes::new(alloc);
        let told = self
            .filter
            .create(path.as_str(), &Creation::File, &mut notes);
        answered(item(told), notes)
    }

    /// `mkdir`
    pub(crate) fn mkdir(&mut self, alloc: Global, path: &Text) -> Result<Answer, OutOfMemory>
        ensures { StepsOn A.acts G.state (event.Call (call.Mkdir path.now)) self.old result self.new }
    {
        let mut notes = Notes::new(alloc);
        let told = self
            .filter
            .create(path.as_str(), &Creation::Dir, &mut notes);
        answered(item(told), notes)
    }

    /// `delete`
    pub(crate) fn delete(&mut self, alloc: Global, path: &Text) -> Result<Answer, OutOfMemory>
        ensures { StepsOn A.acts G.state (event.Call (call.Delete path.now)) self.old result self.new }
    {
        let mut notes = Notes::new(alloc);
        let mode = self.actor.mode();
        let told = self.filter.delete(mode, path.as_str(), &mut notes);
        answered(done(told), notes)
    }

    /// `rename`
    pub(crate) fn rename(
        &mut self,
        alloc: Global,
        from: &Text,
        to: &Text,
    ) -> Result<Answer, OutOfMemory>
        ensures { StepsOn A.acts G.state (event.Call (call.Rename from.now to.now)) self.old result self.new }
    {
        let mut notes = Notes::new(alloc);
        let told = self.filter.rename(from.as_str(), to.as_str(), &mut notes);
        answered(done(told), notes)
    }

    /// `pin`
    pub(crate) fn pin(
        &mut self,
        alloc: Global,
        path: &Text,
        pin: Pin,
        reach: Reach,
    ) -> Result<Answer, OutOfMemory>
        ensures { StepsOn A.acts G.state (event.Call (call.Pin path.now pin reach)) self.old result self.new }
    {
        let mut notes = Notes::new(alloc);
        let told = self.filter.pin(path.as_str(), pin, reach, &mut notes);
        answered(done(told), notes)
    }
}
