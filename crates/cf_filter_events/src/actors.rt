//! What acts beside the filter.

ghost use Rattle.std.specs.Prelude.{◌≡◌, false, true};
ghost use Rattle.cf_filter_events.specs.Actors.{Acts, Begins, IsActor, Reopens, StepsBeside, is_call};
ghost use Rattle.cf_filter_events.specs.Counted.{StepsOn};
ghost use Rattle.cf_model.specs.Events.{is_of, needs_volume};

use cf_base::{Answer, Event, Mode, OutOfMemory};
use cf_filter::FilterOn;
use cf_provider::Provider;
use cf_volume_ground::Ground;
use std::alloc::Global;

/// What acts beside the filter in the world of a command: the provider of its callbacks, and the events of the mode that are neither
/// calls of an application nor events of the device. It says by `acts` how it stands for its part of the state.
pub trait Actor: Provider {
    /// The mode of the command, and how it stands for states of the definitions.
    ghost acts: { Acts Self };

    /// The mode of the command.
    fn mode(&self) -> Mode
        ensures { result ≡ acts.mode };

    /// An event that needs the volume begins. The volume is open, and no event met Device. The remote is not asked.
    fn begin(&mut self)
        ensures begins { Begins acts self.old self.new }
        ensures remote { acts.remote self.new ≡ acts.remote self.old };

    /// The volume was opened again. What was known until then is gone. The remote is not asked.
    fn reopen(&mut self)
        ensures reopens { Reopens acts self.old self.new }
        ensures remote { acts.remote self.new ≡ acts.remote self.old };

    /// Does an event of the mode that needs no volume and is none of the device, and answers it, whether the volume is open, broken or
    /// off. Of the filter it changes the notes alone. Any other event is out of memory: it never comes here. Where memory runs out the
    /// event is not answered, and nothing more is said.
    fn beside(&mut self, alloc: Global, event: &Event) -> Result<Answer, OutOfMemory>
        ensures { StepsBeside acts event.now self.old result self.new };

    /// Does an event of the mode that needs the volume and is no call of an application, and answers it. The actor has begun the event:
    /// the volume is open, and no event met Device. Where memory runs out the event is not answered, and nothing more is said.
    fn act<G: Ground>(
        &mut self,
        alloc: Global,
        filter: &mut FilterOn<G>,
        event: &Event,
    ) -> Result<Answer, OutOfMemory>
        requires of { is_of acts.mode event.now ≡ true }
        requires needs { needs_volume event.now ≡ true }
        requires other { is_call event.now ≡ false }
        ensures { StepsOn acts G.state event.now (record { filter = filter.old; actor = self.old }) result (record { filter = filter.new; actor = self.new }) };

    /// It plays the provider of its mode, and what it stands for hangs on its own part of the state alone.
    ghost actor: { IsActor Self.answers acts };
}
