//! Marks and operations of the provider.

ghost use Rattle.std.specs.Prelude.{◌≡◌, ◌++◌, ◌∷◌, [], IfOk};
ghost use Rattle.cf_filter_events.specs.Answered.{answer_with};
ghost use Rattle.cf_filter_events.specs.Counted.{StepsOn};
ghost use Rattle.cf_world_filter.specs.Scripts.{scripts};
ghost use Rattle.cf_base.specs.declared.answers.Shown.TheVariants as shown;
ghost use Rattle.cf_base.specs.declared.events.Event.TheVariants as event;
ghost use Rattle.cf_base.specs.declared.events.ProviderEvent.TheVariants as provider;

use crate::actors::ScriptActor;
use cf_base::{Answer, Notes, Operation, OutOfMemory, Shown, Text, Usn};
use cf_filter::FilterOn;
use cf_filter_events::{answered, number, outcome, plainly};
use cf_provider_script::Planned;
use cf_volume_ground::Ground;
use std::alloc::Global;

impl ScriptActor {
    /// `mark`
    pub(crate) fn mark<G: Ground>(
        &mut self,
        alloc: Global,
        filter: &mut FilterOn<G>,
        path: &Text,
        given: Usn,
    ) -> Result<Answer, OutOfMemory>
        ensures { StepsOn scripts G.state (event.Provider (provider.Mark path.now given)) (record { filter = filter.old; actor = self.old }) result (record { filter = filter.new; actor = self.new }) }
    {
        let mut notes = Notes::new(alloc);
        let told = filter.set_in_sync(path.as_str(), given, self, &mut notes);
        answered(number(told), notes)
    }

    /// `do`
    pub(crate) fn carry_out<G: Ground>(
        &mut self,
        alloc: Global,
        filter: &mut FilterOn<G>,
        operation: &Operation,
    ) -> Result<Answer, OutOfMemory>
        ensures { StepsOn scripts G.state (event.Provider (provider.Do operation.now)) (record { filter = filter.old; actor = self.old }) result (record { filter = filter.new; actor = self.new }) }
    {
        let mut notes = Notes::new(alloc);
        let told = filter.execute_now(operation, self, &mut notes);
        answered(outcome(told), notes)
    }

    /// `plan`: the filter stays as it is.
    pub(crate) fn plan(
        &mut self,
        alloc: Global,
        own: bool,
        operation: &Operation,
    ) -> Result<Answer, OutOfMemory>
        ensures told { IfOk result (λ a. a ≡ answer_with shown.Done []) }
        ensures planned { IfOk result (λ a. self.new ≡ self.old ++ (own, operation.now) ∷ []) }
    {
        let operation = operation.copy()?;
        self.provider.plan(Planned { own, operation })?;
        Ok(plainly(alloc, Shown::Done))
    }
}
