//! Calls of the machine inside. Each kind has one entry, so that only here it is shown that a machine does the steps of calls.

use crate::filters::FilterOn;
use cf_base::{AuxRecord, CallError, Operation, Shown};
use cf_filter_calls::{AskingCall, PlainCall, Question, answer, ask, execute_with, make};
use cf_provider::Provider;
use cf_volume_ground::Ground;

impl<G: Ground> FilterOn<G> {
    ghost use Rattle.cf_filter.specs.Draining.{CallsBack};
    ghost use Rattle.cf_filter_calls.specs.Operating.{Keeps};
    ghost use Rattle.cf_filter_calls.specs.Parts.{asking_part, plain_part, question_part};
    ghost use Rattle.cf_filter_machine.specs.Sensing.{sense};
    ghost use Rattle.cf_filter_steps.specs.Answering.{Answers, Any};
    ghost use Rattle.cf_model.specs.Books.{Book};
    ghost use Rattle.cf_model.specs.Operations.{execute_with};

    /// Makes a call that asks no provider.
    pub(crate) fn make(&mut self, call: PlainCall<'_>) -> Result<Shown, CallError>
        ensures { Answers (sense G.state) Any (plain_part call.entry) self.old result self.new }
    {
        make(&mut self.machine, call)
    }

    /// Answers a call that changes nothing.
    pub(crate) fn tell(&self, question: Question<'_>) -> Result<Shown, CallError>
        ensures { Answers (sense G.state) Any (question_part question.entry) self.now result self.now }
    {
        answer(&self.machine, question)
    }

    /// Makes a call that may ask a provider, and calls the provider for its asks.
    pub(crate) fn ask_by<P: Provider>(
        &mut self,
        call: AskingCall<'_>,
        p: &mut P,
    ) -> Result<Shown, CallError>
        ensures { CallsBack G.state P.answers Any (asking_part call.entry) p.old self.old result p.new self.new }
    {
        let first = ask(&mut self.machine, call);
        self.drained(first, p)
    }

    /// Does an operation of a provider. Where it gives entries, these records come in the same step as the last of them.
    pub(crate) fn operate(
        &mut self,
        op: &Operation,
        records: &[AuxRecord],
    ) -> Result<Shown, CallError>
        ensures { (f : Book → Book) → Answers (sense G.state) (Keeps f records.now) (execute_with f op.now) self.old result self.new }
    {
        execute_with(&mut self.machine, op, records)
    }
}
