//! Waits and operations of the provider.
#![tactic(auto, using(crate::proofs::Provided::provided_not))]

use crate::filters::FilterOn;
use crate::shown_values::{done, outcome};
use cf_base::{AuxRecord, CallError, Notes, Operation, WaitId};
use cf_filter_calls::AskingCall;
use cf_provider::{Outcome, Provider};
use cf_volume_ground::Ground;

impl<G: Ground> FilterOn<G> {
    ghost use Rattle.std.specs.Prelude.{◌≡◌};
    ghost use Rattle.cf_provider.specs.Acting.{shown_of};
    ghost use Rattle.cf_filter.specs.Calling.{noted, shows_done};
    ghost use Rattle.cf_filter.specs.Draining.{Provides};
    ghost use Rattle.cf_filter_steps.specs.Answering.{Any};
    ghost use Rattle.cf_filter_calls.specs.Operating.{Keeps};
    ghost use Rattle.cf_model.specs.Books.{Book};
    ghost use Rattle.cf_model.specs.Operations.{execute, execute_with};
    ghost use Rattle.cf_model.specs.Waits.{cancel, tick};

    /// Ends a live wait as cancelled. Refused as Broken, NoWait, Device.
    pub fn cancel<P: Provider>(
        &mut self,
        wait: WaitId,
        p: &mut P,
        notes: &mut Notes,
    ) -> Result<(), CallError>
        ensures does { Provides G.state P.answers Any shows_done (cancel wait) p.old (noted notes.old self.old) result p.new (noted notes.new self.new) }
        ensures keeps { self.new.desk.notes ≡ self.old.desk.notes }
    {
        self.begin(notes)?;
        let told = self.ask_by(AskingCall::Cancel { wait }, p);
        self.finish_with(done(told), notes)
    }

    /// So many ticks pass. Each ask on which 60 have passed ends, and its waits as timed out. Refused as Broken, Device.
    pub fn tick<P: Provider>(
        &mut self,
        ticks: u32,
        p: &mut P,
        notes: &mut Notes,
    ) -> Result<(), CallError>
        ensures does { Provides G.state P.answers Any shows_done (tick ticks) p.old (noted notes.old self.old) result p.new (noted notes.new self.new) }
        ensures keeps { self.new.desk.notes ≡ self.old.desk.notes }
    {
        self.begin(notes)?;
        let told = self.ask_by(AskingCall::Tick { ticks }, p);
        self.finish_with(done(told), notes)
    }

    /// An operation of the provider outside a callback (CfExecute). Where it gives entries, these auxiliary records come in
    /// the same step as the last of them. Refused as Broken, as the operation's row says, as Device.
    pub fn execute_with<P: Provider>(
        &mut self,
        op: &Operation,
        records: &[AuxRecord],
        p: &mut P,
        notes: &mut Notes,
    ) -> Result<Outcome, CallError>
        ensures does { (f : Book → Book) → Provides G.state P.answers (Keeps f records.now) shown_of (execute_with f op.now) p.old (noted notes.old self.old) result p.new (noted notes.new self.new) }
        ensures keeps { self.new.desk.notes ≡ self.old.desk.notes }
    {
        self.begin(notes)?;
        let first = self.operate(op, records);
        let told = self.drained(first, p);
        self.finish_with(outcome(told), notes)
    }

    /// The same without records (CfExecute). Refused as Broken, as the operation's row says, as Device.
    pub fn execute_now<P: Provider>(
        &mut self,
        op: &Operation,
        p: &mut P,
        notes: &mut Notes,
    ) -> Result<Outcome, CallError>
        ensures does { Provides G.state P.answers Any shown_of (execute op.now) p.old (noted notes.old self.old) result p.new (noted notes.new self.new) }
        ensures keeps { self.new.desk.notes ≡ self.old.desk.notes }
    {
        self.execute_with(op, &[], p, notes)
    }
}
