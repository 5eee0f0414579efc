//! How a call begins and ends.
#![tactic(auto, unfolding(crate::specs::Calling::broken_by, crate::specs::Calling::noted))]

ghost use Rattle.std.specs.Prelude.{◌≡◌, false, true, OnErr, OnOk};

use crate::filters::FilterOn;
use crate::shown_values::Told;
use cf_base::{CallError, Code, Notes};
use cf_volume_ground::Ground;

impl<G: Ground> FilterOn<G> {
    ghost use Rattle.std.specs.Prelude.{IfErr};
    ghost use Rattle.cf_base.specs.declared.codes.Code.TheVariants as code;
    ghost use Rattle.cf_base.specs.declared.codes.CallError.TheVariants.{No};
    ghost use Rattle.cf_filter.specs.Calling.{answer_of, broken_by, is_stopped, noted};

    /// Refused as Broken after a call that was stopped.
    pub(crate) fn check(&self) -> Result<(), CallError>
        ensures ok { OnOk result (self.now.desk.broken ≡ false) }
        ensures err { IfErr result (λ e. (e ≡ No code.Broken) × (self.now.desk.broken ≡ true)) }
    {
        if self.machine.desk.is_broken() {
            return Err(CallError::No(Code::Broken));
        }
        Ok(())
    }

    /// A call, or an event of an engine, begins: the notes of all that is done until it ends go to the caller. Refused as Broken, and
    /// nothing is changed, after a call that was stopped.
    pub fn begin(&mut self, notes: &mut Notes) -> Result<(), CallError>
        ensures whole { OnOk result (self.old.desk.broken ≡ false) }
        ensures ok { OnOk result (self.new ≡ noted notes.old self.old) }
        ensures kept { OnOk result (notes.new ≡ self.old.desk.notes) }
        ensures err { IfErr result (λ e. (e ≡ No code.Broken) × (self.old.desk.broken ≡ true)) }
        ensures same { OnErr result (self.new ≡ self.old) }
        ensures notes { OnErr result (notes.new ≡ notes.old) }
    {
        self.check()?;
        self.machine.desk.swap_notes(notes);
        Ok(())
    }

    /// A call ends, and what it was told is its answer. One that was stopped breaks the filter.
    pub(crate) fn finish<A>(&mut self, told: Told<A>) -> Result<A, CallError>
        ensures answer { result ≡ answer_of told }
        ensures new { self.new ≡ broken_by (is_stopped told) self.old }
    {
        match told {
            Ok(Ok(value)) => {
                self.machine.desk.set_broken(false);
                Ok(value)
            }
            Ok(Err(code)) => {
                self.machine.desk.set_broken(false);
                Err(CallError::No(code))
            }
            Err(fail) => {
                self.machine.desk.set_broken(true);
                Err(fail)
            }
        }
    }

    /// The call or the event ends, and the notes are the caller's. What it was told is its answer, and one that was stopped breaks the
    /// filter.
    pub fn finish_with<A>(&mut self, told: Told<A>, notes: &mut Notes) -> Result<A, CallError>
        ensures answer { result ≡ answer_of told }
        ensures new { self.new ≡ broken_by (is_stopped told) (noted notes.old self.old) }
        ensures notes { notes.new ≡ self.old.desk.notes }
    {
        self.machine.desk.swap_notes(notes);
        self.finish(told)
    }
}
