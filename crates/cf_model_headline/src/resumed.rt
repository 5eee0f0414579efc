//! What a restart that resumes keeps.

ghost use Rattle.std.specs.Prelude.{ℕ};
ghost use Rattle.cf_base.specs.declared.policies.Mode.{Mode};
ghost use Rattle.cf_model.specs.Lawful.{Runs};
ghost use Rattle.cf_model.specs.State.{State, start};
ghost use Rattle.cf_model.specs.Store.{Held};
ghost use Rattle.cf_model_laws.specs.Premises.{IsFresh};
ghost use Rattle.cf_model_headline.specs.Reports.{Report};
ghost use Rattle.cf_model_headline.specs.Resumed.{ResumesRight};

/// In both commands: each `resumed n` keeps the first n of the accepted changes, and at least all that an earlier flush
/// counted.
#[tactic(auto, using(crate::proofs::ResumedLaws::resumes_right))]
pub fn a_restart_keeps_what_was_flushed()
    ensures { (m : Mode) (remote : Held) (clusters : ℕ) (report : Report) (last : State) → IsFresh remote → Runs m (start m remote clusters) report last → ResumesRight report }
{}
