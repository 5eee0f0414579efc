//! A report shows each accepted change.

ghost use Rattle.std.specs.Prelude.{◌≡◌, ℕ};
ghost use Rattle.cf_base.specs.declared.policies.Mode.{Mode};
ghost use Rattle.cf_model.specs.Lawful.{Runs};
ghost use Rattle.cf_model.specs.State.{State, start};
ghost use Rattle.cf_model.specs.Store.{Held};
ghost use Rattle.cf_model_laws.specs.Premises.{IsFresh};
ghost use Rattle.cf_model_headline.specs.Reports.{Report, standing};

/// In both commands: the changes that a report shows are all that were accepted, and those of them that its restarts kept are
/// the log. So whatever is said of the changes that stand is said of the volume.
#[tactic(auto, using(crate::proofs::StandingLaws::shows_all))]
pub fn a_report_shows_each_change()
    ensures { (m : Mode) (remote : Held) (clusters : ℕ) (report : Report) (last : State) → IsFresh remote → Runs m (start m remote clusters) report last → last.filter.volume.log ≡ standing report }
{}
