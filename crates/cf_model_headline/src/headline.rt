//! What a user of the product may rely on, as one record.

ghost use Rattle.std.specs.Prelude.{ℕ};
ghost use Rattle.cf_base.specs.declared.policies.Mode.{Mode};
ghost use Rattle.cf_base.specs.declared.policies.Mode.TheVariants as mode;
ghost use Rattle.cf_model.specs.Lawful.{Runs};
ghost use Rattle.cf_model.specs.State.{State, start};
ghost use Rattle.cf_model.specs.Store.{Held};
ghost use Rattle.cf_model_laws.specs.Premises.{IsFresh};
ghost use Rattle.cf_model_headline.specs.Headline.{Headline, Premises, Promises};
ghost use Rattle.cf_model_headline.specs.Reports.{Report};

/// Every run has this: in both commands what holds over any provider, and in `replay`, over a remote that keeps its rules, the
/// whole.
#[tactic(auto, using(crate::proofs::HeadlineLaws::promised, crate::proofs::HeadlineLaws::headline))]
pub fn every_run_has_the_headline()
    ensures promises { (m : Mode) (remote : Held) (clusters : ℕ) (report : Report) (last : State) → IsFresh remote → Runs m (start m remote clusters) report last → Promises m remote clusters report last }
    ensures headline { (remote : Held) (clusters : ℕ) (report : Report) (last : State) → Premises remote last → Runs mode.Replay (start mode.Replay remote clusters) report last → Headline remote clusters report last }
{}
