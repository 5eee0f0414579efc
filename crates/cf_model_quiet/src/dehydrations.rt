//! Dehydrations that wait.

ghost use Rattle.std.specs.Prelude.{ℕ, List};
ghost use Rattle.cf_base.specs.declared.answers.Answer.{Answer};
ghost use Rattle.cf_base.specs.declared.events.Event.{Event};
ghost use Rattle.cf_base.specs.declared.policies.Mode.TheVariants as mode;
ghost use Rattle.cf_model.specs.Lawful.{Runs};
ghost use Rattle.cf_model.specs.State.{State, start};
ghost use Rattle.cf_model.specs.Store.{Held};
ghost use Rattle.cf_model_laws.specs.Premises.{IsFresh};
ghost use Rattle.cf_model_populated.specs.Populated.{AreDehydratesAsked};
ghost use Rattle.cf_model_quiet.specs.Asked.{AreAsked};

/// In each state of a run a live ask is for each dehydration that waits. The ids of waits rise there, and so do the keys of asks.
#[tactic(auto, using(crate::proofs::AskedGuarded::run_dehydrates, crate::proofs::AskedGuarded::run_asked))]
pub fn each_dehydration_has_its_ask()
    ensures asked { (remote : Held) (clusters : ℕ) (trace : List (Event × Answer)) (s : State) → Runs mode.Replay (start mode.Replay remote clusters) trace s → IsFresh remote → AreDehydratesAsked s }
    ensures numbered { (remote : Held) (clusters : ℕ) (trace : List (Event × Answer)) (s : State) → Runs mode.Replay (start mode.Replay remote clusters) trace s → IsFresh remote → AreAsked s.filter.waiting }
{}
