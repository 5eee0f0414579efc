//! Directories and list calls where no directory was made unpopulated.

ghost use Rattle.std.specs.Prelude.{◌≡◌, ℕ, List, true};
ghost use Rattle.cf_base.specs.declared.answers.Answer.{Answer};
ghost use Rattle.cf_base.specs.declared.events.Event.{Event};
ghost use Rattle.cf_base.specs.declared.policies.Mode.TheVariants as mode;
ghost use Rattle.cf_model.specs.Lawful.{Runs};
ghost use Rattle.cf_model.specs.State.{State, start};
ghost use Rattle.cf_model.specs.Store.{Held};
ghost use Rattle.cf_model_laws.specs.Premises.{IsFair, IsFresh};
ghost use Rattle.cf_model_convergence.specs.Lasting.{HoldsIn};
ghost use Rattle.cf_model_convergence.specs.Quiet.{is_always_populated};
ghost use Rattle.cf_model_populated.specs.Populated.{ArePopulated, AreUnlisted};

/// Where no policy of FULL population was accepted, each directory is populated, and so it is at each point that a restart may open.
/// No list call waits then, and no list ask is live.
#[tactic(auto, using(crate::proofs::PopulatedRuns::dirs_populated, crate::proofs::PopulatedRuns::none_listed))]
pub fn directories_stay_populated()
    ensures directories { (remote : Held) (clusters : ℕ) (trace : List (Event × Answer)) (s : State) → Runs mode.Replay (start mode.Replay remote clusters) trace s → IsFresh remote → is_always_populated trace ≡ true → HoldsIn ArePopulated s }
    ensures unlisted { (remote : Held) (clusters : ℕ) (trace : List (Event × Answer)) (s : State) → Runs mode.Replay (start mode.Replay remote clusters) trace s → IsFresh remote → IsFair s.link → is_always_populated trace ≡ true → AreUnlisted s }
{}
