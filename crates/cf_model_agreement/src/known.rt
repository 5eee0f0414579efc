//! What the cursor has passed.

ghost use Rattle.std.specs.Prelude.{ℕ, List};
ghost use Rattle.cf_base.specs.declared.answers.Answer.{Answer};
ghost use Rattle.cf_base.specs.declared.events.Event.{Event};
ghost use Rattle.cf_base.specs.declared.policies.Mode.TheVariants as mode;
ghost use Rattle.cf_model.specs.Lawful.{Runs};
ghost use Rattle.cf_model.specs.State.{State, start};
ghost use Rattle.cf_model.specs.Store.{Held};
ghost use Rattle.cf_model_laws.specs.Premises.{IsFair, IsFresh};
ghost use Rattle.cf_model_convergence.specs.Agreeing.{IsKeptUp};
ghost use Rattle.cf_model_convergence.specs.Lasting.{HoldsIn};
ghost use Rattle.cf_model_convergence.specs.Passed.{ArePassedRight};
ghost use Rattle.cf_model_convergence.specs.Tidy.{IsTidy};
ghost use Rattle.cf_model_agreement.specs.Known.{AreDoneLate};

/// In each state of a run over a remote that was handed in tidy, and at each point that a restart may open, what is known of an item is
/// right whose target was last changed no later than the cursor: the target is live, a file has its latest version as its base, and a
/// path that was seen of it is where it stands in the remote.
#[tactic(auto, using(crate::proofs::KnownGuarded::run_passed))]
pub fn what_the_cursor_has_passed_is_known()
    ensures { (remote : Held) (clusters : ℕ) (trace : List (Event × Answer)) (s : State) → Runs mode.Replay (start mode.Replay remote clusters) trace s → IsFresh remote → IsTidy remote → HoldsIn ArePassedRight s }
{}

/// What the remote did of an upload that is on its way, it did after the cursor.
#[tactic(auto, using(crate::proofs::KnownGuarded::run_late))]
pub fn what_was_done_is_ahead()
    ensures { (remote : Held) (clusters : ℕ) (trace : List (Event × Answer)) (s : State) → Runs mode.Replay (start mode.Replay remote clusters) trace s → IsFresh remote → IsTidy remote → HoldsIn AreDoneLate s }
{}

/// So the state is kept up, where the remote has kept its rules.
#[tactic(auto, using(crate::proofs::KnownGuarded::run_kept_up))]
pub fn each_state_is_kept_up()
    ensures { (remote : Held) (clusters : ℕ) (trace : List (Event × Answer)) (s : State) → Runs mode.Replay (start mode.Replay remote clusters) trace s → IsFresh remote → IsTidy remote → IsFair s.link → IsKeptUp s }
{}
