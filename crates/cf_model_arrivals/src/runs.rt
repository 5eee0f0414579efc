//! What each state of a run has of the items that the cursor has passed.

ghost use Rattle.std.specs.Prelude.{◌≡◌, ℕ, List, true};
ghost use Rattle.cf_base.specs.declared.answers.Answer.{Answer};
ghost use Rattle.cf_base.specs.declared.events.Event.{Event};
ghost use Rattle.cf_base.specs.declared.policies.Mode.TheVariants as mode;
ghost use Rattle.cf_model.specs.Changes.{next_number};
ghost use Rattle.cf_model.specs.Lawful.{Runs};
ghost use Rattle.cf_model.specs.State.{State, start};
ghost use Rattle.cf_model.specs.Store.{Held};
ghost use Rattle.cf_model_laws.specs.Premises.{IsFresh};
ghost use Rattle.cf_model_convergence.specs.Lasting.{HoldsIn};
ghost use Rattle.cf_model_convergence.specs.Quiet.{is_always_populated};
ghost use Rattle.cf_model_convergence.specs.Tidy.{IsTidy};
ghost use Rattle.cf_model_populated.specs.Accounted.{AreAccountedFor};
ghost use Rattle.cf_model_arrivals.specs.Numbered.{AreNumbered};

/// Where no policy of FULL population was accepted, each live item of the remote that the cursor has passed is an item here or was removed
/// here, in each state of a run and at each point that a restart may open. With a directory's tombstone nothing is said; the cursor
/// goes back to 0 before that goes.
#[tactic(auto, using(crate::proofs::ArrivalsRuns::passed_accounted))]
pub fn what_the_cursor_has_passed_is_here()
    ensures { (remote : Held) (clusters : ℕ) (trace : List (Event × Answer)) (s : State) → Runs mode.Replay (start mode.Replay remote clusters) trace s → IsFresh remote → IsTidy remote → is_always_populated trace ≡ true → HoldsIn AreAccountedFor s }
{}

/// The number of a tombstone, of a removal on its way, of the upload of a new item and of an item here is that of one item: no two of them
/// that are of different items have one number. So it is in each state of a run and at each point that a restart may open.
#[tactic(auto, using(crate::proofs::ArrivalsRuns::run_numbers))]
pub fn a_number_is_of_one_item()
    ensures { (remote : Held) (clusters : ℕ) (trace : List (Event × Answer)) (s : State) → Runs mode.Replay (start mode.Replay remote clusters) trace s → IsFresh remote → HoldsIn (AreNumbered (next_number s.filter.volume)) s }
{}
