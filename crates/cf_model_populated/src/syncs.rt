//! Events of `sync` and `work` where no directory was made unpopulated.

ghost use Rattle.std.specs.Prelude.{◌≡◌, ℕ, List, false, true};
ghost use Rattle.std.specs.List.{list_any};
ghost use Rattle.cf_base.specs.declared.answers.Answer.{Answer};
ghost use Rattle.cf_base.specs.declared.answers.Shown.TheVariants as shown;
ghost use Rattle.cf_base.specs.declared.events.EngineEvent.TheVariants as engine;
ghost use Rattle.cf_base.specs.declared.events.Event.{Event};
ghost use Rattle.cf_base.specs.declared.events.Event.TheVariants as event;
ghost use Rattle.cf_base.specs.declared.policies.Mode.TheVariants as mode;
ghost use Rattle.cf_model.specs.Lawful.{IsStep, Runs};
ghost use Rattle.cf_model.specs.Messages.{no_number};
ghost use Rattle.cf_model.specs.Settled.{is_settled};
ghost use Rattle.cf_model.specs.State.{State, book_now, items_now, start};
ghost use Rattle.cf_model.specs.Store.{Held};
ghost use Rattle.cf_model_laws.specs.Keys.{AreKeysWithin};
ghost use Rattle.cf_model_laws.specs.Premises.{IsFair, IsFresh};
ghost use Rattle.cf_model_convergence.specs.Hearing.{is_heard};
ghost use Rattle.cf_model_convergence.specs.Quiet.{is_accepted, is_always_populated, is_count};
ghost use Rattle.cf_model_convergence.specs.Tidy.{IsTidy};
ghost use Rattle.cf_model_populated.specs.Accounted.{AreAccountedFor};
ghost use Rattle.cf_model_populated.specs.Populated.{AreDehydratesAsked, ArePassedHere};

/// In a run in which no policy of FULL population was accepted, a silent `sync` leaves a settled state, as it does elsewhere: no list
/// call can wait there, and each directory is populated. What is left to ask of the state before is that a live ask is for each
/// dehydration that waits; and, for the state to be settled as a whole, that what the cursor has passed is here or was removed here.
#[tactic(auto, using(crate::proofs::PopulatedSyncs::sync_settles, crate::proofs::PopulatedSyncs::sync_settles_all))]
pub fn a_silent_sync_settles_what_is_populated()
    ensures local { (remote : Held) (clusters : ℕ) (trace : List (Event × Answer)) (s : State) (a : Answer) (t : State) → Runs mode.Replay (start mode.Replay remote clusters) trace s → IsFresh remote → IsTidy remote → is_always_populated trace ≡ true → s.link.inline ≡ true → AreKeysWithin s.filter → AreDehydratesAsked s → IsStep mode.Replay s (event.Engine engine.Sync) a t → IsFair t.link → is_count a.shown ≡ true → list_any is_heard a.notes ≡ false → no_number t ≡ false → (is_settled false t ≡ true) × (a.shown ≡ shown.Count 0) }
    ensures whole { (remote : Held) (clusters : ℕ) (trace : List (Event × Answer)) (s : State) (a : Answer) (t : State) → Runs mode.Replay (start mode.Replay remote clusters) trace s → IsFresh remote → IsTidy remote → is_always_populated trace ≡ true → s.link.inline ≡ true → AreKeysWithin s.filter → AreDehydratesAsked s → AreAccountedFor s.link.remote (items_now s) (book_now s) → IsStep mode.Replay s (event.Engine engine.Sync) a t → IsFair t.link → is_count a.shown ≡ true → list_any is_heard a.notes ≡ false → no_number t ≡ false → (is_settled true t ≡ true) × ArePassedHere t }
{}

/// So does a silent `work` event.
#[tactic(auto, using(crate::proofs::PopulatedSyncs::work_settles, crate::proofs::PopulatedSyncs::work_settles_all))]
pub fn a_silent_work_settles_what_is_populated()
    ensures local { (remote : Held) (clusters : ℕ) (trace : List (Event × Answer)) (s : State) (a : Answer) (t : State) → Runs mode.Replay (start mode.Replay remote clusters) trace s → IsFresh remote → IsTidy remote → is_always_populated trace ≡ true → s.link.inline ≡ true → AreKeysWithin s.filter → AreDehydratesAsked s → IsStep mode.Replay s (event.Engine engine.Work) a t → IsFair t.link → is_accepted a.shown ≡ true → list_any is_heard a.notes ≡ false → no_number t ≡ false → is_settled false t ≡ true }
    ensures whole { (remote : Held) (clusters : ℕ) (trace : List (Event × Answer)) (s : State) (a : Answer) (t : State) → Runs mode.Replay (start mode.Replay remote clusters) trace s → IsFresh remote → IsTidy remote → is_always_populated trace ≡ true → s.link.inline ≡ true → AreKeysWithin s.filter → AreDehydratesAsked s → AreAccountedFor s.link.remote (items_now s) (book_now s) → IsStep mode.Replay s (event.Engine engine.Work) a t → IsFair t.link → is_accepted a.shown ≡ true → list_any is_heard a.notes ≡ false → no_number t ≡ false → (is_settled true t ≡ true) × ArePassedHere t }
{}
