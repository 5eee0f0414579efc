//! Events of `sync` and `work` where no directory was made unpopulated.

ghost use Rattle.std.specs.Prelude.{◌≡◌, ℕ, List, false, true};
ghost use Rattle.std.specs.List.{list_any};
ghost use Rattle.cf_base.specs.declared.answers.Answer.{Answer};
ghost use Rattle.cf_base.specs.declared.events.EngineEvent.TheVariants as engine;
ghost use Rattle.cf_base.specs.declared.events.Event.{Event};
ghost use Rattle.cf_base.specs.declared.events.Event.TheVariants as event;
ghost use Rattle.cf_base.specs.declared.policies.Mode.TheVariants as mode;
ghost use Rattle.cf_model.specs.Lawful.{IsStep, Runs};
ghost use Rattle.cf_model.specs.Messages.{no_number};
ghost use Rattle.cf_model.specs.Settled.{is_settled};
ghost use Rattle.cf_model.specs.State.{State, start};
ghost use Rattle.cf_model.specs.Store.{Held};
ghost use Rattle.cf_model_laws.specs.Keys.{AreKeysWithin};
ghost use Rattle.cf_model_laws.specs.Premises.{IsFair, IsFresh};
ghost use Rattle.cf_model_convergence.specs.Hearing.{ArePlainWaits, is_heard};
ghost use Rattle.cf_model_convergence.specs.Quiet.{is_accepted, is_always_populated, is_count};
ghost use Rattle.cf_model_convergence.specs.Tidy.{IsTidy};
ghost use Rattle.cf_model_quiet.specs.LastPass.{ends_silent};

/// In a run in which no policy of FULL population was accepted, a silent `sync` leaves a state that is settled as a whole: besides, each
/// live item of the remote is the target of just one item here. Of the state before nothing is asked but that no wait is in its way.
#[tactic(auto, using(crate::proofs::ArrivedSyncs::sync_settles_whole))]
pub fn a_silent_sync_settles_the_whole()
    ensures { (remote : Held) (clusters : ℕ) (trace : List (Event × Answer)) (s : State) (a : Answer) (t : State) → Runs mode.Replay (start mode.Replay remote clusters) trace s → IsFresh remote → IsTidy remote → is_always_populated trace ≡ true → s.link.inline ≡ true → AreKeysWithin s.filter → ArePlainWaits s → IsStep mode.Replay s (event.Engine engine.Sync) a t → IsFair t.link → is_count a.shown ≡ true → list_any is_heard a.notes ≡ false → no_number t ≡ false → is_settled true t ≡ true }
{}

/// So does a silent `work` event.
#[tactic(auto, using(crate::proofs::ArrivedSyncs::work_settles_whole))]
pub fn a_silent_work_settles_the_whole()
    ensures { (remote : Held) (clusters : ℕ) (trace : List (Event × Answer)) (s : State) (a : Answer) (t : State) → Runs mode.Replay (start mode.Replay remote clusters) trace s → IsFresh remote → IsTidy remote → is_always_populated trace ≡ true → s.link.inline ≡ true → AreKeysWithin s.filter → ArePlainWaits s → IsStep mode.Replay s (event.Engine engine.Work) a t → IsFair t.link → is_accepted a.shown ≡ true → list_any is_heard a.notes ≡ false → no_number t ≡ false → is_settled true t ≡ true }
{}

/// So does a `sync` of which the last pass is silent, whatever its earlier passes report.
#[tactic(auto, using(crate::proofs::ArrivedSyncs::quiet_settles_whole))]
pub fn a_sync_that_ends_silent_settles_the_whole()
    ensures { (remote : Held) (clusters : ℕ) (trace : List (Event × Answer)) (s : State) (a : Answer) (t : State) → Runs mode.Replay (start mode.Replay remote clusters) trace s → IsFresh remote → IsTidy remote → is_always_populated trace ≡ true → s.link.inline ≡ true → AreKeysWithin s.filter → ArePlainWaits s → IsStep mode.Replay s (event.Engine engine.Sync) a t → IsFair t.link → is_count a.shown ≡ true → ends_silent a.notes ≡ true → no_number t ≡ false → is_settled true t ≡ true }
{}
