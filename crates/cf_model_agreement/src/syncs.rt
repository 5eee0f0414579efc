//! Events of `sync` and `work` that are silent.

ghost use Rattle.std.specs.Prelude.{◌≡◌, ℕ, List, false, true};
ghost use Rattle.std.specs.List.{list_any};
ghost use Rattle.cf_base.specs.declared.answers.Answer.{Answer};
ghost use Rattle.cf_base.specs.declared.answers.Shown.TheVariants as shown;
ghost use Rattle.cf_base.specs.declared.events.EngineEvent.TheVariants as engine;
ghost use Rattle.cf_base.specs.declared.events.Event.{Event};
ghost use Rattle.cf_base.specs.declared.events.Event.TheVariants as event;
ghost use Rattle.cf_base.specs.declared.policies.Mode.TheVariants as mode;
ghost use Rattle.cf_model.specs.Lawful.{IsStep, Runs};
ghost use Rattle.cf_model.specs.Messages.{no_number};
ghost use Rattle.cf_model.specs.Settled.{is_settled};
ghost use Rattle.cf_model.specs.State.{State, start};
ghost use Rattle.cf_model.specs.Store.{Held};
ghost use Rattle.cf_model_laws.specs.Keys.{AreKeysWithin};
ghost use Rattle.cf_model_laws.specs.Premises.{IsFair, IsFresh};
ghost use Rattle.cf_model_convergence.specs.Agreeing.{IsHereUnlessBuried, IsPassedHere};
ghost use Rattle.cf_model_convergence.specs.Hearing.{ArePlainWaits, is_heard};
ghost use Rattle.cf_model_convergence.specs.Quiet.{is_accepted, is_count};
ghost use Rattle.cf_model_convergence.specs.Tidy.{IsTidy};

/// A `sync` in a run whose answer is a count and has no line of a change, of an upload that was done or refused, of a step that was
/// left out, of trouble, or of a reply that there are no such bytes: the state that it leaves is settled, and the count is 0. So it is
/// over a remote that was handed in tidy and a link that answers at once, where the remote has kept its rules or failed so far, keys and
/// numbers of messages are left, no list call waits, and a live ask is for each dehydration that does. The state is settled as a whole
/// where each live item of the remote that the cursor has passed is here once no tombstone is left, and each directory is populated.
#[tactic(auto, using(crate::proofs::KnownSyncs::sync_silent, crate::proofs::KnownSyncs::sync_silent_all))]
pub fn a_silent_sync_settles()
    ensures local { (remote : Held) (clusters : ℕ) (trace : List (Event × Answer)) (s : State) (a : Answer) (t : State) → Runs mode.Replay (start mode.Replay remote clusters) trace s → IsFresh remote → IsTidy remote → s.link.inline ≡ true → AreKeysWithin s.filter → ArePlainWaits s → IsStep mode.Replay s (event.Engine engine.Sync) a t → IsFair t.link → is_count a.shown ≡ true → list_any is_heard a.notes ≡ false → no_number t ≡ false → (is_settled false t ≡ true) × (a.shown ≡ shown.Count 0) }
    ensures whole { (remote : Held) (clusters : ℕ) (trace : List (Event × Answer)) (s : State) (a : Answer) (t : State) → Runs mode.Replay (start mode.Replay remote clusters) trace s → IsFresh remote → IsTidy remote → s.link.inline ≡ true → AreKeysWithin s.filter → ArePlainWaits s → IsHereUnlessBuried s → IsStep mode.Replay s (event.Engine engine.Sync) a t → IsFair t.link → is_count a.shown ≡ true → list_any is_heard a.notes ≡ false → no_number t ≡ false → (is_settled true t ≡ true) × IsPassedHere t }
{}

/// So it is of a `work` event that is accepted.
#[tactic(auto, using(crate::proofs::KnownSyncs::work_silent, crate::proofs::KnownSyncs::work_silent_all))]
pub fn a_silent_work_settles()
    ensures local { (remote : Held) (clusters : ℕ) (trace : List (Event × Answer)) (s : State) (a : Answer) (t : State) → Runs mode.Replay (start mode.Replay remote clusters) trace s → IsFresh remote → IsTidy remote → s.link.inline ≡ true → AreKeysWithin s.filter → ArePlainWaits s → IsStep mode.Replay s (event.Engine engine.Work) a t → IsFair t.link → is_accepted a.shown ≡ true → list_any is_heard a.notes ≡ false → no_number t ≡ false → is_settled false t ≡ true }
    ensures whole { (remote : Held) (clusters : ℕ) (trace : List (Event × Answer)) (s : State) (a : Answer) (t : State) → Runs mode.Replay (start mode.Replay remote clusters) trace s → IsFresh remote → IsTidy remote → s.link.inline ≡ true → AreKeysWithin s.filter → ArePlainWaits s → IsHereUnlessBuried s → IsStep mode.Replay s (event.Engine engine.Work) a t → IsFair t.link → is_accepted a.shown ≡ true → list_any is_heard a.notes ≡ false → no_number t ≡ false → (is_settled true t ≡ true) × IsPassedHere t }
{}
