//! Whole events of `sync` and `work`.

ghost use Rattle.std.specs.Prelude.{◌≡◌, ◌||◌, ℕ, List, Some, [], false, not, true};
ghost use Rattle.std.specs.List.{list_all, list_any};
ghost use Rattle.cf_base.specs.declared.answers.Answer.{Answer};
ghost use Rattle.cf_base.specs.declared.answers.Shown.TheVariants as shown;
ghost use Rattle.cf_base.specs.declared.events.EngineEvent.TheVariants as engine;
ghost use Rattle.cf_base.specs.declared.events.Event.{Event};
ghost use Rattle.cf_base.specs.declared.events.Event.TheVariants as event;
ghost use Rattle.cf_base.specs.declared.policies.Mode.TheVariants as mode;
ghost use Rattle.cf_model.specs.Items.{Item, item_of};
ghost use Rattle.cf_model.specs.Lawful.{IsStep, Runs};
ghost use Rattle.cf_model.specs.Messages.{no_number};
ghost use Rattle.cf_model.specs.Numbers.{root_id};
ghost use Rattle.cf_model.specs.Settled.{is_settled};
ghost use Rattle.cf_model.specs.State.{State, book_now, items_now, start};
ghost use Rattle.cf_model.specs.Store.{Held};
ghost use Rattle.cf_model_laws.specs.Keys.{AreKeysWithin};
ghost use Rattle.cf_model_laws.specs.Premises.{IsFair, IsFresh};
ghost use Rattle.cf_model_convergence.specs.Agreeing.{IsHereUnlessBuried, IsKeptUp, IsPassedHere};
ghost use Rattle.cf_model_convergence.specs.Hearing.{ArePlainWaits, is_heard};
ghost use Rattle.cf_model_convergence.specs.Lapses.{are_all_here, is_known, of_target};
ghost use Rattle.cf_model_convergence.specs.Quiet.{is_accepted, is_count};
ghost use Rattle.cf_model_convergence.specs.Tidy.{IsTidy};

/// A `sync` in a run whose answer is a count and has no line of a change, of an upload that was done or refused, of a step that was
/// left out, of trouble, or of a reply that there are no such bytes: the state that it leaves is settled, and the count is 0. So it is
/// over a remote that was handed in tidy and a link that answers at once, where the remote has kept its rules or failed so far, keys and
/// numbers of messages are left, no list call waits, a live ask is for each dehydration that does, and what the cursor has passed is known, as
/// it is afterwards again. The state is settled as a whole where each live item of the remote that the cursor has passed is here once
/// no tombstone is left, and each directory is populated.
#[tactic(auto, using(crate::proofs::WorksCalm::run_silent, crate::proofs::WorksCalm::run_silent_all))]
pub fn a_silent_sync_leaves_a_settled_state()
    ensures local { (remote : Held) (clusters : ℕ) (trace : List (Event × Answer)) (s : State) (a : Answer) (t : State) → Runs mode.Replay (start mode.Replay remote clusters) trace s → IsFresh remote → IsTidy remote → s.link.inline ≡ true → AreKeysWithin s.filter → ArePlainWaits s → IsKeptUp s → IsStep mode.Replay s (event.Engine engine.Sync) a t → IsFair t.link → is_count a.shown ≡ true → list_any is_heard a.notes ≡ false → no_number t ≡ false → (is_settled false t ≡ true) × (a.shown ≡ shown.Count 0) × IsKeptUp t }
    ensures whole { (remote : Held) (clusters : ℕ) (trace : List (Event × Answer)) (s : State) (a : Answer) (t : State) → Runs mode.Replay (start mode.Replay remote clusters) trace s → IsFresh remote → IsTidy remote → s.link.inline ≡ true → AreKeysWithin s.filter → ArePlainWaits s → IsKeptUp s → IsHereUnlessBuried s → IsStep mode.Replay s (event.Engine engine.Sync) a t → IsFair t.link → is_count a.shown ≡ true → list_any is_heard a.notes ≡ false → no_number t ≡ false → (is_settled true t ≡ true) × IsPassedHere t }
{}

/// So it is of a `work` event that is accepted.
#[tactic(auto, using(crate::proofs::WorksCalm::work_silent, crate::proofs::WorksCalm::work_silent_all))]
pub fn a_silent_work_leaves_a_settled_state()
    ensures local { (remote : Held) (clusters : ℕ) (trace : List (Event × Answer)) (s : State) (a : Answer) (t : State) → Runs mode.Replay (start mode.Replay remote clusters) trace s → IsFresh remote → IsTidy remote → s.link.inline ≡ true → AreKeysWithin s.filter → ArePlainWaits s → IsKeptUp s → IsStep mode.Replay s (event.Engine engine.Work) a t → IsFair t.link → is_accepted a.shown ≡ true → list_any is_heard a.notes ≡ false → no_number t ≡ false → (is_settled false t ≡ true) × IsKeptUp t }
    ensures whole { (remote : Held) (clusters : ℕ) (trace : List (Event × Answer)) (s : State) (a : Answer) (t : State) → Runs mode.Replay (start mode.Replay remote clusters) trace s → IsFresh remote → IsTidy remote → s.link.inline ≡ true → AreKeysWithin s.filter → ArePlainWaits s → IsKeptUp s → IsHereUnlessBuried s → IsStep mode.Replay s (event.Engine engine.Work) a t → IsFair t.link → is_accepted a.shown ≡ true → list_any is_heard a.notes ≡ false → no_number t ≡ false → (is_settled true t ≡ true) × IsPassedHere t }
{}

/// What the cursor has passed is known in each state in which the test of it says so, over a tidy remote; and so it is here, where no
/// tombstone is left, the root is here, and each directory is populated.
#[tactic(auto, using(crate::proofs::KnownByTests::tested_known, crate::proofs::KnownByTests::tested_here))]
pub fn a_test_tells_what_is_known()
    ensures known { (s : State) → IsTidy s.link.remote → list_all (of_target s.link.remote (is_known (book_now s))) (items_now s) ≡ true → IsKeptUp s }
    ensures here { (s : State) → (i : Item) × (item_of (items_now s) root_id ≡ Some i) → (book_now s).tombstones ≡ [] → list_all (λ i. not i.directory || i.populated) (items_now s) ≡ true → are_all_here s.link.remote (items_now s) (book_now s) ≡ true → IsPassedHere s }
{}

/// A link that is fair at the end of a run was fair in each state before.
#[tactic(auto, using(crate::proofs::FairBefore::run_was_fair))]
pub fn a_fair_link_was_fair()
    ensures { (remote : Held) (clusters : ℕ) (trace more : List (Event × Answer)) (s t : State) → Runs mode.Replay (start mode.Replay remote clusters) trace s → IsFresh remote → Runs mode.Replay s more t → IsFair t.link → IsFair s.link }
{}
