//! Remotes that are handed in.

ghost use Rattle.std.specs.Prelude.{◌≡◌, ◌≤◌, ℕ, List, [], true};
ghost use Rattle.cf_base.specs.declared.answers.Answer.{Answer};
ghost use Rattle.cf_base.specs.declared.events.Event.{Event};
ghost use Rattle.cf_base.specs.declared.messages.Request.{Request};
ghost use Rattle.cf_base.specs.declared.policies.Mode.{Mode};
ghost use Rattle.cf_model.specs.Fits.{Known, are_entries};
ghost use Rattle.cf_model.specs.Growth.{IsCounted};
ghost use Rattle.cf_model.specs.Lawful.{Runs};
ghost use Rattle.cf_model.specs.State.{State, start};
ghost use Rattle.cf_model.specs.Store.{Held, empty_remote, feed_of, remote_step};
ghost use Rattle.cf_model_laws.specs.Invariant.{All};
ghost use Rattle.cf_model_convergence.specs.Feeds.{AreAsTheyWere, AreKindsOf, AreParentsFirst, IsLateOrSame, TellsAll, TellsNow};
ghost use Rattle.cf_model_convergence.specs.Tidy.{IsTidy};

/// A remote that is tidy when it is handed in is so in each state of a run: a path has few names, and leads up to the root. One
/// with its root alone is tidy.
#[tactic(auto, using(crate::proofs::TidyRemotes::run_tidy, crate::proofs::TidyRemotes::empty_tidy))]
pub fn a_tidy_remote_stays_tidy()
    ensures stays { (m : Mode) (remote : Held) (clusters : ℕ) (trace : List (Event × Answer)) (s : State) → Runs m (start m remote clusters) trace s → IsTidy remote → IsTidy s.link.remote }
    ensures empty { IsTidy empty_remote }
{}

/// A feed of a tidy remote reports each item below the root that was changed after the clock, as it is now, and nothing else. No item
/// is told twice, and the reply fits where what is known of the kinds is right.
#[tactic(auto, using(crate::proofs::FeedsTold::tells_now, crate::proofs::FeedsTold::tells_all, crate::proofs::FeedsTold::fits_known))]
pub fn a_feed_tells_what_was_changed()
    ensures now { (held : Held) (after : ℕ) → IsTidy held → All (TellsNow held after) (feed_of held after) }
    ensures all { (held : Held) (after : ℕ) → IsTidy held → TellsAll held after (feed_of held after) }
    ensures fits { (held : Held) (after : ℕ) (ks : List Known) → IsTidy held → AreKindsOf held ks → are_entries ks (feed_of held after) ≡ true }
{}

/// It tells each live item after its parent, if that is told at all.
#[tactic(auto, using(crate::proofs::FeedsOrder::parents_first))]
pub fn a_feed_tells_parents_first()
    ensures { (held : Held) (after : ℕ) → IsTidy held → AreParentsFirst held after [] (feed_of held after) }
{}

/// A request changes an item at a time behind the clock: what was not changed after it is told as before. The clock never goes back.
#[tactic(auto, using(crate::proofs::LateChanges::late_or_same, cf_model_laws::proofs::RemoteGrowth::clock_rises))]
pub fn a_request_changes_what_is_late()
    ensures late { (held : Held) (q : Request) → IsCounted held → All (IsLateOrSame held) (remote_step held q).1.items }
    ensures clock { (held : Held) (q : Request) → held.clock ≤ (remote_step held q).1.clock }
{}

/// So over a run: what was not changed after some time is told as it was at that time.
#[tactic(auto, using(crate::proofs::LateChanges::run_as))]
pub fn what_is_early_stays_as_it_was()
    ensures { (m : Mode) (s : State) (trace : List (Event × Answer)) (t : State) (time : ℕ) → Runs m s trace t → IsCounted s.link.remote → time ≤ s.link.remote.clock → AreAsTheyWere s.link.remote time t.link.remote }
{}
