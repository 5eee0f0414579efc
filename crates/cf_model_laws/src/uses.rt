//! What is in use is left alone, and nothing is removed that an application changed.

ghost use Rattle.std.specs.Prelude.{◌≡◌, ℕ, List, true};
ghost use Rattle.cf_base.specs.declared.answers.Answer.{Answer};
ghost use Rattle.cf_base.specs.declared.events.Event.{Event};
ghost use Rattle.cf_base.specs.declared.messages.Entry.{Entry};
ghost use Rattle.cf_base.specs.declared.policies.Mode.TheVariants as mode;
ghost use Rattle.cf_model_laws.specs.Premises.{IsFair, IsFresh};
ghost use Rattle.cf_model_laws.specs.Uses.{AreIdsRising, AreRemovalsVacant, AreReplacedIdle, AreUsesLeft, is_other};
ghost use Rattle.cf_model.specs.Events.{is_of, tree_of};
ghost use Rattle.cf_model.specs.Feeds.{apply_feed};
ghost use Rattle.cf_model.specs.Lawful.{Runs};
ghost use Rattle.cf_model.specs.State.{State, start};
ghost use Rattle.cf_model.specs.Store.{Held};
ghost use Rattle.cf_model.specs.Trees.{Keeps};

/// In `replay`, over a remote that keeps its rules: an item on which a handle is open, or a wait live, in one state of a run
/// and still in a later one is neither removed nor taken over in between, whoever asks for it. The later state may be one that
/// an event goes through.
#[tactic(auto, using(crate::proofs::UseLaws::uses_left))]
pub fn what_is_in_use_is_left_alone()
    ensures { (remote : Held) (clusters : ℕ) (before : List (Event × Answer)) (s : State) (trace : List (Event × Answer)) (t : State) (e : Event)
        → Runs mode.Replay (start mode.Replay remote clusters) before s → IsFresh remote → Runs mode.Replay s trace t → is_of mode.Replay e ≡ true → Keeps (AreUsesLeft s) (tree_of e t) }
{}

/// There too, an event in which no application removes an item removes none but files without local writes and directories
/// without a child.
#[tactic(auto, using(crate::proofs::UseLaws::removals_vacant))]
pub fn nothing_is_removed_that_was_changed_here()
    ensures { (remote : Held) (clusters : ℕ) (trace : List (Event × Answer)) (s : State) (e : Event)
        → Runs mode.Replay (start mode.Replay remote clusters) trace s → IsFresh remote → is_of mode.Replay e ≡ true → is_other e ≡ true → Keeps (AreRemovalsVacant s) (tree_of e s) }
{}

/// A feed, which alone takes items over and removes them where no application asks for it, does so only with items that are not
/// in use in the state in which the change is made, nor right after it: an item is in use in each state that the feed goes
/// through or in none, and what it takes over or removes is in use in none. So it is of any feed, whatever the remote reports, and
/// from any state whose ids rise; and in `replay`, over a remote that keeps its rules, the ids rise in each state of a run.
#[tactic(auto, using(crate::proofs::FeedsIdle::feed_idle, crate::proofs::FeedsIdle::ids_rise))]
pub fn a_feed_replaces_nothing_in_use()
    ensures feed { (clock : ℕ) (entries : List Entry) (s : State) → AreIdsRising s → Keeps (AreReplacedIdle s) (apply_feed clock entries s) }
    ensures rising { (remote : Held) (clusters : ℕ) (trace : List (Event × Answer)) (s : State) (e : Event)
        → Runs mode.Replay (start mode.Replay remote clusters) trace s → IsFresh remote → is_of mode.Replay e ≡ true → Keeps (λ t. IsFair t.link → AreIdsRising t) (tree_of e s) }
{}
