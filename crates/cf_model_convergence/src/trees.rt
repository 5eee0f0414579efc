//! Where items stand, and what is used.

ghost use Rattle.std.specs.Prelude.{ℕ, List};
ghost use Rattle.cf_base.specs.declared.answers.Answer.{Answer};
ghost use Rattle.cf_base.specs.declared.events.Event.{Event};
ghost use Rattle.cf_base.specs.declared.policies.Mode.TheVariants as mode;
ghost use Rattle.cf_model.specs.Lawful.{Runs};
ghost use Rattle.cf_model.specs.State.{State, start};
ghost use Rattle.cf_model.specs.Store.{Held};
ghost use Rattle.cf_model_laws.specs.Premises.{IsFair, IsFresh};
ghost use Rattle.cf_model_convergence.specs.Trees.{AreListsWaited, ArePlaced};

/// In each state of a run, after each of the changes in its log, and so at each point that a restart may open: the root is a
/// directory that is here, each other item stands in a directory that is here and so up to the root, and a directory has neither bytes
/// nor local writes. Handles are open on files. A list call waits on a directory, another call on a file.
#[tactic(auto, using(crate::proofs::PlacedItems::items_placed))]
pub fn items_stand_in_trees()
    ensures { (remote : Held) (clusters : ℕ) (trace : List (Event × Answer)) (s : State) → Runs mode.Replay (start mode.Replay remote clusters) trace s → IsFresh remote → IsFair s.link → ArePlaced s.filter.volume.log s.filter.handles s.filter.waiting.waits }
{}

/// Each ask for the entries of a directory that is live has a list call that waits for it.
#[tactic(auto, using(crate::proofs::PlacedItems::lists_waited))]
pub fn a_list_ask_is_waited_for()
    ensures { (remote : Held) (clusters : ℕ) (trace : List (Event × Answer)) (s : State) → Runs mode.Replay (start mode.Replay remote clusters) trace s → IsFresh remote → AreListsWaited s.filter.outbox s.filter.waiting }
{}
