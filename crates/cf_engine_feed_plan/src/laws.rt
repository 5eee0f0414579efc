//! Laws for those who carry steps out.

ghost use Rattle.std.specs.Prelude.{◌≡◌, Bool, List, Result, Some};
ghost use Rattle.cf_base.specs.declared.changes.Change.{Change};
ghost use Rattle.cf_base.specs.declared.codes.CallError.{CallError};
ghost use Rattle.cf_base.specs.declared.ids.ItemId.{ItemId};
ghost use Rattle.cf_base.specs.declared.messages.Entry.{Entry};
ghost use Rattle.cf_model.specs.Feeds.{take_turn, turn};
ghost use Rattle.cf_model.specs.Skips.{try_change};
ghost use Rattle.cf_model.specs.State.{State, items_now};
ghost use Rattle.cf_model.specs.Trees.{Does};
ghost use Rattle.cf_engine_feed_plan.specs.Lists.{copy_of};
ghost use Rattle.cf_engine_feed_plan.specs.Turns.{do_step, do_steps, IsTurn};
ghost use Rattle.cf_engine_feed_plan.specs.declared.entry_steps.Step.{Step};
ghost use Rattle.cf_engine_feed_plan.specs.declared.entry_steps.Turn.{Turn};

/// Whoever does the steps of an entry, wherever the device stops, does what the definitions say of the entry's turn.
pub fn steps_do_the_turn()
    ensures { (last : Bool) (e : Entry) (s t : State) (steps : List Step) (r : Result Bool CallError) → IsTurn last e s (Turn.Do steps) → Does (turn (do_steps steps) s) r t → Does (take_turn e s) r t }
{}

/// A step `CopyOff` is the change that `copy_off` gives on the rows of the state.
#[tactic(auto, using(crate::proofs::CopiesAre::copy_is))]
pub fn a_copy_is_its_change()
    ensures { (s : State) (item : ItemId) (c : Change) → copy_of s.filter.volume.next_item (items_now s) item ≡ Some c → do_step (Step.CopyOff item) s ≡ try_change c s }
{}
