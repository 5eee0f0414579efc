//! The turns of a feed's entries, and what they report. A second case beside each such line: the remote did not keep its rules.

ghost use Rattle.std.specs.Prelude.{◌≡◌, ◌⊎◌, Bool, List, Some, true};
ghost use Rattle.cf_base.specs.declared.messages.Entry.{Entry};
ghost use Rattle.cf_model.specs.Feeds.{Fed, all_turns, take_turn};
ghost use Rattle.cf_model.specs.Fits.{are_distinct};
ghost use Rattle.cf_model.specs.Items.{Item};
ghost use Rattle.cf_model.specs.State.{State, book_now};
ghost use Rattle.cf_model.specs.Store.{Held, Stored, entry_told, stored_at};
ghost use Rattle.cf_model.specs.Trees.{Ends};
ghost use Rattle.cf_model_laws.specs.Invariant.{HasBase, Invariant};
ghost use Rattle.cf_model_laws.specs.Premises.{IsFair};
ghost use Rattle.cf_model_convergence.specs.Resting.{IsKnown, IsTargetRight};
ghost use Rattle.cf_model_convergence.specs.Telling.{IsListening, IsTold};
ghost use Rattle.cf_model_convergence.specs.Turns.{AreTurned, IsTakenIn, IsTurnOf};

/// An entry of a feed at its turn: a line reports a change or a step that was left out; or its item is in use, and it is postponed;
/// or it is dead or its parent is not here, and no item is its; or it is taken in. Then the items stay, its path is the one seen, and
/// its version is not newer than a file's base.
#[tactic(auto, using(crate::proofs::FeedTurns::turn_told))]
pub fn an_entry_at_its_turn_is_told_or_taken_in()
    ensures { (e : Entry) (s : State) (postponed : Bool) (t : State) → Invariant s → IsFair s.link → IsListening s → Ends (take_turn e s) postponed t → IsTold s t ⊎ IsTurnOf e s postponed t }
{}

/// All turns of a feed that reports no item twice: a line reports a change or a step that was left out; or nothing but paths seen is
/// another afterwards, and of the entries' items alone. Then the item of each entry is in use, and an entry was postponed; or no item is its, and
/// it is dead or its parent is not here; or it is taken in.
#[tactic(auto, using(crate::proofs::FeedsTurned::turns_told))]
pub fn all_turns_are_told_or_take_all_in()
    ensures { (es : List Entry) (s : State) (f : Fed) (t : State) → Invariant s → IsFair s.link → IsListening s → are_distinct es ≡ true → Ends (all_turns es s) f t → IsTold s t ⊎ AreTurned es f.postponed s t }
{}

/// What is taken in of an item that the remote has so is known: the target is live, a file has its latest version, and the path seen is
/// its path.
#[tactic(auto, using(crate::proofs::TakenKnown::taken_known))]
pub fn what_is_taken_in_is_known()
    ensures { (held : Held) (e : Entry) (i : Item) (r : Stored) (s t : State) → stored_at held.items r.rid ≡ Some r → e ≡ entry_told r → e.live ≡ true → IsTargetRight i r → HasBase held i.identity → IsTakenIn e i s t → IsKnown (book_now t) i r }
{}
