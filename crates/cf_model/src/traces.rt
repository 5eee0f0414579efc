//! Laws of trees and traces: how parts of an event compose, and what makes a trace lawful.

ghost use Rattle.std.specs.Prelude.{◌≡◌, ℕ, None, Some, List, [], ◌∷◌, ◌++◌, true, Result, Err};
ghost use Rattle.cf_base.specs.declared.answers.Answer.{Answer};
ghost use Rattle.cf_base.specs.declared.answers.Shown.{Shown};
ghost use Rattle.cf_base.specs.declared.answers.Shown.TheVariants as shown;
ghost use Rattle.cf_base.specs.declared.codes.Code.{Code};
ghost use Rattle.cf_base.specs.declared.codes.Code.TheVariants as code;
ghost use Rattle.cf_base.specs.declared.codes.CallError.{CallError};
ghost use Rattle.cf_base.specs.declared.events.Event.{Event};
ghost use Rattle.cf_base.specs.declared.policies.Mode.{Mode};
ghost use Rattle.cf_model.specs.Events.{answer_in, broken, is_of, may_stop, needs_volume, no_volume, refusal, tree_of};
ghost use Rattle.cf_model.specs.Lawful.{AreOf, IsStep, Lawful, Runs, after, trace_by};
ghost use Rattle.cf_model.specs.State.{Filter, State, in_filter, with_filter};
ghost use Rattle.cf_model.specs.Arrows.{Arrow};
ghost use Rattle.cf_model.specs.Store.{Held};
ghost use Rattle.cf_model.specs.Trees.{Choices, Does, Ends, Stops, Tree, bind};

/// Where the first part stops, both do, and leave the same state.
#[tactic(auto, using(crate::proofs::TreeLaws::fails_first))]
pub fn a_stop_ends_what_follows()
    ensures { (p : Tree State Shown) (g : Shown → State → Tree State Shown) (e : CallError) (t : State) → Does p (Err e) t → Does (bind p g) (Err e) t }
{}

/// Where the first part ends, the answer of the second is that of both.
#[tactic(auto, using(crate::proofs::TreeLaws::goes_on))]
pub fn the_second_answers_for_both()
    ensures { (p : Tree State Shown) (g : Shown → State → Tree State Shown) (a : Shown) (m : State) (r : Result Shown CallError) (t : State)
        → Ends p a m → Does (g a m) r t → Does (bind p g) r t }
{}

/// What the filter does it does in the whole state, which is otherwise as before.
#[tactic(auto, using(crate::proofs::ArrowLaws::filter_in_whole))]
pub fn the_rest_is_as_before()
    ensures { (f : Arrow Filter Shown) (s : State) (r : Result Shown CallError) (t : Filter) → Does (f s.filter) r t → Does (in_filter f s) r (with_filter t s) }
{}

/// The first events of a lawful trace are one.
#[tactic(auto, using(crate::proofs::TraceLaws::lawful_front))]
pub fn the_front_is_lawful()
    ensures { (m : Mode) (remote : Held) (clusters : ℕ) (trace more : List (Event × Answer)) → Lawful m remote clusters (trace ++ more) → Lawful m remote clusters trace }
{}

/// One more step makes a longer run.
#[tactic(auto, using(crate::proofs::TraceLaws::runs_push))]
pub fn a_step_more_runs()
    ensures { (m : Mode) (s mid t : State) (trace : List (Event × Answer)) (e : Event) (a : Answer)
        → Runs m s trace mid → IsStep m mid e a t → Runs m s (trace ++ (e, a) ∷ []) t }
{}

/// Whatever is chosen of what the rules leave open, the answers are lawful.
#[tactic(auto, using(crate::proofs::TraceLaws::runs_by))]
pub fn every_choice_runs()
    ensures { (m : Mode) (s : State) (ps : List (Choices × Event)) → AreOf m ps → Runs m s (trace_by s ps) (after s ps) }
{}

/// An event that ends with a result is a step with that answer.
#[tactic(auto, using(crate::proofs::TraceLaws::ended_step))]
pub fn an_end_is_a_step()
    ensures { (m : Mode) (s : State) (e : Event) (r : Shown) (t : State) → is_of m e ≡ true → no_volume (needs_volume e) s.power ≡ None
        → Ends (tree_of e s) r t → IsStep m s e (answer_in r t) t }
{}

/// An event in which the device stops is a step that is refused as Device.
#[tactic(auto, using(crate::proofs::TraceLaws::stopped_step))]
pub fn a_stop_is_a_step()
    ensures { (m : Mode) (s : State) (e : Event) (t : State) → is_of m e ≡ true → may_stop e ≡ true → no_volume (needs_volume e) s.power ≡ None
        → Stops (tree_of e s) t → IsStep m s e (answer_in (shown.Refused code.Device) t) (broken t) }
{}

/// An event that needs the volume while it is off or broken is refused so, and changes nothing.
#[tactic(auto, using(crate::proofs::TraceLaws::refused_step))]
pub fn a_refusal_is_a_step()
    ensures { (m : Mode) (s : State) (e : Event) (c : Code) → is_of m e ≡ true → no_volume (needs_volume e) s.power ≡ Some c → IsStep m s e (refusal c) s }
{}
