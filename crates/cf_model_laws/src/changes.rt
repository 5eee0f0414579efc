//! The changes of a run, each where it was made.

ghost use Rattle.std.specs.Prelude.{◌≡◌, ℕ, List, true};
ghost use Rattle.cf_base.specs.declared.answers.Answer.{Answer};
ghost use Rattle.cf_base.specs.declared.events.Event.{Event};
ghost use Rattle.cf_base.specs.declared.policies.Mode.TheVariants as mode;
ghost use Rattle.cf_model_laws.specs.Logged.{AreChangesRight};
ghost use Rattle.cf_model_laws.specs.Marks.{IsMadeAtSeen, IsMarkedAtSeen};
ghost use Rattle.cf_model_laws.specs.Premises.{IsFresh};
ghost use Rattle.cf_model.specs.Events.{is_of, tree_of};
ghost use Rattle.cf_model.specs.Lawful.{Runs};
ghost use Rattle.cf_model.specs.State.{State, start};
ghost use Rattle.cf_model.specs.Store.{Held};
ghost use Rattle.cf_model.specs.Trees.{Keeps};

/// In `replay`, over a remote that keeps its rules: each Mark of a run names the number that its item has at that step; the
/// item has no local write then, it has a target, and its base is a version that the remote has made, or none. Each Rebase
/// names a version with the bytes of the base under the writes that go into it, and leaves the content of its file. Each Take
/// meets a file without local writes, or stands directly behind the Copy of that file. Each Copy has the content of the old
/// file.
#[tactic(auto, using(crate::proofs::LoggedGuarded::changes_right))]
pub fn every_change_of_the_engine_is_right()
    ensures { (remote : Held) (clusters : ℕ) (trace : List (Event × Answer)) (s : State) → Runs mode.Replay (start mode.Replay remote clusters) trace s → IsFresh remote → AreChangesRight s }
{}

/// In `replay`, over a remote that keeps its rules: in each state that a run goes through, wherever the device stops, as long
/// as a Mark is the last change its item is there and stands at the path seen; or no path of it is seen, and the Mark is directly
/// behind its Make, as in a listing, whose paths come to be seen only with its last change. And as long as the Make is the last
/// change, the new item stands at the path seen, or none is seen yet.
#[tactic(auto, using(crate::proofs::MarksGuarded::marks_stay, crate::proofs::MarksGuarded::makes_stay))]
pub fn a_marked_item_stands_where_it_was_seen()
    ensures made { (remote : Held) (clusters : ℕ) (trace : List (Event × Answer)) (s : State) (e : Event)
        → Runs mode.Replay (start mode.Replay remote clusters) trace s → IsFresh remote → is_of mode.Replay e ≡ true → Keeps IsMadeAtSeen (tree_of e s) }
    ensures marked { (remote : Held) (clusters : ℕ) (trace : List (Event × Answer)) (s : State) (e : Event)
        → Runs mode.Replay (start mode.Replay remote clusters) trace s → IsFresh remote → is_of mode.Replay e ≡ true → Keeps IsMarkedAtSeen (tree_of e s) }
{}
