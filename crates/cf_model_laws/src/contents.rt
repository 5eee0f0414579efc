//! The right bytes.

ghost use Rattle.std.specs.Prelude.{◌≡◌, ℕ, List, true};
ghost use Rattle.cf_base.specs.declared.answers.Answer.{Answer};
ghost use Rattle.cf_base.specs.declared.events.Event.{Event};
ghost use Rattle.cf_base.specs.declared.policies.Mode.TheVariants as mode;
ghost use Rattle.cf_model_laws.specs.Contents.{AreFilesRight, AreReadsRight};
ghost use Rattle.cf_model_laws.specs.Premises.{IsFresh};
ghost use Rattle.cf_model.specs.Events.{is_of, tree_of};
ghost use Rattle.cf_model.specs.Lawful.{Runs};
ghost use Rattle.cf_model.specs.State.{State, start};
ghost use Rattle.cf_model.specs.Store.{Held};
ghost use Rattle.cf_model.specs.Trees.{Keeps};

/// In `replay`, over a remote that keeps its rules, each byte of a file that is here is the byte of its content: of the
/// version that its base names, under the local writes that still stand. So it is after each event of a run, crashes and
/// restarts included, and in each state that an event goes through, wherever the device stops. And a read that misses
/// nothing ends with the span of that content, cut at the size.
#[tactic(auto, using(crate::proofs::ContentLaws::files_right, crate::proofs::ContentLaws::files_stay_right, crate::proofs::ContentLaws::reads_right))]
pub fn every_byte_here_is_right()
    ensures after { (remote : Held) (clusters : ℕ) (trace : List (Event × Answer)) (s : State) → Runs mode.Replay (start mode.Replay remote clusters) trace s → IsFresh remote → AreFilesRight s }
    ensures within { (remote : Held) (clusters : ℕ) (trace : List (Event × Answer)) (s : State) (e : Event)
        → Runs mode.Replay (start mode.Replay remote clusters) trace s → IsFresh remote → is_of mode.Replay e ≡ true → Keeps AreFilesRight (tree_of e s) }
    ensures reads { (remote : Held) (clusters : ℕ) (trace : List (Event × Answer)) (s : State) (e : Event)
        → Runs mode.Replay (start mode.Replay remote clusters) trace s → IsFresh remote → is_of mode.Replay e ≡ true → Keeps AreReadsRight (tree_of e s) }
{}
