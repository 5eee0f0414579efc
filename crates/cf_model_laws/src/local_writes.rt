//! Local writes are not lost.

ghost use Rattle.std.specs.Prelude.{ℕ, List};
ghost use Rattle.cf_base.specs.declared.answers.Answer.{Answer};
ghost use Rattle.cf_base.specs.declared.answers.Shown.{Shown};
ghost use Rattle.cf_base.specs.declared.calls.Call.TheVariants as call;
ghost use Rattle.cf_base.specs.declared.events.Event.{Event};
ghost use Rattle.cf_base.specs.declared.events.Event.TheVariants as event;
ghost use Rattle.cf_base.specs.declared.policies.Mode.TheVariants as mode;
ghost use Rattle.cf_model_laws.specs.Locals.{AreFlushedKept, AreLocalsHeld, AreLocalsKept};
ghost use Rattle.cf_model_laws.specs.Premises.{IsFresh};
ghost use Rattle.cf_model.specs.Events.{tree_of};
ghost use Rattle.cf_model.specs.Lawful.{Runs};
ghost use Rattle.cf_model.specs.State.{State, start};
ghost use Rattle.cf_model.specs.Store.{Held};
ghost use Rattle.cf_model.specs.Trees.{Ends};

/// In `replay`, over a remote that keeps its rules, no byte of a local write is lost. A byte that a write or a size gave to a
/// position of a file, and that was not taken away from it by a later write over it, a cut before it or the file's removal, is
/// here, in the file or in a copy of it, or in a version that the remote has made. While the write stands in a list, it is
/// that byte which is here. And what was flushed stays so after every later event: crashes and restarts take none of it.
#[tactic(auto, using(crate::proofs::LocalLaws::locals_kept, crate::proofs::LocalLaws::locals_held, crate::proofs::LocalLaws::flushed_locals_kept))]
pub fn no_local_byte_is_lost()
    ensures kept { (remote : Held) (clusters : ℕ) (trace : List (Event × Answer)) (s : State) → Runs mode.Replay (start mode.Replay remote clusters) trace s → IsFresh remote → AreLocalsKept s }
    ensures held { (remote : Held) (clusters : ℕ) (trace : List (Event × Answer)) (s : State) → Runs mode.Replay (start mode.Replay remote clusters) trace s → IsFresh remote → AreLocalsHeld s }
    ensures flushed { (remote : Held) (clusters : ℕ) (before : List (Event × Answer)) (first : State) (r : Shown) (flushed : State) (trace : List (Event × Answer)) (t : State)
        → Runs mode.Replay (start mode.Replay remote clusters) before first → IsFresh remote → Ends (tree_of (event.Call call.Flush) first) r flushed → Runs mode.Replay flushed trace t → AreFlushedKept flushed t }
{}
