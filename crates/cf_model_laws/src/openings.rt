//! What a resumed restart keeps.

ghost use Rattle.std.specs.Prelude.{◌≡◌, ℕ, List};
ghost use Rattle.cf_base.specs.declared.answers.Answer.{Answer};
ghost use Rattle.cf_base.specs.declared.answers.OpenedBook.{OpenedBook};
ghost use Rattle.cf_base.specs.declared.answers.Shown.{Shown};
ghost use Rattle.cf_base.specs.declared.answers.Shown.TheVariants as shown;
ghost use Rattle.cf_base.specs.declared.calls.Call.TheVariants as call;
ghost use Rattle.cf_base.specs.declared.events.Event.{Event};
ghost use Rattle.cf_base.specs.declared.events.Event.TheVariants as event;
ghost use Rattle.cf_base.specs.declared.policies.Mode.{Mode};
ghost use Rattle.cf_model_laws.specs.Openings.{IsKeptIn, IsOpened, restarting};
ghost use Rattle.cf_model.specs.Events.{tree_of};
ghost use Rattle.cf_model.specs.Lawful.{IsStep, Runs};
ghost use Rattle.cf_model.specs.State.{State};
ghost use Rattle.cf_model.specs.Trees.{Ends};

/// A restart that resumes opens one of the points that it may: it keeps the point's first changes, as many as it says, and
/// has the point's book. Where a flush was answered Ok before, that is at least all changes up to the flush.
#[tactic(auto, using(crate::proofs::OpeningLaws::step_opens, crate::proofs::OpeningLaws::flushed_kept))]
pub fn a_restart_keeps_a_prefix_with_all_flushed()
    ensures opened { (m : Mode) (s : State) (a : Answer) (n : ℕ) (opened : OpenedBook) (t : State) → IsStep m s restarting a t → a.shown ≡ shown.Resumed n opened → IsOpened s n opened t }
    ensures flushed { (m : Mode) (first : State) (r : Shown) (flushed : State) (trace : List (Event × Answer)) (s : State) (a : Answer) (n : ℕ) (opened : OpenedBook) (t : State)
        → Ends (tree_of (event.Call call.Flush) first) r flushed → Runs m flushed trace s → IsStep m s restarting a t → a.shown ≡ shown.Resumed n opened → IsKeptIn flushed n t }
{}
