//! Who sets `in sync`, and at which number.

ghost use Rattle.std.specs.Prelude.{ℕ};
ghost use Rattle.cf_base.specs.declared.policies.Mode.{Mode};
ghost use Rattle.cf_base.specs.declared.policies.Mode.TheVariants as mode;
ghost use Rattle.cf_model.specs.Lawful.{Runs};
ghost use Rattle.cf_model.specs.State.{State, start};
ghost use Rattle.cf_model.specs.Store.{Held};
ghost use Rattle.cf_model_laws.specs.Premises.{IsFair, IsFresh};
ghost use Rattle.cf_model_headline.specs.Marked.{InSyncByMark, MarksGiveNumbers};
ghost use Rattle.cf_model_headline.specs.Reports.{Report};

/// In both commands: an item that a report shows in sync was set so by a Mark, while it had the number that is shown. In `replay`,
/// over a remote that keeps its rules: each Mark gives the number that its item has there.
pub fn only_a_mark_sets_in_sync()
    ensures mark { (m : Mode) (remote : Held) (clusters : ℕ) (report : Report) (last : State) → IsFresh remote → Runs m (start m remote clusters) report last → InSyncByMark report }
    ensures number { (remote : Held) (clusters : ℕ) (report : Report) (last : State) → IsFresh remote → IsFair last.link → Runs mode.Replay (start mode.Replay remote clusters) report last → MarksGiveNumbers report }
{}
