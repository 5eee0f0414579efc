//! What the messages tell of the remote.

ghost use Rattle.std.specs.Prelude.{ℕ, List};
ghost use Rattle.cf_base.specs.declared.answers.Answer.{Answer};
ghost use Rattle.cf_base.specs.declared.events.Event.{Event};
ghost use Rattle.cf_base.specs.declared.policies.Mode.TheVariants as mode;
ghost use Rattle.cf_model.specs.Lawful.{Runs};
ghost use Rattle.cf_model.specs.State.{State, start};
ghost use Rattle.cf_model.specs.Store.{Held};
ghost use Rattle.cf_model_laws.specs.Premises.{IsFresh};
ghost use Rattle.cf_model_convergence.specs.Tidy.{IsTidy};
ghost use Rattle.cf_model_agreement.specs.Messages.{TellsTrue};

/// In each state of a run over a remote that was handed in tidy: the feed of the latest round, while that is open, asked for what was
/// changed after the cursor. A reply to a feed told each item that was changed between the time that it asked for and the remote's clock
/// then, and told it as it is, unless it was changed since. Of a listing whose ask is still live, each entry whose item the cursor has
/// passed tells the item as it is.
#[tactic(auto, using(crate::proofs::RunsTrue::run_true))]
pub fn messages_tell_the_truth()
    ensures { (remote : Held) (clusters : ℕ) (trace : List (Event × Answer)) (s : State) → Runs mode.Replay (start mode.Replay remote clusters) trace s → IsFresh remote → IsTidy remote → TellsTrue s }
{}
