//! What a flush keeps.

ghost use Rattle.std.specs.Prelude.{ℕ};
ghost use Rattle.cf_base.specs.declared.policies.Mode.TheVariants as mode;
ghost use Rattle.cf_model.specs.Lawful.{Runs};
ghost use Rattle.cf_model.specs.State.{State, start};
ghost use Rattle.cf_model.specs.Store.{Held};
ghost use Rattle.cf_model_laws.specs.Premises.{IsFair, IsFresh};
ghost use Rattle.cf_model_headline.specs.KeptBytes.{FlushedIsKept};
ghost use Rattle.cf_model_headline.specs.Reports.{Report};

/// In `replay`, over a remote that keeps its rules: a byte of a local write that a flush counted, and that no later local change
/// took away, is here, in the file or a copy of it, or in a version of one of them whose upload was acknowledged.
#[tactic(auto, using(crate::proofs::KeptBytesLaws::flushed_is_kept))]
pub fn a_flushed_byte_is_kept()
    ensures { (remote : Held) (clusters : ℕ) (report : Report) (last : State) → IsFresh remote → IsFair last.link → Runs mode.Replay (start mode.Replay remote clusters) report last → FlushedIsKept report last.link.remote }
{}
