//! Laws of reports.

ghost use Rattle.std.specs.Prelude.{ℕ};
ghost use Rattle.cf_base.specs.declared.policies.Mode.TheVariants as mode;
ghost use Rattle.cf_model.specs.Lawful.{Runs};
ghost use Rattle.cf_model.specs.State.{State, start};
ghost use Rattle.cf_model.specs.Store.{Held};
ghost use Rattle.cf_model_convergence.specs.Tidy.{IsTidy};
ghost use Rattle.cf_model_headline.specs.Reports.{OfEach, Report};
ghost use Rattle.cf_model_laws.specs.Premises.{IsFair, IsFresh};
ghost use Rattle.cf_model_settling.specs.Settling.{SettlesIfSilent};

/// After each silent `sync` and `work` of a report both sides agree, and after each `sync` of which the last pass is silent; and the `sync` answers 0. Where
/// no policy of FULL population was accepted before, each live item of the remote is here too, just once. So it is over a remote that was handed in tidy and
/// has kept its rules or failed since.
#[tactic(auto, using(crate::proofs::Settled::each_settles))]
pub fn each_silent_sync_settles()
    ensures { (remote : Held) (clusters : ℕ) (report : Report) (last : State) → Runs mode.Replay (start mode.Replay remote clusters) report last → IsFresh remote → IsTidy remote → IsFair last.link
        → OfEach mode.Replay remote clusters report last (λ before s e a t. SettlesIfSilent before s e a t) }
{}
