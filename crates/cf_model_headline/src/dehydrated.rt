//! Which dehydrations are refused.

ghost use Rattle.std.specs.Prelude.{ℕ};
ghost use Rattle.cf_base.specs.declared.policies.Mode.{Mode};
ghost use Rattle.cf_model.specs.State.{State};
ghost use Rattle.cf_model.specs.Store.{Held};
ghost use Rattle.cf_model_headline.specs.Dehydrated.{DehydratesExactly};
ghost use Rattle.cf_model_headline.specs.Reports.{OfEach, Report};

/// In both commands: a dehydration that is well-formed and that the policy allows is refused exactly where the file is pinned,
/// not in sync or in use, with the first of these that holds.
pub fn a_dehydration_is_refused_exactly()
    ensures { (m : Mode) (remote : Held) (clusters : ℕ) (report : Report) (last : State) → OfEach m remote clusters report last (λ before s e a t. DehydratesExactly s e a) }
{}
