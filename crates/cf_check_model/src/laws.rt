//! What holds of verdicts.

ghost use Rattle.std.specs.Prelude.{◌≡◌, ℕ, suc, List};
ghost use Rattle.cf_base.specs.declared.events.Event.{Event};
ghost use Rattle.cf_check_model.specs.Judging.{IsVerdict, accepts};
ghost use Rattle.cf_check_model.specs.declared.verdicts.Verdict.{Verdict};

/// Where the first events are accepted, so are fewer of them.
#[tactic(auto, using(crate::proofs::Fronts::accepts_less))]
pub fn fewer_events_are_accepted_too()
    ensures { (events : List Event) (report : List ℕ) (clusters n : ℕ) → accepts events report clusters (suc n) → accepts events report clusters n }
{}

/// At most one verdict on a report is right.
#[tactic(auto, using(crate::proofs::OneVerdict::one_verdict))]
pub fn at_most_one_verdict_is_right()
    ensures { (events : List Event) (report : List ℕ) (clusters : ℕ) (v w : Verdict) → IsVerdict events report clusters v → IsVerdict events report clusters w → v ≡ w }
{}
