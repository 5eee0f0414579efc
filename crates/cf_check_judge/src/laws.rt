//! What the judge promises.

ghost use Rattle.std.specs.Prelude.{◌≡◌, ◌<◌, ℕ, Some, List, length};
ghost use Rattle.cf_base.specs.declared.events.Event.{Event};
ghost use Rattle.cf_check_judge.specs.Judge.{judge};
ghost use Rattle.cf_check_model.specs.Judging.{IsVerdict};
ghost use Rattle.cf_check_model.specs.declared.verdicts.Verdict.{Verdict};
ghost use Rattle.cf_model.specs.Numbers.{most};

/// Whatever verdict the judge gives is right. The report has fewer bytes than there are numbers of messages.
pub fn the_judge_is_right()
    ensures { (events : List Event) (report : List ℕ) (clusters : ℕ) → length report < most
        → (v : Verdict) → judge events report clusters ≡ Some v → IsVerdict events report clusters v }
{}
