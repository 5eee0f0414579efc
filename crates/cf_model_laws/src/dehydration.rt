//! A dehydration is refused exactly where the file is pinned, not in sync or in use.

ghost use Rattle.std.specs.Prelude.{◌≢◌, ℕ, List, Option};
ghost use Rattle.cf_base.specs.declared.answers.Answer.{Answer};
ghost use Rattle.cf_base.specs.declared.answers.Shown.TheVariants as shown;
ghost use Rattle.cf_base.specs.declared.codes.Code.TheVariants as code;
ghost use Rattle.cf_base.specs.declared.policies.Mode.{Mode};
ghost use Rattle.cf_model.specs.Items.{Item};
ghost use Rattle.cf_model.specs.Lawful.{IsStep};
ghost use Rattle.cf_model.specs.State.{State};
ghost use Rattle.cf_model_laws.specs.Dehydrations.{IsAllowed, IsRefusedExactly, dehydrating};

/// A dehydration that is well-formed and that policy allows is refused exactly where the file is pinned, not in sync or in
/// use, as the first of these that holds; but for a stop of the device.
#[tactic(auto, using(crate::proofs::DehydrationLaws::refused_exactly))]
pub fn a_dehydration_is_refused_exactly()
    ensures { (m : Mode) (s : State) (path : List ℕ) (range : Option (ℕ × ℕ)) (i : Item) (a : Answer) (t : State)
        → IsAllowed s path range i → IsStep m s (dehydrating path range) a t → a.shown ≢ shown.Refused code.Device → IsRefusedExactly m s path range i a }
{}
