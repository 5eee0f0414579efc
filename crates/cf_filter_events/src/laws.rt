//! Laws of what contracts say of the power cuts of a disk.

ghost use Rattle.std.specs.Prelude.{◌≡◌, ◌++◌, ℕ, List, Some};
ghost use Rattle.cf_filter_events.specs.Pasts.{Gains};
ghost use Rattle.cf_base.specs.declared.policies.Choice.{Choice};

/// A disk that tells its power cuts before and after tells exactly the power cuts that it gained more, in their order.
#[tactic(auto, using(crate::proofs::Gained::gains_told))]
pub fn a_disk_tells_all_it_gained()
    ensures { (powers old new : List (Choice × List ℕ)) → Gains powers (Some old) (Some new) → new ≡ old ++ powers }
{}
