//! Settled states.

ghost use Rattle.std.specs.Prelude.{◌≡◌, Bool, true, false};
ghost use Rattle.cf_model.specs.Items.{Item};
ghost use Rattle.cf_model.specs.LookUp.{is_excluded};
ghost use Rattle.cf_model.specs.Passes.{unsettled};
ghost use Rattle.cf_model.specs.Settled.{is_settled};
ghost use Rattle.cf_model.specs.Skips.{in_use};
ghost use Rattle.cf_model.specs.State.{State, items_now};
ghost use Rattle.cf_model_convergence.specs.Alike.{IsLikeTarget};
ghost use Rattle.cf_model_convergence.specs.Matching.{IsAllHere, IsBelow, IsMatching};
ghost use Rattle.cf_model_convergence.specs.Resting.{AreAllTargets, IsAtRest};

/// Where all items match their targets one by one, in trees, the state is settled: each stands at the path of its target. With
/// each live item of the remote here once, it is settled as a whole.
#[tactic(auto, using(crate::proofs::SettledItems::matching_settled, crate::proofs::SettledItems::all_settled))]
pub fn what_matches_is_settled()
    ensures local { (s : State) → IsMatching s → is_settled false s ≡ true }
    ensures whole { (s : State) → IsMatching s → IsAllHere s → is_settled true s ≡ true }
{}

/// In a settled state each item below the root that is neither excluded nor in use is like its target: that is live, of its kind and at
/// its path, and the content of a file is the bytes of the latest version.
#[tactic(auto, using(crate::proofs::SettledBytes::settled_like))]
pub fn a_settled_item_is_like_its_target()
    ensures { (s : State) (i : Item) → is_settled false s ≡ true → IsBelow s i → is_excluded (items_now s) i.id ≡ false → in_use s i.id ≡ false → IsLikeTarget s i }
{}

/// A settled state leaves nothing that `sync` counts.
#[tactic(auto, using(crate::proofs::SettledItems::settled_none))]
pub fn a_settled_state_counts_nothing()
    ensures { (populated : Bool) (s : State) → is_settled populated s ≡ true → unsettled s ≡ 0 }
{}

/// Where nothing is left to do, and of each target what is known is right, the items match; so the state is settled. It is settled
/// as a whole where each live item of the remote is the target of one item.
#[tactic(auto, using(crate::proofs::RestingMatches::rest_matches, crate::proofs::RestingMatches::rest_settled, crate::proofs::TargetsHere::rest_whole))]
pub fn what_is_at_rest_is_settled()
    ensures matches { (s : State) → IsAtRest s → IsMatching s }
    ensures settled { (s : State) → IsAtRest s → is_settled false s ≡ true }
    ensures whole { (s : State) → IsAtRest s → AreAllTargets s → is_settled true s ≡ true }
{}
