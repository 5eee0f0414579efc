//! Two devices on one remote.

ghost use Rattle.std.specs.Prelude.{◌≡◌, None};
ghost use Rattle.cf_pair_events.specs.declared.answers.PairAnswer.TheVariants as answer;
ghost use Rattle.cf_pair_events.specs.declared.comparisons.Comparison.{Comparison};
ghost use Rattle.cf_pair_events.specs.declared.comparisons.Comparison.TheVariants as comparison;
ghost use Rattle.cf_pair_settled.specs.Settled.{AreSettled, IsOrderly, SaysEqual};
ghost use Rattle.cf_pair_traces.specs.Pairs.{Compares, Pair, no_comparison};

/// Where both devices are settled as a whole on the remote that they share, as each sees it now, a comparison of them says equal; and
/// each comparison that is made says that and nothing else. So it is where each state is orderly and no device is off or broken.
#[tactic(auto, using(crate::proofs::SettledRows::pair_says_equal, crate::proofs::SettledRows::pair_says_only))]
pub fn settled_pairs_compare_equal()
    ensures equal { (p : Pair) → IsOrderly p.first → IsOrderly p.second → AreSettled p → no_comparison p.first.power p.second.power ≡ None → Compares p.first p.second comparison.Equal }
    ensures only { (p : Pair) (c : Comparison) → IsOrderly p.first → IsOrderly p.second → Compares p.first p.second c → SaysEqual (answer.Comparison c) p }
{}
