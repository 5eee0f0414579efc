//! Laws of comparisons.

ghost use Rattle.std.specs.Prelude.{◌≡◌, List};
ghost use Rattle.cf_pair_compare.specs.declared.path_rows.PathRow.{PathRow};
ghost use Rattle.cf_pair_events.specs.declared.comparisons.Comparison.{Comparison};
ghost use Rattle.cf_pair_trees.specs.Trees.{IsComparison};

/// Two lists have one comparison.
#[tactic(auto, using(crate::proofs::OneComparison::comparison_once))]
pub fn one_comparison()
    ensures { (as' bs : List PathRow) (c d : Comparison) → IsComparison as' bs c → IsComparison as' bs d → c ≡ d }
{}
