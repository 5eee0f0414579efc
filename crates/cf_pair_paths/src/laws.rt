//! What holds of paths.

ghost use Rattle.std.specs.Prelude.{List, false};
ghost use Rattle.cf_model.specs.Soundness.{AllSound};
ghost use Rattle.cf_model.specs.State.{State, items_now};
ghost use Rattle.cf_pair_identities.specs.Named.{AreNamed};
ghost use Rattle.cf_pair_settled.specs.Settled.{IsOrderly};
ghost use Rattle.cf_pair_traces.specs.Pairs.{path_rows};
ghost use Rattle.cf_pair_trees.specs.Trees.{AreApart};
ghost use Rattle.cf_table.specs.Tables.{MeansAll};
ghost use Rattle.cf_table.specs.declared.rows.Row.{Row};
ghost use Rattle.cf_tree.specs.Trees.{AreOpen, HaveNames, IsTree};

/// No path stands twice, where the items form a tree.
#[tactic(auto, using(crate::proofs::ApartRows::apart))]
pub fn no_path_stands_twice()
    ensures { (rows : List Row) (s : State) → MeansAll rows (items_now s) → IsTree (items_now s) → AreOpen (items_now s) → HaveNames rows → AreApart (path_rows s) }
{}

/// Sound items that form a tree are orderly, where identities are spelled as the engine spells them and the entries of each directory have
/// come.
#[tactic(auto, using(crate::proofs::OrderlyTrees::orderly))]
pub fn a_tree_is_orderly()
    ensures { (rows : List Row) (s : State) → MeansAll rows (items_now s) → IsTree (items_now s) → AreOpen (items_now s) → HaveNames rows → AllSound (items_now s) → AreNamed false (items_now s) → IsOrderly s }
{}
