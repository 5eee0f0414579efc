//! Rows in the order of their paths.

ghost use Rattle.cf_pair_compare.specs.First.{Rises};
ghost use Rattle.cf_pair_trees.specs.Trees.{AreApart, SameRows};

use cf_pair_compare::PathRow;

/// Puts the rows in the order of the bytes of their paths, where each path stands at most once. It takes n log n steps for n rows,
/// and no memory.
pub(crate) fn sort(rows: &mut Vec<PathRow>)
    ensures rises { AreApart rows.old.items → Rises rows.new.items }
    ensures same { AreApart rows.old.items → SameRows rows.old.items rows.new.items }
{
    rows.sort_unstable_by(|a, b| a.path.as_str().as_bytes().cmp(b.path.as_str().as_bytes()));
}
