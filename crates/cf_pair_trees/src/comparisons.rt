//! Comparisons.

ghost use Rattle.std.specs.Prelude.{IfOk};
ghost use Rattle.cf_pair_compare.specs.First.{Rises};
ghost use Rattle.cf_pair_trees.specs.Trees.{AreApart, IsComparison};

use crate::orders::sort;
use cf_base::OutOfMemory;
use cf_pair_compare::{PathRow, first_unequal};
use cf_pair_events::Comparison;

/// By one pass over rows in order of path.
fn comparison(first: &[PathRow], second: &[PathRow]) -> Result<Comparison, OutOfMemory>
    ensures { Rises first.now → Rises second.now → IfOk result (IsComparison first.now second.now) }
{
    match first_unequal(first, second) {
        None => Ok(Comparison::Equal),
        Some(row) => {
            let path = row.path.copy()?;
            Ok(Comparison::Unequal { path })
        }
    }
}

/// Equal where both lists have the same paths, each with the same kind and identity, and no dirty file; else the first path, by its
/// bytes, at which they do not agree. So it is where each list has a path at most once, in any order. It takes n log n steps for n
/// rows.
pub fn compare(mut first: Vec<PathRow>, mut second: Vec<PathRow>) -> Result<Comparison, OutOfMemory>
    ensures { AreApart first.items → AreApart second.items → IfOk result (IsComparison first.items second.items) }
{
    sort(&mut first);
    sort(&mut second);
    let compared = comparison(first.as_slice(), second.as_slice());
    drop(first);
    drop(second);
    compared
}
