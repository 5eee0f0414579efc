//! One pass over two lists.

ghost use Rattle.std.specs.Prelude.{option_copied};
ghost use Rattle.cf_pair_compare.specs.First.{IsEarlier, IsFirst, Rises, path_told};

use crate::path_rows::{PathRow, are_alike};

/// The row of the path that comes first, and at the same path the first row.
fn earlier<'a>(a: &'a PathRow, b: &'a PathRow) -> &'a PathRow
    ensures { IsEarlier a.now b.now result.now }
{
    if b.path
        .as_str()
        .as_bytes()
        .cmp(a.path.as_str().as_bytes())
        .is_lt()
    {
        b
    } else {
        a
    }
}

/// A row of the first path, by its bytes, that only one list has, that differs in kind or identity, or at which one has a
/// dirty file; none where the lists are equal. So it is where each list has a path at most once, in the order of their bytes. It
/// takes time by the sum of the lengths, and no memory.
pub fn first_unequal<'a>(first: &'a [PathRow], second: &'a [PathRow]) -> Option<&'a PathRow>
    ensures { Rises first.now → Rises second.now → IsFirst first.now second.now (path_told (option_copied result)) }
{
    let mut ours = first;
    let mut theirs = second;
    while let [a, after @ ..] = ours {
        let [b, later @ ..] = theirs else {
            return Some(a);
        };
        if !are_alike(a, b) {
            return Some(earlier(a, b));
        }
        ours = after;
        theirs = later;
    }
    match theirs {
        [] => None,
        [b, ..] => Some(b),
    }
}
