//! Lists of at most one change.

ghost use Rattle.std.specs.Prelude.{◌≡◌, [], ◌∷◌, IfOk};

use cf_base::{Change, OutOfMemory, Sequence};
use std::alloc::Global;

/// The list of this change alone.
pub(crate) fn one(alloc: Global, change: Change) -> Result<Sequence<Change>, OutOfMemory>
    ensures { IfOk result (λ list. list ≡ change ∷ []) }
{
    let mut list = Sequence::new(alloc);
    match list.push(change) {
        Ok(()) => Ok(list),
        Err(memory) => {
            drop(list);
            Err(memory)
        }
    }
}
