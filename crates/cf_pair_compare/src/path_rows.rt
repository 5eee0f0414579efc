//! What stands at a path.

ghost use Rattle.std.specs.Prelude.{MatchBool};
ghost use Rattle.cf_pair_compare.specs.First.{AreAlike};

use cf_base::{Identity, Kind, Text};

/// What a device has at a path: the path without escapes, the kind, the identity, and whether it is a dirty file.
#[derive(Drop)]
pub struct PathRow {
    pub path: Text,
    pub kind: Kind,
    pub identity: Identity,
    pub dirty: bool,
}

/// Whether two rows are of one path and alike, and no dirty file is there.
pub(crate) fn are_alike(a: &PathRow, b: &PathRow) -> bool
    ensures { MatchBool result (AreAlike a.now b.now) (AreAlike a.now b.now → ⊥) }
{
    if a.dirty {
        return false;
    }
    if b.dirty {
        return false;
    }
    if a.kind != b.kind {
        return false;
    }
    if a.path.as_str().as_bytes() != b.path.as_str().as_bytes() {
        return false;
    }
    a.identity.as_slice() == b.identity.as_slice()
}
