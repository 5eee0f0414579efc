//! How high the items of the remote are that the items' identities name.

ghost use Rattle.std.specs.Prelude.{ℕ, List};
ghost use Rattle.cf_table.specs.Targets.{IsBounded, IsBoundOfRoot};

use crate::plain_fields::read_8;
use cf_base::Identity;
use cf_codec::Reader;

// The number with which an identity begins, 0 for an empty one. Nothing of one that is too short to have it.
fn first_number(identity: &Identity) -> Option<u64>
    ensures { IsBounded result identity.now }
{
    let bytes = identity.as_slice();
    if bytes.is_empty() {
        return Some(0);
    }
    let mut r = Reader::new(bytes);
    match read_8(&mut r) {
        Ok(number) => Some(number),
        Err(_) => None,
    }
}

/// A bound that has room for one more identity. None is no bound.
pub(crate) fn raised(bound: Option<u64>, identity: &Identity) -> Option<u64>
    ensures before { (other : List ℕ) → IsBounded bound other → IsBounded result other }
    ensures root { IsBoundOfRoot bound → IsBoundOfRoot result }
    ensures covers { IsBounded result identity.now }
{
    let number = first_number(identity)?;
    let bound = bound?;
    Some(bound.max(number))
}
