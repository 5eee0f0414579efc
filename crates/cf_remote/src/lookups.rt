//! Items by rid, and places in the index by parent and name.

ghost use Rattle.std.specs.Prelude.{◌≡◌, ◌≤◌, IfSome, length, option_copied};
ghost use Rattle.cf_model.specs.Growth.{CountsFrom};
ghost use Rattle.cf_model.specs.Store.{stored_at};
ghost use Rattle.cf_remote.specs.Order.{against, is_before};

use crate::stored::StoredItem;
use cf_base::Rid;
use cf_collections::{Order, Probe};
use std::cmp::Ordering;
use std::marker::Model;

/// The item with the rid. Rids are given in order from 1, so it stands at its place.
#[tactic(auto, using(crate::proofs::Counted::get_is, crate::proofs::Counted::none_is))]
pub(crate) fn find(items: &[StoredItem], rid: Rid) -> Option<&StoredItem>
    requires { CountsFrom 1 items.now }
    ensures there { option_copied result ≡ stored_at items.now rid }
    ensures small { IfSome result (λ _. rid.0 ≤ length items.now) }
{
    let count = rid.0 as usize;
    if count == 0 || count > items.len() {
        return None;
    }
    Some(&items[count - 1])
}

/// How an item compares to a place: by parent, then by name.
pub(crate) fn compared(item: &StoredItem, parent: Rid, name: &[u8]) -> Ordering
    ensures { result ≡ against parent name.now item.now }
{
    item.parent().0.cmp(&parent.0).then(item.name().cmp(name))
}

/// A place in the index: that of a parent and a name. The index may hold a rid that no item has, where a place is kept for one.
#[derive(Drop)]
pub(crate) struct Place<'a> {
    items: &'a [StoredItem],
    parent: Rid,
    name: &'a [u8],
    // Whether a place that is kept comes before this one.
    kept_before: bool,
}

impl<'a> Model for Place<'a> {
    ghost use Rattle.cf_model.specs.Growth.{CountsFrom};
    ghost use Rattle.cf_remote.specs.Order.{PlaceIn};

    ghost Value = { PlaceIn };

    ghost view = { λ p. record { items = p.items.now; parent = p.parent; name = p.name.now; kept_before = p.kept_before } };

    ghost invariant = { λ p. CountsFrom 1 p.items.now };
}

impl<'a> Place<'a> {
    pub(crate) fn of(
        items: &'a [StoredItem],
        parent: Rid,
        name: &'a [u8],
        kept_before: bool,
    ) -> Place<'a>
        requires { CountsFrom 1 items.now }
        ensures { result ≡ record { items = items.now; parent = parent; name = name.now; kept_before = kept_before } }
    {
        Place {
            items,
            parent,
            name,
            kept_before,
        }
    }

    fn comes_after(&self, rid: Rid) -> bool
        ensures { result ≡ is_before self.now rid }
    {
        match find(self.items, rid) {
            None => self.kept_before,
            Some(item) => compared(item, self.parent, self.name).is_lt(),
        }
    }
}

impl Probe<Rid> for Place<'_> {
    ghost is_behind = { λ place rid. is_before place rid };

    fn is_behind(&self, rid: &Rid) -> bool {
        self.comes_after(*rid)
    }
}

impl Order<Rid> for Place<'_> {
    ghost is_behind = { λ place rid other. is_before place other };

    fn is_behind(&self, _rid: &Rid, other: &Rid) -> bool {
        self.comes_after(*other)
    }
}
