//! Orders of items.

ghost use Rattle.std.specs.Prelude.{◌≡◌, Bool};

use crate::probes::Probe;

/// An order of items of any type: which of them come before an item. The items need not know it.
pub trait Order<T> {
    ghost is_behind: { Self → T → T → Bool };

    /// Whether the other item comes before the item.
    fn is_behind(&self, item: &T, other: &T) -> bool
        ensures { result ≡ is_behind self.now item.now other.now };
}

/// The order that items have which are places themselves.
pub(crate) struct OwnOrder;

impl<T: Probe<T>> Order<T> for OwnOrder {
    ghost is_behind = { λ s item other. T.is_behind item other };

    fn is_behind(&self, item: &T, other: &T) -> bool {
        item.is_behind(other)
    }
}

/// The place of an item in an order.
#[derive(Drop)]
pub(crate) struct PlaceOf<'a, T, O> {
    pub(crate) order: &'a O,
    pub(crate) item: &'a T,
}

impl<T, O: Order<T>> Probe<T> for PlaceOf<'_, T, O> {
    ghost is_behind = { λ s other. O.is_behind s.order.now s.item.now other };

    fn is_behind(&self, item: &T) -> bool {
        self.order.is_behind(self.item, item)
    }
}
