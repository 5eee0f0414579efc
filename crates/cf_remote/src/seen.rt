//! What a feed has seen of an item.

use cf_base::Rid;

/// An item that changed: its depth where it is live.
#[derive(Clone, Copy)]
pub(crate) struct Seen {
    pub(crate) rid: Rid,
    pub(crate) level: Option<usize>,
}
