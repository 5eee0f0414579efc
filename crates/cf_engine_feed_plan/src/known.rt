//! What is known of an entry besides the rows.

use cf_base::{ItemId, SeenPath};

/// What the engine knows here of an entry, besides the rows: it keeps the look-ups by the remote's ids, which no table has.
#[derive(Clone, Copy)]
pub struct Known<'a> {
    /// The first item by id whose target is the entry's item.
    pub item: Option<ItemId>,
    /// The first directory by id whose target is the entry's parent and whose entries have come.
    pub parent: Option<ItemId>,
    /// The path seen of the item.
    pub seen: Option<&'a SeenPath>,
    /// Whether a handle is open on the item, or a wait names it.
    pub in_use: bool,
}
