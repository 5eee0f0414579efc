//! What calls give.

use cf_base::{End, Identity, ItemId, Kind, Pin, Usn, WaitId};

/// How a call that may wait ended, or the wait that it left.
#[derive(Drop)]
pub enum Waited {
    /// The wait is live. Its end is told later, by a notice of this number.
    Pending(WaitId),
    Ended(End),
}

/// What is told of an item.
#[derive(Drop)]
pub struct Info {
    pub item: ItemId,
    pub kind: Kind,
    /// In bytes, 0 of a directory.
    pub size: u64,
    pub pin: Pin,
    pub in_sync: bool,
    /// The sequence number of the item's last change.
    pub number: Usn,
    /// What the provider knows it by, empty where the item is no placeholder.
    pub identity: Identity,
}
