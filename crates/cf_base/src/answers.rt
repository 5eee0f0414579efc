//! What an event is answered.

use crate::bytes::Blob;
use crate::codes::Code;
use crate::ids::{Handle, ItemId, Rid, Usn, Version, WaitId};
use crate::items::{Kind, Pin};
use crate::messages::Reply;
use crate::names::Identity;
use crate::notices::Notes;
use crate::sequence::Sequence;
use crate::spans::Span;
use crate::waits::End;

/// An auxiliary record of the volume, by which the engine keeps its book.
#[derive(Drop)]
pub struct AuxRecord {
    pub key: Blob,
    pub value: Blob,
}

/// The number that an item had when it was last pushed.
#[derive(Clone, Copy)]
pub struct Anchor {
    pub item: ItemId,
    pub number: Usn,
}

/// The clock of a file's last access.
#[derive(Clone, Copy)]
pub struct Access {
    pub item: ItemId,
    pub clock: u64,
}

/// The durable book that a restart opened. Lists are by key or by item.
#[derive(Drop)]
pub struct OpenedBook {
    pub records: Sequence<AuxRecord>,
    pub anchors: Sequence<Anchor>,
    pub clock: u64,
    pub accesses: Sequence<Access>,
}

/// The result of an event.
#[derive(Drop)]
pub enum Shown {
    Done,
    Opened(Handle),
    /// How the call's own wait ended, or would have, had there been one.
    Ended(End),
    Pending(WaitId),
    /// How many changes there are, or how many items a sync left.
    Count(u64),
    Item(ItemId),
    Info {
        item: ItemId,
        kind: Kind,
        size: u64,
        pin: Pin,
        in_sync: bool,
        number: Usn,
        identity: Identity,
    },
    /// Runs in order.
    Ranges(Sequence<Span>),
    Blocks {
        used: u32,
        clusters: u32,
    },
    /// How many changes a restart kept, and the book.
    Resumed {
        count: u64,
        opened: OpenedBook,
    },
    /// An item of the remote and its latest version.
    Remote {
        rid: Rid,
        version: Version,
    },
    /// The item's number.
    Number(Usn),
    /// The clock of the last access.
    Used(u64),
    /// How many blocks were made free.
    Freed(u32),
    /// The bytes that an operation retrieved.
    Retrieved(Blob),
    Refused(Code),
}

/// What an event is answered: what happened, in order, and the result. `stray` is a reply of the remote that made a
/// peer event Stale.
#[derive(Drop)]
pub struct Answer {
    pub notes: Notes,
    pub shown: Shown,
    pub stray: Option<Reply>,
}
