//! Calls that wait, and what the provider is asked for them.

use crate::bytes::Blob;
use crate::codes::Code;
use crate::ids::{ItemId, Key};
use crate::items::ListedItem;
use crate::memory::OutOfMemory;
use crate::sequence::Sequence;
use crate::spans::Span;

/// What a wait is for.
#[derive(Clone, Copy)]
pub enum WaitKind {
    Read,
    Hydrate,
    /// The rest of a file under PROGRESSIVE hydration.
    Background,
    List,
    Dehydrate,
}

/// What a provider is asked for.
#[derive(Clone, Copy)]
pub enum AskKind {
    Fetch,
    Validate,
    List,
    Dehydrate,
}

/// A question to the provider. The span of a list ask is empty.
#[derive(Clone, Copy)]
pub struct Ask {
    pub key: Key,
    pub kind: AskKind,
    pub item: ItemId,
    pub span: Span,
}

/// Why a wait ends.
#[derive(Clone, Copy)]
pub enum Cause {
    /// Nothing that it needs is missing any more.
    Met,
    /// The file was dehydrated.
    Emptied,
    /// The provider refused, with this status.
    Failed(u32),
    TimedOut,
    Cancelled,
    /// The last handle of the file was closed.
    Closed,
    /// The provider is disconnected.
    Down,
    /// The file may no longer be dehydrated.
    Refused(Code),
}

/// How a call that may wait ends.
#[derive(Drop)]
pub enum End {
    /// The bytes that were read.
    Data(Blob),
    Hydrated,
    /// The entries of a directory, by name.
    Listed(Sequence<ListedItem>),
    /// The range was dehydrated.
    Emptied,
    /// The whole file is here.
    Full,
    Closed,
    Failed(u32),
    TimedOut,
    Cancelled,
    Down,
    Refused(Code),
}
