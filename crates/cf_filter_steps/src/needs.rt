//! What a call needs.

use cf_base::{Handle, ItemId, Span, WaitKind};

/// What a call needs of an item, and how it waits where that is missing. Spans are in bytes.
#[derive(Clone, Copy)]
pub struct Need {
    pub kind: WaitKind,
    pub item: ItemId,
    /// The handle whose close ends the wait.
    pub handle: Option<Handle>,
    /// Of a read what is read, of a dehydration the range; else empty.
    pub span: Span,
    /// Whether the rest of the file is wanted too.
    pub background: bool,
}
