//! What a verdict is told, and what it is.

/// What a verdict looks at. Sizes and places are in bytes; `start + len` may pass 2^64.
#[derive(Clone, Copy)]
pub struct Facts {
    /// The size of the file.
    pub size: u64,
    /// The range that is to be emptied.
    pub start: u64,
    pub len: u64,
    pub placeholder: bool,
    /// The policy keeps each file full, or this file is kept full.
    pub always_full: bool,
    pub pinned: bool,
    pub in_sync: bool,
    /// A handle is open on the file, or a wait on it is live.
    pub in_use: bool,
}

/// Whether a file may be dehydrated, or the first cause why not.
#[derive(Clone, Copy)]
pub enum Verdict {
    /// The range does not begin at a block inside the file, or does not reach its end.
    BadRange,
    NotPlaceholder,
    /// The file is kept full.
    PolicyDenied,
    Pinned,
    NotInSync,
    InUse,
    Allowed,
}
