//! Room for changes.

/// Whether changes that would be made in order find no room, each flag without regard to the others.
#[derive(Clone, Copy, Debug, PartialEq, Eq)]
pub struct Room {
    /// The epoch has too few places left, or there is no id for a new item.
    pub no_numbers: bool,
    /// After one of them the table would have too many items or bytes.
    pub no_table: bool,
    /// One of them finds too few clusters.
    pub no_blocks: bool,
}
