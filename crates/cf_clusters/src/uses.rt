//! Who holds a cluster.

/// Who holds a cluster: the last commit, the state now, both or neither.
#[derive(Clone, Copy, Debug, PartialEq, Eq)]
pub enum Use {
    /// Nobody.
    Free,
    /// The last commit and the state now.
    Held,
    /// The state now alone.
    Staged,
    /// The last commit alone.
    Dropped,
}
