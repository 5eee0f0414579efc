//! The formats of a volume.

/// How a volume is spelled on its disk.
#[derive(Clone, Copy, Debug, PartialEq, Eq)]
pub enum Format {
    /// Format 1, which is only read: it knows no clock, no access and no file that is kept full.
    First,
    /// Format 2, which is written.
    Second,
}
