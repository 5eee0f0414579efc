//! What waits and asks look at in an item.
use cf_ranges::RangeSet;

/// What waits and asks look at in an item. The size and the base length are at most 2^24 bytes.
#[derive(Clone, Copy)]
pub struct View<'a> {
    /// The bytes that are here.
    pub here: &'a RangeSet,
    /// Those that the provider vouches for.
    pub valid: &'a RangeSet,
    /// Those that were written here.
    pub modified: &'a RangeSet,
    pub size: u64,
    /// The length of the version that the file began from.
    pub base: u64,
    /// Whether a byte counts as missing while nobody vouches for it.
    pub validate: bool,
    /// Whether each read needs the whole file.
    pub full: bool,
    /// Of a directory: whether its entries are known.
    pub populated: bool,
}
