//! The limits of a volume and of what acts on it, each by one name.

/// A block of a file, in bytes. Files come here, and are emptied, by blocks.
pub const BLOCK_BYTES: u64 = 4096;

/// The most bytes of a file.
pub const MOST_FILE_BYTES: u64 = 16_777_216;

/// The most bytes of the image of a volume's items and records.
pub const MOST_IMAGE_BYTES: u64 = 1_306_624;

/// The most items of a volume, the root counted.
pub const MOST_ITEMS: u64 = 10_000;

/// The most names of a path.
pub const MOST_PATH_NAMES: u64 = 32;

/// The most bytes of a name.
pub const MOST_NAME_BYTES: usize = 255;

/// The most bytes of an identity that a call accepts.
pub const MOST_IDENTITY_BYTES: usize = 4096;

/// The most open handles of a volume.
pub const MOST_HANDLES: u64 = 1024;

/// The most live waits of a volume, those of dehydration not counted.
pub const MOST_WAITS: u64 = 1024;

/// The most live asks of a volume, those of dehydration not counted.
pub const MOST_ASKS: u64 = 4096;

/// The greatest number of an epoch: of its changes, handles, waits, asks, tokens and rounds.
pub const MOST_NUMBER: u32 = 4_294_967_295;
