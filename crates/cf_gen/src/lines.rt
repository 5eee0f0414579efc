//! The lines of made scripts.

use cf_base::Key;

/// A line of a made script. Files are 0 to 7.
#[derive(Clone, Copy)]
pub enum Line {
    /// Another device puts a file of `count` times the byte.
    Put {
        file: u32,
        byte: u8,
        count: u32,
    },
    Sync,
    Flush,
    Open {
        file: u32,
    },
    Close {
        handle: Key,
    },
    Read {
        handle: Key,
        offset: u32,
        len: u32,
    },
    /// `count` times the byte are written.
    Write {
        handle: Key,
        offset: u32,
        byte: u8,
        count: u32,
    },
    Size {
        handle: Key,
        size: u32,
    },
    /// The power is cut, and what stays is drawn from the seed.
    Crash {
        seed: u32,
    },
    Restart,
}
