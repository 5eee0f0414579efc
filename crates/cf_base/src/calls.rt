//! Calls of an application.

use crate::bytes::{Blob, Text};
use crate::ids::{Handle, WaitId};
use crate::items::{Pin, Reach};
use crate::policies::{Class, Policy};

/// A call of an application. Offsets, lengths and sizes are in bytes.
#[derive(Drop)]
pub enum Call {
    Open {
        path: Text,
    },
    Close {
        handle: Handle,
    },
    Cancel {
        wait: WaitId,
    },
    /// Time passes, at least one tick.
    Tick {
        ticks: u32,
    },
    Read {
        handle: Handle,
        offset: u32,
        len: u32,
    },
    /// A read by path.
    Get {
        path: Text,
        offset: u32,
        len: u32,
    },
    Write {
        handle: Handle,
        offset: u32,
        bytes: Blob,
    },
    Size {
        handle: Handle,
        size: u32,
    },
    Flush,
    Create {
        path: Text,
    },
    Mkdir {
        path: Text,
    },
    Delete {
        path: Text,
    },
    Rename {
        from: Text,
        to: Text,
    },
    List {
        path: Text,
    },
    Pin {
        path: Text,
        pin: Pin,
        reach: Reach,
    },
    Hydrate {
        path: Text,
    },
    /// An offset and a length, or the whole file.
    Dehydrate {
        path: Text,
        range: Option<(u32, u32)>,
    },
    Info {
        path: Text,
    },
    Ranges {
        path: Text,
        class: Class,
    },
    /// How many blocks are used.
    Df,
    Policy {
        policy: Policy,
    },
    /// Whether the file is kept full.
    Keep {
        path: Text,
        on: bool,
    },
    /// The clock of the last access.
    Used {
        path: Text,
    },
    /// Whether the provider is connected.
    Connect {
        on: bool,
    },
}
