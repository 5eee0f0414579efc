//! The events of a script.

use crate::bytes::{Blob, Text};
use crate::calls::Call;
use crate::ids::Usn;
use crate::names::Identity;
use crate::operations::Operation;
use crate::policies::Choice;

/// One event of a script.
#[derive(Drop)]
pub enum Event {
    Call(Call),
    Device(DeviceEvent),
    Peer(PeerEvent),
    Engine(EngineEvent),
    Provider(ProviderEvent),
}

/// What the device does, in both commands and also while the power is off.
#[derive(Clone, Copy)]
pub enum DeviceEvent {
    /// After `calls` more calls the device fails.
    Stop { calls: u32 },
    /// The power is cut.
    Crash { choice: Choice },
    Restart,
}

/// What another device does to the remote, in `replay` and also while the power is off. Paths begin at the remote's
/// root.
#[derive(Drop)]
pub enum PeerEvent {
    /// A new file, or the next version of one.
    Put { path: Text, bytes: Blob },
    MakeDir { path: Text },
    Move { from: Text, to: Text },
    Remove { path: Text },
    Stat { path: Text },
    /// The remote holds the last `count` versions of each file only.
    Keep { count: u32 },
}

/// What the engine and its messages do, in `replay`.
#[derive(Clone, Copy)]
pub enum EngineEvent {
    /// Whether requests arrive and replies are delivered at once. Also while the power is off.
    Link { inline: bool },
    /// A request is handed to the remote. Also while the power is off.
    Arrive { message: u32 },
    /// A reply is handed to the engine.
    Deliver { message: u32 },
    /// One pass of the engine.
    Work,
    /// Passes of the engine until nothing is left to do.
    Sync,
    /// Files are dehydrated until at most that many blocks are used.
    Space { blocks: u32 },
}

/// What a provider does of its own accord, in `filter`. Sizes are in bytes.
#[derive(Drop)]
pub enum ProviderEvent {
    Place {
        path: Text,
        size: u32,
        identity: Identity,
        in_sync: bool,
    },
    PlaceDir {
        path: Text,
        identity: Identity,
        in_sync: bool,
    },
    Convert {
        path: Text,
        identity: Identity,
    },
    Revert {
        path: Text,
    },
    Update {
        path: Text,
        identity: Identity,
        size: Option<u32>,
    },
    Mark {
        path: Text,
        number: Usn,
    },
    Unmark {
        path: Text,
    },
    /// An operation now.
    Do {
        operation: Operation,
    },
    /// An operation inside the next callback. Where `own` is set the key of the operation is 0.0 and stands for the
    /// key of that callback.
    Plan {
        own: bool,
        operation: Operation,
    },
}
