//! What the queue holds: uploads on their way, and removals to upload.

ghost use Rattle.std.specs.Prelude.{◌≡◌, IfOk};

use cf_base::{Blob, ItemId, OutOfMemory, Rid, Token, Usn, Version};

/// What an upload does to the remote.
#[derive(Clone, Copy, Debug, PartialEq, Eq)]
pub enum Action {
    Put,
    MakeDir,
    Move,
    Remove,
}

/// An upload that was committed and has no reply yet. A removal has item 0, its tombstone's number and parent 0; a put of a
/// file with a target has parent 0 and no name; a new file and a new directory have rid 0.
#[derive(Clone, Drop)]
pub struct QueueEntry {
    pub token: Token,
    pub item: ItemId,
    pub action: Action,
    pub number: Usn,
    pub rid: Rid,
    pub parent: Rid,
    pub name: Blob,
}

/// An item of the remote that an application removed here, under the number of that removal.
#[derive(Clone, Copy, Debug, PartialEq, Eq)]
pub struct Tombstone {
    pub number: Usn,
    pub rid: Rid,
    pub version: Version,
}

impl QueueEntry {
    /// An equal value on its own.
    pub fn copy(&self) -> Result<QueueEntry, OutOfMemory>
        ensures { IfOk result (λ e. e ≡ self.now) }
    {
        Ok(self.clone()?)
    }
}
