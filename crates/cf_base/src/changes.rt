//! Changes of the volume.

ghost use Rattle.std.specs.Prelude.{◌≡◌, IfOk};
ghost use Rattle.cf_base.specs.declared.changes.Change.TheVariants as change;

use crate::bytes::Blob;
use crate::ids::{ItemId, Usn};
use crate::items::{Kind, Pin};
use crate::memory::OutOfMemory;
use crate::names::{Identity, Name};

/// A change of the volume. Each accepted one gets the next sequence number. Places and sizes are in bytes.
#[derive(Drop)]
pub enum Change {
    /// A new item with its parent's pin. A placeholder file has the size as its base length and no byte here; any
    /// other kind has size 0. A file and a plain directory have no identity.
    Make {
        item: ItemId,
        parent: ItemId,
        name: Name,
        kind: Kind,
        size: u64,
        identity: Identity,
    },
    /// The item is gone.
    Remove {
        item: ItemId,
    },
    /// Another place; another parent gives its pin.
    Move {
        item: ItemId,
        parent: ItemId,
        name: Name,
    },
    /// A local write, with zeros from the old end to its start.
    Write {
        item: ItemId,
        at: u64,
        bytes: Blob,
    },
    /// A local cut, or growth by zeros.
    Size {
        item: ItemId,
        size: u64,
    },
    /// Bytes from the provider, for the places below the size that are not here.
    Filled {
        item: ItemId,
        start: u64,
        bytes: Blob,
    },
    /// The provider vouches for the bytes that are here.
    Validated {
        item: ItemId,
        start: u64,
        len: u64,
    },
    /// The bytes of the span that are not modified leave.
    Emptied {
        item: ItemId,
        start: u64,
        len: u64,
    },
    /// The stored pin state, which is not `Inherit`.
    SetPin {
        item: ItemId,
        pin: Pin,
    },
    /// In sync at the item's own number: nothing is modified, and the base length is the size.
    Mark {
        item: ItemId,
        number: Usn,
    },
    /// Not in sync.
    Clear {
        item: ItemId,
    },
    /// A placeholder with this identity.
    Convert {
        item: ItemId,
        identity: Identity,
    },
    /// No placeholder any more: no identity, no base, and every byte is modified.
    Revert {
        item: ItemId,
    },
    /// Another identity and base length. Writes up to the number no longer count as modified; 0.0 leaves them.
    Rebase {
        item: ItemId,
        identity: Identity,
        len: u64,
        at: Usn,
    },
    /// Another version in place of the file: no byte here, nothing modified.
    Take {
        item: ItemId,
        identity: Identity,
        size: u64,
    },
    /// A new placeholder file with the bytes, the base and the writes of `from`.
    Copy {
        item: ItemId,
        from: ItemId,
        parent: ItemId,
        name: Name,
    },
    /// The directory's entries have come.
    Populated {
        item: ItemId,
    },
    /// Whether the file is kept full.
    Keep {
        item: ItemId,
        on: bool,
    },
}

// A variant that owns memory is copied by a function of its own, since each way out of a match is proved against all its arms.

fn copy_make(
    item: ItemId,
    parent: ItemId,
    name: &Name,
    kind: Kind,
    size: u64,
    identity: &Identity,
) -> Result<Change, OutOfMemory>
    ensures { IfOk result (λ c. c ≡ change.Make item parent name.now kind size identity.now) }
{
    let name = name.copy()?;
    let identity = identity.copy()?;
    Ok(Change::Make {
        item,
        parent,
        name,
        kind,
        size,
        identity,
    })
}

fn copy_move(item: ItemId, parent: ItemId, name: &Name) -> Result<Change, OutOfMemory>
    ensures { IfOk result (λ c. c ≡ change.Move item parent name.now) }
{
    let name = name.copy()?;
    Ok(Change::Move { item, parent, name })
}

fn copy_write(item: ItemId, at: u64, bytes: &Blob) -> Result<Change, OutOfMemory>
    ensures { IfOk result (λ c. c ≡ change.Write item at bytes.now) }
{
    let bytes = bytes.copy()?;
    Ok(Change::Write { item, at, bytes })
}

fn copy_filled(item: ItemId, start: u64, bytes: &Blob) -> Result<Change, OutOfMemory>
    ensures { IfOk result (λ c. c ≡ change.Filled item start bytes.now) }
{
    let bytes = bytes.copy()?;
    Ok(Change::Filled { item, start, bytes })
}

fn copy_convert(item: ItemId, identity: &Identity) -> Result<Change, OutOfMemory>
    ensures { IfOk result (λ c. c ≡ change.Convert item identity.now) }
{
    let identity = identity.copy()?;
    Ok(Change::Convert { item, identity })
}

fn copy_rebase(item: ItemId, identity: &Identity, len: u64, at: Usn) -> Result<Change, OutOfMemory>
    ensures { IfOk result (λ c. c ≡ change.Rebase item identity.now len at) }
{
    let identity = identity.copy()?;
    Ok(Change::Rebase {
        item,
        identity,
        len,
        at,
    })
}

fn copy_take(item: ItemId, identity: &Identity, size: u64) -> Result<Change, OutOfMemory>
    ensures { IfOk result (λ c. c ≡ change.Take item identity.now size) }
{
    let identity = identity.copy()?;
    Ok(Change::Take {
        item,
        identity,
        size,
    })
}

fn copy_copy(item: ItemId, from: ItemId, parent: ItemId, name: &Name) -> Result<Change, OutOfMemory>
    ensures { IfOk result (λ c. c ≡ change.Copy item from parent name.now) }
{
    let name = name.copy()?;
    Ok(Change::Copy {
        item,
        from,
        parent,
        name,
    })
}

impl Change {
    /// An equal value on its own.
    pub fn copy(&self) -> Result<Change, OutOfMemory>
        ensures { IfOk result (λ c. c ≡ self.now) }
    {
        match self {
            Change::Make {
                item,
                parent,
                name,
                kind,
                size,
                identity,
            } => copy_make(*item, *parent, name, *kind, *size, identity),
            Change::Remove { item } => { Ok(Change::Remove { item: *item }) }
            Change::Move { item, parent, name } => copy_move(*item, *parent, name),
            Change::Write { item, at, bytes } => copy_write(*item, *at, bytes),
            Change::Size { item, size } => {
                Ok(Change::Size {
                    item: *item,
                    size: *size,
                })
            }
            Change::Filled { item, start, bytes } => copy_filled(*item, *start, bytes),
            Change::Validated { item, start, len } => {
                Ok(Change::Validated {
                    item: *item,
                    start: *start,
                    len: *len,
                })
            }
            Change::Emptied { item, start, len } => {
                Ok(Change::Emptied {
                    item: *item,
                    start: *start,
                    len: *len,
                })
            }
            Change::SetPin { item, pin } => {
                Ok(Change::SetPin {
                    item: *item,
                    pin: *pin,
                })
            }
            Change::Mark { item, number } => {
                Ok(Change::Mark {
                    item: *item,
                    number: *number,
                })
            }
            Change::Clear { item } => { Ok(Change::Clear { item: *item }) }
            Change::Convert { item, identity } => copy_convert(*item, identity),
            Change::Revert { item } => { Ok(Change::Revert { item: *item }) }
            Change::Rebase {
                item,
                identity,
                len,
                at,
            } => copy_rebase(*item, identity, *len, *at),
            Change::Take {
                item,
                identity,
                size,
            } => copy_take(*item, identity, *size),
            Change::Copy {
                item,
                from,
                parent,
                name,
            } => copy_copy(*item, *from, *parent, name),
            Change::Populated { item } => { Ok(Change::Populated { item: *item }) }
            Change::Keep { item, on } => {
                Ok(Change::Keep {
                    item: *item,
                    on: *on,
                })
            }
        }
    }
}
