//! What a provider can do to answer an ask (CfExecute).

ghost use Rattle.std.specs.Prelude.{◌≡◌, IfOk};
ghost use Rattle.cf_base.specs.declared.operations.Operation.TheVariants as operation;

use crate::bytes::Blob;
use crate::ids::Key;
use crate::memory::OutOfMemory;
use crate::names::Identity;
use crate::sequence::Sequence;
use crate::spans::Span;
use std::alloc::AllocError;

/// One entry that a provider gives for a directory. The size of a directory is not read. The name is any bytes, so
/// that a bad one can be refused.
#[derive(Drop)]
pub struct NewItem {
    pub name: Blob,
    pub dir: bool,
    pub size: u64,
    pub identity: Identity,
    /// Whether it is in sync at once.
    pub mark: bool,
}

/// An operation of a provider. `key` names the ask that it answers; places and lengths are in bytes.
#[derive(Drop)]
pub enum Operation {
    /// Bytes of a fetch ask.
    Transfer {
        key: Key,
        at: u64,
        bytes: Blob,
    },
    /// No bytes for these blocks of a fetch ask.
    Refuse {
        key: Key,
        span: Span,
        status: u32,
    },
    /// The bytes here of a validate ask.
    Retrieve {
        key: Key,
        span: Span,
    },
    /// The bytes of these blocks of a validate ask are good, or not.
    Ack {
        key: Key,
        span: Span,
        good: bool,
    },
    /// Hydration of the ask's file starts again.
    Restart {
        key: Key,
    },
    /// The entries of a list ask; where they are not good there are none.
    Entries {
        key: Key,
        list: Sequence<NewItem>,
        good: bool,
    },
    /// Consent to a dehydrate ask, or none.
    AckDehydrate {
        key: Key,
        good: bool,
    },
}

// A variant that owns memory is copied by a function of its own, since each way out of a match is proved against all its arms.

fn copy_transfer(key: Key, at: u64, bytes: &Blob) -> Result<Operation, OutOfMemory>
    ensures { IfOk result (λ c. c ≡ operation.Transfer key at bytes.now) }
{
    let bytes = bytes.copy()?;
    Ok(Operation::Transfer { key, at, bytes })
}

fn copy_entries(key: Key, list: &Sequence<NewItem>, good: bool) -> Result<Operation, OutOfMemory>
    ensures { IfOk result (λ c. c ≡ operation.Entries key list.now good) }
{
    let list = list.clone()?;
    Ok(Operation::Entries { key, list, good })
}

impl Operation {
    /// An equal value on its own.
    pub fn copy(&self) -> Result<Operation, OutOfMemory>
        ensures { IfOk result (λ o. o ≡ self.now) }
    {
        match self {
            Operation::Transfer { key, at, bytes } => copy_transfer(*key, *at, bytes),
            Operation::Refuse { key, span, status } => {
                Ok(Operation::Refuse {
                    key: *key,
                    span: *span,
                    status: *status,
                })
            }
            Operation::Retrieve { key, span } => {
                Ok(Operation::Retrieve {
                    key: *key,
                    span: *span,
                })
            }
            Operation::Ack { key, span, good } => {
                Ok(Operation::Ack {
                    key: *key,
                    span: *span,
                    good: *good,
                })
            }
            Operation::Restart { key } => { Ok(Operation::Restart { key: *key }) }
            Operation::Entries { key, list, good } => copy_entries(*key, list, *good),
            Operation::AckDehydrate { key, good } => {
                Ok(Operation::AckDehydrate {
                    key: *key,
                    good: *good,
                })
            }
        }
    }
}

// Written out, since a derived one asks for memory at each field.
impl Clone for NewItem {
    ghost is_clone = { λ n m. m ≡ n };

    fn clone(&self) -> Result<NewItem, AllocError> {
        let name = self.name.clone()?;
        let identity = self.identity.clone()?;
        Ok(NewItem {
            name,
            dir: self.dir,
            size: self.size,
            identity,
            mark: self.mark,
        })
    }
}
