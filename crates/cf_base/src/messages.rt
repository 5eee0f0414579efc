//! Requests to the remote and its replies.

ghost use Rattle.std.specs.Prelude.{◌≡◌, IfOk};
ghost use Rattle.cf_base.specs.declared.messages.Reply.TheVariants as reply;
ghost use Rattle.cf_base.specs.declared.messages.Request.TheVariants as request;

use crate::bytes::Blob;
use crate::ids::{Key, Rid, Round, Token, Version};
use crate::memory::OutOfMemory;
use crate::sequence::Sequence;
use std::alloc::AllocError;

/// A request to the remote. Names are any bytes, so that a bad one can be refused.
#[derive(Drop)]
pub enum Request {
    /// All items that changed above the clock `after`.
    Feed {
        round: Round,
        after: u64,
    },
    /// The live children of a directory.
    List {
        key: Key,
        rid: Rid,
    },
    /// Bytes of a version.
    Fetch {
        key: Key,
        rid: Rid,
        version: Version,
        start: u32,
        len: u32,
    },
    /// A new file where `rid` is 0, else the next version of one whose latest is `expect`.
    Put {
        token: Token,
        rid: Rid,
        expect: Version,
        parent: Rid,
        name: Blob,
        bytes: Blob,
    },
    /// A new directory.
    MakeDir {
        token: Token,
        parent: Rid,
        name: Blob,
    },
    /// Another place.
    Move {
        token: Token,
        rid: Rid,
        parent: Rid,
        name: Blob,
    },
    /// The item is no longer live. `expect` is the latest version of a file.
    Remove {
        token: Token,
        rid: Rid,
        expect: Version,
    },
    /// Was the token's request done? If not, it never will be.
    Settle {
        token: Token,
    },
    /// Hold the last `count` versions of each file only.
    Keep {
        token: Token,
        count: u32,
    },
}

/// Why the remote refuses a request.
#[derive(Clone, Copy, Debug)]
pub enum Why {
    /// Another version is the latest.
    Conflict,
    NameTaken,
    NotThere,
    NotEmpty,
    /// A directory would come under itself.
    Loop,
    /// Too many bytes or items.
    Quota,
    BadName,
    TooDeep,
    TooLarge,
}

/// An item as the remote reports it. `changed` is the clock of its last change; `len` is in bytes.
#[derive(Debug, Drop)]
pub struct Entry {
    pub rid: Rid,
    pub parent: Rid,
    pub name: Blob,
    pub dir: bool,
    pub live: bool,
    pub version: Version,
    pub len: u32,
    pub changed: u64,
}

/// A reply of the remote. It names the key, round or token of its request.
#[derive(Debug, Drop)]
pub enum Reply {
    Feed {
        round: Round,
        clock: u64,
        entries: Sequence<Entry>,
    },
    Listing {
        key: Key,
        entries: Sequence<Entry>,
    },
    Bytes {
        key: Key,
        start: u32,
        bytes: Blob,
    },
    /// No such directory, version or span.
    Missing {
        key: Key,
    },
    /// Done, now or when the token came first.
    Done {
        token: Token,
        rid: Rid,
        version: Version,
    },
    /// Never done, and never will be.
    Void {
        token: Token,
    },
    /// `version` is the latest one at a Conflict, else 0.
    Refused {
        token: Token,
        why: Why,
        version: Version,
    },
    /// The version was made once and is no longer held.
    Gone {
        key: Key,
    },
}

// A variant that owns memory is copied by a function of its own, since each way out of a match is proved against all its arms.

fn copy_put(
    token: Token,
    rid: Rid,
    expect: Version,
    parent: Rid,
    name: &Blob,
    bytes: &Blob,
) -> Result<Request, OutOfMemory>
    ensures { IfOk result (λ c. c ≡ request.Put token rid expect parent name.now bytes.now) }
{
    let name = name.copy()?;
    let bytes = bytes.copy()?;
    Ok(Request::Put {
        token,
        rid,
        expect,
        parent,
        name,
        bytes,
    })
}

fn copy_make_dir(token: Token, parent: Rid, name: &Blob) -> Result<Request, OutOfMemory>
    ensures { IfOk result (λ c. c ≡ request.MakeDir token parent name.now) }
{
    let name = name.copy()?;
    Ok(Request::MakeDir {
        token,
        parent,
        name,
    })
}

fn copy_move(token: Token, rid: Rid, parent: Rid, name: &Blob) -> Result<Request, OutOfMemory>
    ensures { IfOk result (λ c. c ≡ request.Move token rid parent name.now) }
{
    let name = name.copy()?;
    Ok(Request::Move {
        token,
        rid,
        parent,
        name,
    })
}

impl Request {
    /// An equal value on its own.
    pub fn copy(&self) -> Result<Request, OutOfMemory>
        ensures { IfOk result (λ r. r ≡ self.now) }
    {
        match self {
            Request::Feed { round, after } => {
                Ok(Request::Feed {
                    round: *round,
                    after: *after,
                })
            }
            Request::List { key, rid } => {
                Ok(Request::List {
                    key: *key,
                    rid: *rid,
                })
            }
            Request::Fetch {
                key,
                rid,
                version,
                start,
                len,
            } => {
                Ok(Request::Fetch {
                    key: *key,
                    rid: *rid,
                    version: *version,
                    start: *start,
                    len: *len,
                })
            }
            Request::Put {
                token,
                rid,
                expect,
                parent,
                name,
                bytes,
            } => copy_put(*token, *rid, *expect, *parent, name, bytes),
            Request::MakeDir {
                token,
                parent,
                name,
            } => copy_make_dir(*token, *parent, name),
            Request::Move {
                token,
                rid,
                parent,
                name,
            } => copy_move(*token, *rid, *parent, name),
            Request::Remove { token, rid, expect } => {
                Ok(Request::Remove {
                    token: *token,
                    rid: *rid,
                    expect: *expect,
                })
            }
            Request::Settle { token } => { Ok(Request::Settle { token: *token }) }
            Request::Keep { token, count } => {
                Ok(Request::Keep {
                    token: *token,
                    count: *count,
                })
            }
        }
    }
}

// Written out, since a derived one asks for memory at each field.
impl Clone for Entry {
    ghost is_clone = { λ e f. f ≡ e };

    fn clone(&self) -> Result<Entry, AllocError> {
        let name = self.name.clone()?;
        Ok(Entry {
            rid: self.rid,
            parent: self.parent,
            name,
            dir: self.dir,
            live: self.live,
            version: self.version,
            len: self.len,
            changed: self.changed,
        })
    }
}

impl Entry {
    /// An equal value on its own.
    pub fn copy(&self) -> Result<Entry, OutOfMemory>
        ensures { IfOk result (λ e. e ≡ self.now) }
    {
        Ok(self.clone()?)
    }
}

fn copy_feed(round: Round, clock: u64, entries: &Sequence<Entry>) -> Result<Reply, OutOfMemory>
    ensures { IfOk result (λ c. c ≡ reply.Feed round clock entries.now) }
{
    let entries = entries.clone()?;
    Ok(Reply::Feed {
        round,
        clock,
        entries,
    })
}

fn copy_listing(key: Key, entries: &Sequence<Entry>) -> Result<Reply, OutOfMemory>
    ensures { IfOk result (λ c. c ≡ reply.Listing key entries.now) }
{
    let entries = entries.clone()?;
    Ok(Reply::Listing { key, entries })
}

fn copy_bytes(key: Key, start: u32, bytes: &Blob) -> Result<Reply, OutOfMemory>
    ensures { IfOk result (λ c. c ≡ reply.Bytes key start bytes.now) }
{
    let bytes = bytes.copy()?;
    Ok(Reply::Bytes { key, start, bytes })
}

impl Reply {
    /// An equal value on its own.
    pub fn copy(&self) -> Result<Reply, OutOfMemory>
        ensures { IfOk result (λ r. r ≡ self.now) }
    {
        match self {
            Reply::Feed {
                round,
                clock,
                entries,
            } => copy_feed(*round, *clock, entries),
            Reply::Listing { key, entries } => copy_listing(*key, entries),
            Reply::Bytes { key, start, bytes } => copy_bytes(*key, *start, bytes),
            Reply::Missing { key } => { Ok(Reply::Missing { key: *key }) }
            Reply::Done {
                token,
                rid,
                version,
            } => {
                Ok(Reply::Done {
                    token: *token,
                    rid: *rid,
                    version: *version,
                })
            }
            Reply::Void { token } => { Ok(Reply::Void { token: *token }) }
            Reply::Refused {
                token,
                why,
                version,
            } => {
                Ok(Reply::Refused {
                    token: *token,
                    why: *why,
                    version: *version,
                })
            }
            Reply::Gone { key } => { Ok(Reply::Gone { key: *key }) }
        }
    }
}
