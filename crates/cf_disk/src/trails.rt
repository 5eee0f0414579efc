//! The calls of a disk that keeps them.

ghost use Rattle.std.specs.Prelude.{◌≡◌, ◌↔◌, ◌++◌, ◌∷◌, [], length, IfOk, IsTrue};
ghost use Rattle.cf_disk.specs.Trails.{Trail, HasRoom};

use cf_base::OutOfMemory;
use std::alloc::Global;
use std::marker::Model;

#[derive(Clone, Copy)]
pub(crate) enum Kind {
    Read,
    Write,
    Sync,
}

/// One call, without its bytes. A read that failed has none.
#[derive(Clone, Copy)]
pub(crate) struct Head {
    pub(crate) kind: Kind,
    pub(crate) at: u64,
    pub(crate) len: usize,
    pub(crate) done: bool,
}

/// The calls in order, in room that is taken when it is made.
#[derive(Drop)]
pub(crate) struct Calls {
    heads: Vec<Head>,
    bytes: Vec<u8>,
    most: usize,
    most_bytes: usize,
}

impl Model for Calls {
    ghost use Rattle.std.specs.Prelude.{vec_capacity};
    ghost use Rattle.cf_disk.specs.Cuts.{cut_up};
    ghost use Rattle.cf_disk.specs.Trails.{Trail};
    ghost use Rattle.cf_disk.specs.TrailParts.{len_of, AreParts};

    ghost Value = { Trail };

    ghost view = { λ c. record { calls = cut_up len_of c.heads.items c.bytes.items; most = c.most; most_bytes = c.most_bytes } };

    ghost invariant = { λ c. AreParts c.heads.items c.bytes.items c.most c.most_bytes (vec_capacity c.heads) (vec_capacity c.bytes) };
}

impl Calls {
    /// No call yet.
    pub(crate) fn new(alloc: Global, calls: usize, bytes: usize) -> Result<Calls, OutOfMemory>
        ensures { IfOk result (λ c. c ≡ record { calls = []; most = calls; most_bytes = bytes }) }
    {
        Ok(Calls {
            heads: Vec::with_capacity(alloc, calls)?,
            bytes: Vec::with_capacity(alloc, bytes)?,
            most: calls,
            most_bytes: bytes,
        })
    }

    pub(crate) fn len(&self) -> usize
        ensures { result ≡ length self.now.calls }
    {
        self.heads.len()
    }

    /// Whether one more call with so many bytes has room.
    pub(crate) fn has_room(&self, len: usize) -> bool
        ensures { IsTrue result ↔ HasRoom len self.now }
    {
        self.heads.len() < self.most && len <= self.most_bytes - self.bytes.len()
    }

    /// One more call.
    pub(crate) fn push(&mut self, head: Head, bytes: &[u8])
        requires room { HasRoom (length bytes.now) self.old }
        requires size { head.len ≡ length bytes.now }
        ensures { self.new ≡ record { calls = self.old.calls ++ (head, bytes.now) ∷ []; most = self.old.most; most_bytes = self.old.most_bytes } }
    {
        self.heads.push_reserved(head);
        self.bytes.extend_from_slice(bytes).unwrap();
    }

    /// Forgets the calls.
    pub(crate) fn clear(&mut self)
        ensures { self.new ≡ record { calls = []; most = self.old.most; most_bytes = self.old.most_bytes } }
    {
        self.heads.clear();
        self.bytes.clear();
    }
}
