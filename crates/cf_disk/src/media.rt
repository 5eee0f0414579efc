//! What a disk in memory holds.

ghost use Rattle.std.specs.Prelude.{◌≡◌, ◌≤◌, ◌+◌, length, replicate, IfOk};
ghost use Rattle.cf_disk.specs.Disk.{part};
ghost use Rattle.cf_disk.specs.Images.{Held, IsWhole, written, durable, left_by};

use crate::old_pages::OldPages;
use crate::patches::{copy_filled, fill_up, put_vec, read_filled};
use crate::power_cuts::cut_vec;
use cf_base::{Choice, OutOfMemory};
use std::alloc::Global;
use std::marker::Model;

/// The bytes of a disk, and what the pages that were written since the last sync were then. The bytes lie in memory up to the
/// last place that was ever written; all behind it is zero and durable. Room for the whole is taken at the start, so that a
/// write takes none, and what was never touched costs nothing. A sync and a power cut go over the pages alone that were
/// written, however far apart they lie.
#[derive(Drop)]
pub(crate) struct Medium {
    bytes: Vec<u8>,
    pages: OldPages,
    size: usize,
}

impl Model for Medium {
    ghost use Rattle.std.specs.Prelude.{vec_capacity};
    ghost use Rattle.cf_disk.specs.Images.{Held};
    ghost use Rattle.cf_disk.specs.Keeping.{held_by, IsMedium};

    ghost Value = { Held };

    ghost view = { λ m. held_by m.size m.bytes.items m.pages };

    ghost invariant = { λ m. IsMedium m.size (vec_capacity m.bytes) m.bytes.items m.pages };
}

impl Medium {
    /// Zeros, all of them durable.
    pub(crate) fn new(alloc: Global, size: usize) -> Result<Medium, OutOfMemory>
        ensures { IfOk result (λ m. m ≡ durable (replicate size 0)) }
    {
        let pages = OldPages::new(alloc, size)?;
        match Vec::with_capacity(alloc, size) {
            Ok(bytes) => Ok(Medium { bytes, pages, size }),
            Err(_) => {
                drop(pages);
                Err(OutOfMemory)
            }
        }
    }

    pub(crate) fn len(&self) -> usize
        ensures size { result ≡ length self.now.bytes }
        ensures whole { IsWhole self.now }
    {
        self.size
    }

    pub(crate) fn read(&self, at: usize, out: &mut [u8])
        requires { at + length out.old ≤ length self.now.bytes }
        ensures { out.new ≡ part at (length out.old) self.now.bytes }
    {
        read_filled(&self.bytes, self.size, at, out);
    }

    /// Copies the whole.
    pub(crate) fn copy_to(&self, out: &mut Vec<u8>)
        requires { length out.old.items ≡ length self.now.bytes }
        ensures { out.new.items ≡ self.now.bytes }
    {
        copy_filled(&self.bytes, self.size, out);
    }

    pub(crate) fn write(&mut self, at: usize, bytes: &[u8])
        requires { at + length bytes.now ≤ length self.old.bytes }
        ensures is { self.new ≡ written at bytes.now self.old }
        ensures whole { IsWhole self.old × IsWhole self.new }
    {
        let _ = &self.size;
        let end = at + bytes.len();
        // Before the front grows, as pages behind it need no copy.
        self.pages.keep(&self.bytes, at, end);
        fill_up(&mut self.bytes, end, 0);
        self.pages.mark(at, end);
        put_vec(&mut self.bytes, at, bytes);
    }

    pub(crate) fn sync(&mut self)
        ensures is { self.new ≡ durable self.old.bytes }
        ensures whole { IsWhole self.old }
    {
        self.pages.clear();
    }

    pub(crate) fn power(&mut self, choice: Choice)
        ensures is { self.new ≡ durable (left_by choice self.old) }
        ensures whole { IsWhole self.old }
    {
        cut_vec(&mut self.bytes, &self.pages, choice);
        self.pages.clear();
    }
}
