//! Which bytes of pages were written since the last sync.

ghost use Rattle.std.specs.Prelude.{◌≡◌, ◌≤◌, ◌<◌, ◌+◌, ◌-◌, ◌*◌, ◌^◌, ◌++◌, ◌∷◌, [], false, true, length, get_or, set, replicate, IfOk};
ghost use Rattle.cf_disk.specs.Splice.{over};

use crate::old_pages::PAGE;
use crate::patches::{fill, fill_up, mark_vec, put_at_vec};
use cf_base::OutOfMemory;
use std::alloc::Global;
use std::marker::Model;

/// What of a page was written.
#[derive(Clone, Copy)]
pub(crate) enum PageMark {
    /// Nothing.
    Clean,
    /// All of it, by one write. Most pages are written so.
    Whole,
    /// The bytes whose flags are set. The flags begin at this place.
    Part(usize),
}

/// For each of some pages which of its bytes were written. The flags lie in a pool, where only those pages have any that were
/// written in part. Room for all pages is taken at the start.
#[derive(Drop)]
pub(crate) struct WrittenBytes {
    marks: Vec<PageMark>,
    flags: Vec<bool>,
    most: usize,
}

impl Model for WrittenBytes {
    ghost use Rattle.std.specs.Prelude.{vec_capacity};
    ghost use Rattle.cf_disk.specs.Writing.{Written, written_in, IsWriting};

    ghost Value = { Written };

    ghost view = { λ w. written_in w.most w.marks.items w.flags.items };

    ghost invariant = { λ w. IsWriting w.most (vec_capacity w.marks) (vec_capacity w.flags) w.marks.items w.flags.items };
}

impl WrittenBytes {
    /// No page, with room for so many.
    pub(crate) fn new(alloc: Global, most: usize) -> Result<WrittenBytes, OutOfMemory>
        requires { most * 4096 + 4096 < 2 ^ 64 }
        ensures { IfOk result (λ w. w ≡ record { most = most; pages = [] }) }
    {
        let marks = Vec::with_capacity(alloc, most)?;
        match Vec::with_capacity(alloc, most * PAGE) {
            Ok(flags) => Ok(WrittenBytes { marks, flags, most }),
            Err(_) => {
                drop(marks);
                Err(OutOfMemory)
            }
        }
    }

    /// One page more, of which nothing was written.
    pub(crate) fn add_clean(&mut self)
        requires { length self.old.pages < self.old.most }
        ensures { self.new ≡ record { most = self.old.most; pages = self.old.pages ++ replicate 4096 false ∷ [] } }
    {
        let _ = &self.most;
        self.marks.push_reserved(PageMark::Clean);
    }

    /// The bytes of a page from one up to another were written.
    pub(crate) fn note(&mut self, page: usize, from: usize, to: usize)
        requires page { page < length self.old.pages }
        requires order { from ≤ to }
        requires inside { to ≤ 4096 }
        ensures { self.new ≡ record { most = self.old.most; pages = set self.old.pages page (over from (replicate (to - from) true) (get_or self.old.pages page [])) } }
    {
        let _ = &self.most;
        if to - from == PAGE {
            put_at_vec(&mut self.marks, page, PageMark::Whole);
            return;
        }
        match self.marks[page] {
            PageMark::Whole => {}
            PageMark::Part(start) => mark_vec(&mut self.flags, start + from, to - from, true),
            PageMark::Clean => {
                let start = self.flags.len();
                fill_up(&mut self.flags, start + PAGE, false);
                put_at_vec(&mut self.marks, page, PageMark::Part(start));
                mark_vec(&mut self.flags, start + from, to - from, true);
            }
        }
    }

    /// The flags of a page.
    pub(crate) fn copy_flags(&self, page: usize, out: &mut [bool])
        requires page { page < length self.now.pages }
        requires size { length out.old ≡ 4096 }
        ensures { out.new ≡ get_or self.now.pages page [] }
    {
        match self.marks[page] {
            PageMark::Clean => fill(out, false),
            PageMark::Whole => fill(out, true),
            PageMark::Part(start) => out.copy_from_slice(&self.flags[start..start + PAGE]),
        }
    }

    /// Forgets all pages.
    pub(crate) fn forget(&mut self)
        ensures { self.new ≡ record { most = self.old.most; pages = [] } }
    {
        let _ = &self.most;
        self.marks.clear();
        self.flags.clear();
    }
}
