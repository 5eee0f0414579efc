//! Changes of a row by what happens to the bytes of its file.

ghost use Rattle.std.specs.Prelude.{◌≡◌, ◌+◌, ◌^◌, ◌≤◌, ◌<◌, ◌&&◌, ◌||◌, ℕ, List, length, IfOk, OnOk, OnErr};
ghost use Rattle.cf_ranges.specs.Positions.{Adds, contains, in_span};
ghost use Rattle.cf_base.specs.declared.limits.TheConstants.{MOST_FILE_BYTES};
ghost use Rattle.cf_model.specs.Effects.{got, left_out, sized, validated_in, wrote};
ghost use Rattle.cf_model.specs.Items.{Item};
ghost use Rattle.cf_table.specs.Means.{IsLater, KeepsRest, KeepsTexts, Means, StaysBefore};

use crate::rows::Row;
use cf_base::{OutOfMemory, Span, Usn};
use cf_ranges::RangeSet;
use std::alloc::Global;

// What is here and what is modified of a file in which a span is written.
#[derive(Drop)]
struct Written {
    here: RangeSet,
    modified: RangeSet,
    modified_since: RangeSet,
}

impl Row {
    fn written(&self, span: Span) -> Result<Written, OutOfMemory>
        requires { span.start + span.len ≤ 2 ^ 40 }
        ensures here { IfOk result (λ w. Adds self.now.here w.here span) }
        ensures modified { IfOk result (λ w. Adds self.now.modified w.modified span) }
        ensures modified_since { IfOk result (λ w. Adds self.now.modified_since w.modified_since span) }
    {
        let here = self.here.with(span)?;
        let modified = self.modified.with(span)?;
        let modified_since = self.modified_since.with(span)?;
        Ok(Written {
            here,
            modified,
            modified_since,
        })
    }

    /// A local write of `len` bytes at a place, ending by 16,777,216, with zeros from the old end to its start. Without
    /// memory the row is as before.
    pub fn write(&mut self, at: u64, len: u64, number: Usn) -> Result<(), OutOfMemory>
        requires fits { at + len ≤ MOST_FILE_BYTES }
        requires later { IsLater number self.old }
        ensures ok { OnOk result ((i : Item) (bytes : List ℕ) → length bytes ≡ len → Means self.old i → Means self.new (wrote at bytes number i)) }
        ensures err { OnErr result (self.new ≡ self.old) }
        ensures rest { KeepsRest self.old self.new }
        ensures later { StaysBefore number self.old self.new }
        ensures texts { KeepsTexts self.old self.new }
    {
        let end = at + len;
        let start = at.min(self.size as u64);
        let span = Span {
            start,
            len: end - start,
        };
        let written = self.written(span)?;
        self.here = written.here;
        self.modified = written.modified;
        self.modified_since = written.modified_since;
        self.dirty = true;
        self.dirty_since = true;
        self.in_sync = false;
        self.number = number;
        self.size = self.size.max(end as u32);
        Ok(())
    }

    /// A local cut, or growth by zeros, to a size of at most 16,777,216. Without memory the row is as before.
    pub fn set_size(&mut self, size: u32, number: Usn) -> Result<(), OutOfMemory>
        requires fits { size ≤ MOST_FILE_BYTES }
        requires later { IsLater number self.old }
        ensures ok { OnOk result ((i : Item) → Means self.old i → Means self.new (sized size number i)) }
        ensures err { OnErr result (self.new ≡ self.old) }
        ensures rest { KeepsRest self.old self.new }
        ensures later { StaysBefore number self.old self.new }
        ensures texts { KeepsTexts self.old self.new }
    {
        if size < self.size {
            self.cut_to(size, number)
        } else {
            self.grow_to(size, number)
        }
    }

    fn cut_to(&mut self, size: u32, number: Usn) -> Result<(), OutOfMemory>
        requires less { size < self.old.size }
        requires later { IsLater number self.old }
        ensures ok { OnOk result ((i : Item) → Means self.old i → Means self.new (sized size number i)) }
        ensures err { OnErr result (self.new ≡ self.old) }
        ensures rest { KeepsRest self.old self.new }
        ensures later { StaysBefore number self.old self.new }
        ensures texts { KeepsTexts self.old self.new }
    {
        let span = Span {
            start: size as u64,
            len: (self.size - size) as u64,
        };
        let here = self.here.without(span)?;
        let valid = self.valid.without(span)?;
        let modified = self.modified.without(span)?;
        let modified_since = self.modified_since.without(span)?;
        self.here = here;
        self.valid = valid;
        self.modified = modified;
        self.modified_since = modified_since;
        self.dirty = true;
        self.dirty_since = true;
        self.in_sync = false;
        self.number = number;
        self.size = size;
        Ok(())
    }

    fn grow_to(&mut self, size: u32, number: Usn) -> Result<(), OutOfMemory>
        requires more { self.old.size ≤ size }
        requires later { IsLater number self.old }
        ensures ok { OnOk result ((i : Item) → Means self.old i → Means self.new (sized size number i)) }
        ensures err { OnErr result (self.new ≡ self.old) }
        ensures rest { KeepsRest self.old self.new }
        ensures later { StaysBefore number self.old self.new }
        ensures texts { KeepsTexts self.old self.new }
    {
        let span = Span {
            start: self.size as u64,
            len: (size - self.size) as u64,
        };
        let written = self.written(span)?;
        self.here = written.here;
        self.modified = written.modified;
        self.modified_since = written.modified_since;
        self.dirty = true;
        self.dirty_since = true;
        self.in_sync = false;
        self.number = number;
        self.size = size;
        Ok(())
    }

    /// Bytes from the provider, for the positions of a span below the size that are not here. Without memory the row is
    /// as before.
    pub fn fill(&mut self, span: Span) -> Result<(), OutOfMemory>
        requires { span.start + span.len ≤ 2 ^ 40 }
        ensures ok { OnOk result ((i : Item) (bytes : List ℕ) → length bytes ≡ span.len → Means self.old i → Means self.new (got span.start bytes i)) }
        ensures err { OnErr result (self.new ≡ self.old) }
        ensures rest { KeepsRest self.old self.new }
        ensures number { self.new.number ≡ self.old.number }
        ensures texts { KeepsTexts self.old self.new }
    {
        let size = self.size as u64;
        let start = span.start.min(size);
        let end = (span.start + span.len).min(size);
        self.here.add(Span {
            start,
            len: end - start,
        })?;
        Ok(())
    }

    // What is valid with the bytes of a span that are here.
    fn validated(&self, alloc: Global, span: Span) -> Result<RangeSet, OutOfMemory>
        requires { span.start + span.len ≤ 2 ^ 40 }
        ensures { IfOk result (λ v. (p : ℕ) → contains v p ≡ (contains self.now.valid p || (in_span span p && contains self.now.here p))) }
    {
        let gaps = self.here.missing_in(span)?;
        let all = RangeSet::new(alloc).with(span)?;
        let vouched = all.without_all(gaps.as_slice())?;
        self.valid.with_all(vouched.runs())
    }

    /// The provider vouches for the bytes of a span that are here. Without memory the row is as before.
    pub fn validate(&mut self, alloc: Global, span: Span) -> Result<(), OutOfMemory>
        requires { span.start + span.len ≤ 2 ^ 40 }
        ensures ok { OnOk result ((i : Item) → Means self.old i → Means self.new (validated_in span.start span.len i)) }
        ensures err { OnErr result (self.new ≡ self.old) }
        ensures rest { KeepsRest self.old self.new }
        ensures number { self.new.number ≡ self.old.number }
        ensures texts { KeepsTexts self.old self.new }
    {
        let valid = self.validated(alloc, span)?;
        self.valid = valid;
        Ok(())
    }

    /// The bytes of a span that are not modified leave. Without memory the row is as before.
    pub fn empty(&mut self, span: Span) -> Result<(), OutOfMemory>
        requires { span.start + span.len ≤ 2 ^ 40 }
        ensures ok { OnOk result ((i : Item) → Means self.old i → Means self.new (left_out span.start span.len i)) }
        ensures err { OnErr result (self.new ≡ self.old) }
        ensures rest { KeepsRest self.old self.new }
        ensures number { self.new.number ≡ self.old.number }
        ensures texts { KeepsTexts self.old self.new }
    {
        let gaps = self.modified.missing_in(span)?;
        let spans = gaps.as_slice();
        let here = self.here.without_all(spans)?;
        let valid = self.valid.without_all(spans)?;
        self.here = here;
        self.valid = valid;
        Ok(())
    }
}
