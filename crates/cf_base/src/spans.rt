//! Spans of places.

ghost use Rattle.std.specs.Prelude.{◌≡◌, ◌+◌, ◌/◌, ◌≤◌, ◌^◌, ℕ};
ghost use Rattle.cf_base.specs.Spans.{IsIn, Touches};
ghost use Rattle.cf_base.specs.declared.limits.TheConstants.{BLOCK_BYTES};

use crate::limits::BLOCK_BYTES;

/// `len` places from `start` on.
#[derive(Clone, Copy, Debug, PartialEq, Eq)]
pub struct Span {
    pub start: u64,
    pub len: u64,
}

/// The blocks of BLOCK_BYTES that the span touches, an empty one none: the first of them and how many.
pub fn blocks_of(span: Span) -> Span
    requires { span.start + span.len ≤ 2 ^ 40 }
    ensures touched { (k : ℕ) → IsIn k result → Touches span k }
    ensures all { (p : ℕ) → IsIn p span → IsIn (p / BLOCK_BYTES) result }
    ensures first { result.start ≡ span.start / BLOCK_BYTES }
{
    let start = span.start / BLOCK_BYTES;
    if span.len == 0 {
        return Span { start, len: 0 };
    }
    let last = (span.start + span.len - 1) / BLOCK_BYTES;
    Span {
        start,
        len: last - start + 1,
    }
}
