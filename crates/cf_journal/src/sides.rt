//! The two halves of a disk.

ghost use Rattle.std.specs.Prelude.{◌≡◌};
ghost use Rattle.cf_journal.specs.Format.{base, other};

/// One of the two halves of a disk: a slot with its journal.
#[derive(Clone, Copy)]
pub enum Side {
    A,
    B,
}

// The place where the half begins.
pub(crate) fn base_of(side: Side) -> u64
    ensures { result ≡ base side }
{
    match side {
        Side::A => 0,
        Side::B => 1_572_864,
    }
}

// The other half.
pub(crate) fn other_of(side: Side) -> Side
    ensures { result ≡ other side }
{
    match side {
        Side::A => Side::B,
        Side::B => Side::A,
    }
}
