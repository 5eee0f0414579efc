//! Calls that only read the disk.

ghost use Rattle.std.specs.Prelude.{◌≡◌, ◌≤◌, ◌+◌, ℕ, IfOk, IfSome, IfNone, OnOk, IfErr};
ghost use Rattle.cf_disk.specs.Disk.{size_of, part, Only, Rises};
ghost use Rattle.cf_codec.specs.declared.formats.Format.{Format};
ghost use Rattle.cf_journal.specs.Format.{HasSlot, Chosen};
ghost use Rattle.cf_journal.specs.Settled.{IsOpenCause};
ghost use Rattle.cf_journal.specs.declared.sides.Side.{Side};
ghost use Rattle.cf_journal.specs.Steps.{ReadsOnly};

use crate::failures::JournalError;
use crate::sides::Side;
use crate::slots::{choose, slot_of};
use cf_codec::Format;
use cf_disk::{Disk, DiskError};
use std::alloc::Global;

// The format, the generation and the length of the image of the slot at a place, where it has an open gate and a spelled
// header.
pub(crate) fn read_slot<D: Disk>(
    disk: &mut D,
    at: u64,
) -> Result<Option<(Format, u64, u32)>, DiskError>
    requires { at + 28 ≤ size_of (D.state disk.old) }
    ensures found { IfOk result (λ o. IfSome o (λ s. HasSlot s.0 (D.state disk.old).seen at s.1 s.2)) }
    ensures none { IfOk result (λ o. IfNone o ((f : Format) (g l : ℕ) → HasSlot f (D.state disk.old).seen at g l → ⊥)) }
    ensures reads { ReadsOnly (D.state disk.old) (D.state disk.new) }
    ensures cause { Rises result (D.state disk.old) (D.state disk.new) }
{
    let size = disk.size();
    let mut text = [0u8; 28];
    disk.read(at, &mut text)?;
    Ok(slot_of(&text, size))
}

// The slot that is the volume, with its format, its generation and the length of its image. A sync comes first, so nothing is
// pending while it reads.
pub(crate) fn find<D: Disk>(disk: &mut D) -> Result<Option<(Side, Format, u64, u32)>, DiskError>
    requires { 3145728 ≤ size_of (D.state disk.old) }
    ensures found { IfOk result (λ o. IfSome o (λ v. Chosen v.1 (D.state disk.old).seen v.0 v.2 v.3)) }
    ensures none { IfOk result (λ o. IfNone o ((s : Side) (f : Format) (g l : ℕ) → Chosen f (D.state disk.old).seen s g l → ⊥)) }
    ensures durable { OnOk result (Only (D.state disk.old).seen (D.state disk.new)) }
    ensures reads { ReadsOnly (D.state disk.old) (D.state disk.new) }
    ensures cause { Rises result (D.state disk.old) (D.state disk.new) }
{
    disk.sync()?;
    let a = read_slot(disk, 0)?;
    let b = read_slot(disk, 1_572_864)?;
    Ok(choose(a, b))
}

// The bytes of a part of the disk.
pub(crate) fn load<D: Disk>(
    alloc: Global,
    disk: &mut D,
    at: u64,
    len: usize,
) -> Result<Vec<u8>, JournalError>
    requires { at + len ≤ size_of (D.state disk.old) }
    ensures got { IfOk result (λ v. v.items ≡ part at len (D.state disk.old).seen) }
    ensures reads { ReadsOnly (D.state disk.old) (D.state disk.new) }
    ensures cause { IfErr result (λ e. IsOpenCause e (D.state disk.old) (D.state disk.new)) }
{
    let mut v = Vec::with_capacity(alloc, len)?;
    v.resize(len, 0)?;
    disk.read(at, &mut v)?;
    Ok(v)
}
