//! One image into a slot.

ghost use Rattle.std.specs.Prelude.{◌≡◌, ◌<◌, ◌≤◌, ◌+◌, ℕ, length, get_or, OnOk};
ghost use Rattle.cf_base.specs.declared.limits.TheConstants.{MOST_IMAGE_BYTES};
ghost use Rattle.cf_disk.specs.Disk.{size_of, Only, Leaves, Counts, Rises};
ghost use Rattle.cf_journal.specs.Format.{base, other};
ghost use Rattle.cf_journal.specs.Content.{Content, IsBeforeOrAfter, IsFresh, rewritten};
ghost use Rattle.cf_journal.specs.Settled.{IsFitSize, Ready, Installs, next_of};

use crate::headers::header_bytes;
use crate::sides::{Side, base_of, other_of};
use crate::writes::{close, put, stage};
use cf_codec::Format;
use cf_disk::{Disk, DiskError};

// Writes an image of format 2 into the slot of the other side: the slot is closed, then filled behind its closed gate, then opened,
// with a sync after each of these.
pub(crate) fn install<D: Disk>(
    disk: &mut D,
    side: Side,
    generation: u64,
    image: &[u8],
) -> Result<(), DiskError>
    requires size { IsFitSize (size_of (D.state disk.old)) }
    requires short { length image.now ≤ MOST_IMAGE_BYTES }
    requires positive { 0 < generation }
    ensures installed { OnOk result (Installs (other side) generation image.now (D.state disk.old).seen (D.state disk.new).seen) }
    ensures durable { OnOk result (Only (D.state disk.new).seen (D.state disk.new)) }
    ensures crash { (g : ℕ) (x : Content) → Ready (D.state disk.old) side g x → generation ≡ next_of g
        → Leaves (D.state disk.old) (D.state disk.new) (IsBeforeOrAfter (D.state disk.old) x (rewritten image.now)) }
    ensures fresh { get_or (D.state disk.old).seen (base side) 0 ≡ 0 → get_or (D.state disk.old).seen (base (other side)) 0 ≡ 0 → Only (D.state disk.old).seen (D.state disk.old)
        → Leaves (D.state disk.old) (D.state disk.new) (IsFresh (D.state disk.old) (rewritten image.now)) }
    ensures counts { Counts (30 + length image.now) result (D.state disk.old) (D.state disk.new) }
    ensures cause { Rises result (D.state disk.old) (D.state disk.new) }
    ensures same_size { size_of (D.state disk.new) ≡ size_of (D.state disk.old) }
    ensures powers { (D.state disk.new).powers ≡ (D.state disk.old).powers }
    ensures settings { (D.state disk.new).settings ≡ (D.state disk.old).settings }
{
    let size = disk.size();
    let at = base_of(other_of(side));
    let header = header_bytes(Format::Second, generation, image.len() as u32, size);
    close(disk, at)?;
    stage(disk, at, &header, image)?;
    put(disk, at, &[1])?;
    Ok(())
}

// The generation after one; 1 after the greatest.
pub(crate) fn generation_after(generation: u64) -> u64
    ensures { result ≡ next_of generation }
{
    if generation == u64::MAX {
        1
    } else {
        generation + 1
    }
}
