//! What is spelled on a disk, read.

ghost use Rattle.std.specs.Prelude.{◌≡◌, ◌≤◌, ◌<◌, ◌⊎◌, ℕ, Err, IfErr, IfOk, OnOk};
ghost use Rattle.cf_codec.specs.declared.formats.Format.{Format};
ghost use Rattle.cf_disk.specs.Disk.{size_of, Only};
ghost use Rattle.cf_journal.specs.Format.{Chosen, journal_len, size_of_records};
ghost use Rattle.cf_journal.specs.Places.{IsFound, image_place, record_place};
ghost use Rattle.cf_journal.specs.Settled.{IsFitSize, IsOpenCause};
ghost use Rattle.cf_journal.specs.Steps.{ReadsOnly};
ghost use Rattle.cf_journal.specs.declared.failures.JournalError.{JournalError};
ghost use Rattle.cf_journal.specs.declared.sides.Side.{Side};

use crate::failures::JournalError;
use crate::formats::{journal_at_of, journal_len_of};
use crate::found::Found;
use crate::reads::{find, load};
use crate::sides::base_of;
use crate::walks::records;
use cf_base::{Blob, Sequence};
use cf_codec::Format;
use cf_disk::Disk;
use std::alloc::Global;

/// Reads what is spelled on the disk. It only syncs and reads, the sync first, so that nothing is pending while it reads.
/// NotAVolume exactly where no slot has an open gate and a spelled header. Failed where a call of the disk failed.
/// OutOfMemory where there is none.
pub fn read<D: Disk>(alloc: Global, disk: &mut D) -> Result<Found, JournalError>
    requires { IsFitSize (size_of (D.state disk.old)) }
    ensures found { IfOk result (λ f. IsFound f (D.state disk.old).seen) }
    ensures none { result ≡ Err JournalError.NotAVolume → (s : Side) (f : Format) (g l : ℕ) → Chosen f (D.state disk.old).seen s g l → ⊥ }
    ensures durable { OnOk result (Only (D.state disk.old).seen (D.state disk.new)) }
    ensures reads { ReadsOnly (D.state disk.old) (D.state disk.new) }
    ensures cause { IfErr result (λ e. (e ≡ JournalError.NotAVolume) ⊎ IsOpenCause e (D.state disk.old) (D.state disk.new)) }
{
    let volume = match find(disk)? {
        None => return Err(JournalError::NotAVolume),
        Some(volume) => volume,
    };
    let base = base_of(volume.0);
    let image = load(alloc, disk, base + 4096, volume.3 as usize)?;
    let at = journal_at_of(volume.1);
    let front = records(alloc, disk, base + at, journal_len_of(volume.1))?;
    Ok(Found {
        side: volume.0,
        format: volume.1,
        generation: volume.2,
        image: Blob::from_vec(image),
        payloads: Sequence::from_vec(front.payloads),
        end: front.end,
        overruns: front.overruns,
    })
}

fn size_of(payloads: &[Blob]) -> u64
    requires { size_of_records payloads.now ≤ 524288 }
    ensures { result ≡ size_of_records payloads.now }
{
    let mut size = 0;
    for payload in payloads {
        size += 5 + payload.as_slice().len() as u64;
    }
    size
}

impl Found {
    /// The place of the image in the disk.
    pub fn image_at(&self) -> u64
        ensures place { result ≡ image_place self.now }
        ensures small { result ≤ 3145728 }
    {
        base_of(self.side) + 4096
    }

    /// The place in the disk where the length of the record with this number stands, counted from 0: behind its gate. Its
    /// payload stands four bytes behind that. For the number after the last, it is the place behind the next gate.
    pub fn record_at(&self, number: usize) -> u64
        requires { size_of_records self.now.payloads < journal_len self.now.format }
        ensures place { result ≡ record_place self.now number }
        ensures small { result ≤ 3145728 }
    {
        let payloads = self.payloads.as_slice();
        let before = &payloads[..number.min(payloads.len())];
        base_of(self.side) + journal_at_of(self.format) + size_of(before) + 1
    }
}
