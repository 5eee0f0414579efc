//! A journal and its calls.

ghost use Rattle.std.specs.Prelude.{◌<◌};
ghost use Rattle.cf_base.specs.declared.limits.TheConstants.{MOST_IMAGE_BYTES};
ghost use Rattle.cf_journal.specs.Format.{journal_len};

use crate::failures::JournalError;
use crate::findings::read;
use crate::found::Found;
use crate::installs::{generation_after, install};
use crate::sides::{Side, base_of, other_of};
use crate::writes::{close_both, put, put_record};
use cf_base::{Blob, Sequence};
use cf_codec::Format;
use cf_disk::Disk;
use std::alloc::Global;

/// The least size of a disk with a volume, in bytes: then it has no cluster.
pub const LEAST_SIZE: u64 = 3_145_728;

/// The largest size of a disk with a volume, in bytes: then it has 65,536 clusters.
pub const LARGEST_SIZE: u64 = 271_581_184;

/// The most bytes that an image may have.
pub const IMAGE_LIMIT: usize = 1_306_624;

const SLOT: u64 = 1_310_720;

const JOURNAL: u64 = 262_144;

/// What is known of the content of a disk: the slot that is the volume, its generation, and where its records end. It is
/// used with the disk on which it was made, and its clauses speak of that disk.
#[derive(Drop)]
pub struct Journal {
    side: Side,
    generation: u64,
    format: Format,
    end: u64,
    broken: bool,
    ghost in_journal: { end < journal_len format },
}

/// What an opened disk stands for.
#[derive(Drop)]
pub struct Opened {
    pub journal: Journal,
    /// The format of the volume's slot.
    pub format: Format,
    pub image: Blob,
    /// The payloads that were appended since the image was written, in order.
    pub payloads: Sequence<Blob>,
}

impl Journal {
    ghost use Rattle.std.specs.Prelude.{◌≡◌, ◌≤◌, ◌↔◌, ◌+◌, length, true, false, Err, IsTrue, IfErr, OnOk, OnErr, IfOk, ◌⊎◌};
    ghost use Rattle.cf_disk.specs.Disk.{size_of, may_fail, Only, Leaves, Counts};
    ghost use Rattle.cf_journal.specs.Content.{Content, Stands, IsBeforeOrAfter, IsFormatting, appended, rewritten, clusters};
    ghost use Rattle.cf_journal.specs.Settled.{IsFitSize, Settled, HasRoom, IsCause, IsOpenCause};
    ghost use Rattle.cf_journal.specs.Steps.{ReadsOnly};

    /// Whether a disk of so many bytes has the room of a volume, and of at most 65,536 clusters.
    pub fn is_fit_size(size: u64) -> bool
        ensures { IsTrue result ↔ IsFitSize size }
    {
        LEAST_SIZE <= size && size <= LARGEST_SIZE
    }

    /// A journal of no disk, for a volume that keeps its points elsewhere.
    pub fn of_no_disk() -> Journal
        ensures { result.broken ≡ false }
    {
        Journal {
            side: Side::A,
            generation: 1,
            format: Format::Second,
            end: 0,
            broken: false,
        }
    }

    /// Whether a record with a payload of so many bytes has room in the journal. None has in one of format 1, which is only
    /// read.
    pub fn fits(&self, len: usize) -> bool
        ensures { IsTrue result ↔ HasRoom self.now len }
    {
        match self.format {
            Format::First => false,
            Format::Second => {
                let room = JOURNAL - 1 - self.end;
                len < 262_144 && 5 + len as u64 <= room
            }
        }
    }

    /// Adds a record behind the others and makes it durable. Broken where an earlier call failed; then nothing is done.
    /// Failed where a call of the disk failed; then open the disk again.
    pub fn append<D: Disk>(&mut self, disk: &mut D, payload: &[u8]) -> Result<(), JournalError>
        requires room { HasRoom self.old (length payload.now) }
        requires size { IsFitSize (size_of (D.state disk.old)) }

        // The content is then the new one, all of it durable, and the clusters are as they were read.
        ensures ok { (x : Content) → Settled self.old (D.state disk.old) x → OnOk result (Settled self.new (D.state disk.new) (appended x payload.now)) }
        ensures durable { OnOk result (Only (D.state disk.new).seen (D.state disk.new)) }
        ensures rest { OnOk result (clusters (D.state disk.new).seen ≡ clusters (D.state disk.old).seen) }

        // A crash at any moment of the call leaves the content before or after, refused or not.
        ensures crash { (x : Content) → Settled self.old (D.state disk.old) x
            → Leaves (D.state disk.old) (D.state disk.new) (IsBeforeOrAfter (D.state disk.old) x (appended x payload.now)) }

        ensures counts { Counts (6 + length payload.now) result (D.state disk.old) (D.state disk.new) }
        ensures same_size { size_of (D.state disk.new) ≡ size_of (D.state disk.old) }
        ensures powers { (D.state disk.new).powers ≡ (D.state disk.old).powers }
        ensures settings { (D.state disk.new).settings ≡ (D.state disk.old).settings }
        ensures cause { IfErr result (λ e. IsCause e self.old (D.state disk.old) (D.state disk.new)) }
        ensures faults { (D.state disk.old).faults ≤ (D.state disk.new).faults }
        ensures calm { may_fail (D.state disk.new).armed ≤ may_fail (D.state disk.old).armed }
        ensures usable { OnOk result (self.new.broken ≡ false) }
        ensures broken { self.old.broken ≡ true → (result ≡ Err JournalError.Broken) × (self.new ≡ self.old) × (disk.new ≡ disk.old) }
        ensures breaks { OnErr result (self.new.broken ≡ true) }
    {
        if self.broken {
            return Err(JournalError::Broken);
        }
        self.broken = true;
        let gate = base_of(self.side) + SLOT + self.end;
        put_record(disk, gate + 1, payload)?;
        put(disk, gate, &[1])?;
        self.end += 5 + payload.len() as u64;
        self.broken = false;
        Ok(())
    }

    /// Puts an image of format 2 in place of the content, of whichever format that is, and makes it durable. Broken where an
    /// earlier call failed; then nothing is done. Failed where a call of the disk failed; then open the disk again.
    pub fn rewrite<D: Disk>(&mut self, disk: &mut D, image: &[u8]) -> Result<(), JournalError>
        requires short { length image.now ≤ MOST_IMAGE_BYTES }
        requires size { IsFitSize (size_of (D.state disk.old)) }

        ensures ok { (x : Content) → Settled self.old (D.state disk.old) x → OnOk result (Settled self.new (D.state disk.new) (rewritten image.now)) }
        ensures durable { OnOk result (Only (D.state disk.new).seen (D.state disk.new)) }
        ensures rest { OnOk result (clusters (D.state disk.new).seen ≡ clusters (D.state disk.old).seen) }

        ensures crash { (x : Content) → Settled self.old (D.state disk.old) x
            → Leaves (D.state disk.old) (D.state disk.new) (IsBeforeOrAfter (D.state disk.old) x (rewritten image.now)) }

        ensures counts { Counts (30 + length image.now) result (D.state disk.old) (D.state disk.new) }
        ensures same_size { size_of (D.state disk.new) ≡ size_of (D.state disk.old) }
        ensures powers { (D.state disk.new).powers ≡ (D.state disk.old).powers }
        ensures settings { (D.state disk.new).settings ≡ (D.state disk.old).settings }
        ensures cause { IfErr result (λ e. IsCause e self.old (D.state disk.old) (D.state disk.new)) }
        ensures faults { (D.state disk.old).faults ≤ (D.state disk.new).faults }
        ensures calm { may_fail (D.state disk.new).armed ≤ may_fail (D.state disk.old).armed }
        ensures usable { OnOk result (self.new.broken ≡ false) }
        ensures broken { self.old.broken ≡ true → (result ≡ Err JournalError.Broken) × (self.new ≡ self.old) × (disk.new ≡ disk.old) }
        ensures breaks { OnErr result (self.new.broken ≡ true) }
    {
        if self.broken {
            return Err(JournalError::Broken);
        }
        self.broken = true;
        let generation = generation_after(self.generation);
        install(disk, self.side, generation, image)?;
        self.side = other_of(self.side);
        self.format = Format::Second;
        self.generation = generation;
        self.end = 0;
        self.broken = false;
        Ok(())
    }

    /// Makes a volume with this image and no record, whatever the disk held. Failed where a call of the disk failed.
    pub fn format<D: Disk>(disk: &mut D, image: &[u8]) -> Result<Journal, JournalError>
        requires short { length image.now ≤ MOST_IMAGE_BYTES }
        requires size { IsFitSize (size_of (D.state disk.old)) }
        ensures ok { IfOk result (λ j. Settled j (D.state disk.new) (rewritten image.now)) }
        ensures durable { OnOk result (Only (D.state disk.new).seen (D.state disk.new)) }
        ensures rest { OnOk result (clusters (D.state disk.new).seen ≡ clusters (D.state disk.old).seen) }

        // A crash at any moment of the call leaves no content or the new one; before the first sync alone it leaves what
        // it might have left before the call, but for the gates of the two slots.
        ensures crash { Leaves (D.state disk.old) (D.state disk.new) (IsFormatting (D.state disk.old) (rewritten image.now)) }

        ensures counts { Counts (32 + length image.now) result (D.state disk.old) (D.state disk.new) }
        ensures same_size { size_of (D.state disk.new) ≡ size_of (D.state disk.old) }
        ensures powers { (D.state disk.new).powers ≡ (D.state disk.old).powers }
        ensures settings { (D.state disk.new).settings ≡ (D.state disk.old).settings }
        ensures cause { IfErr result (λ e. (e ≡ JournalError.Failed) × IsOpenCause e (D.state disk.old) (D.state disk.new)) }
        ensures faults { (D.state disk.old).faults ≤ (D.state disk.new).faults }
        ensures calm { may_fail (D.state disk.new).armed ≤ may_fail (D.state disk.old).armed }
    {
        close_both(disk, base_of(Side::A), base_of(Side::B))?;
        install(disk, Side::B, 1, image)?;
        Ok(Journal {
            side: Side::A,
            generation: 1,
            format: Format::Second,
            end: 0,
            broken: false,
        })
    }

    /// Opens the volume. It only syncs and reads, the sync first, so that nothing is pending while it reads. NotAVolume
    /// exactly where the disk stands for no content: no slot has an open gate and a spelled header, or a record with an
    /// open gate does not fit the chosen slot's journal. Failed where a call of the disk failed. OutOfMemory where there
    /// is none.
    pub fn open<D: Disk>(alloc: Global, disk: &mut D) -> Result<Opened, JournalError>
        requires { IsFitSize (size_of (D.state disk.old)) }

        // It gives the content that the disk stands for, and no record whose gate is closed.
        ensures found { IfOk result (λ o. Settled o.journal (D.state disk.new) (record { format = o.format; image = o.image; payloads = o.payloads })) }
        ensures none { result ≡ Err JournalError.NotAVolume → (x : Content) → Stands (D.state disk.old).seen x → ⊥ }

        ensures durable { OnOk result (Only (D.state disk.old).seen (D.state disk.new)) }
        ensures reads { ReadsOnly (D.state disk.old) (D.state disk.new) }
        ensures cause { IfErr result (λ e. (e ≡ JournalError.NotAVolume) ⊎ IsOpenCause e (D.state disk.old) (D.state disk.new)) }
    {
        let found = read(alloc, disk)?;
        match found.open() {
            None => Err(JournalError::NotAVolume),
            Some(opened) => Ok(opened),
        }
    }
}

impl Found {
    ghost use Rattle.std.specs.Prelude.{◌≡◌, true, false, MatchOption};
    ghost use Rattle.cf_journal.specs.Places.{IsOpened};

    /// The journal of what was found, as it is opened. None exactly where a record does not fit it.
    pub fn open(self) -> Option<Opened>
        ensures { MatchOption result (self.overruns ≡ true) (λ o. (self.overruns ≡ false) × IsOpened self o) }
    {
        if self.overruns {
            drop(self);
            return None;
        }
        Some(Opened {
            journal: Journal {
                side: self.side,
                generation: self.generation,
                format: self.format,
                end: self.end,
                broken: false,
            },
            format: self.format,
            image: self.image,
            payloads: self.payloads,
        })
    }
}
