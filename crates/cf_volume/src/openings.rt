//! Volumes made and opened.

ghost use Rattle.std.specs.Prelude.{◌≡◌, ◌<◌, ◌+◌, ◌⊎◌, ℕ, false, List, IfErr, IfOk};
ghost use Rattle.cf_base.specs.declared.changes.Change.{Change};
ghost use Rattle.cf_base.specs.declared.codes.Code.TheVariants.{Exhausted, NotAVolume};
ghost use Rattle.cf_base.specs.declared.ids.Usn.{Usn};
ghost use Rattle.cf_volume_commit.specs.Loaded as loaded;
ghost use Rattle.cf_volume_commit.specs.Loaded.{HoldsImage};
ghost use Rattle.cf_disk.specs.Disk.{Leaves, capped, size_of};
ghost use Rattle.cf_journal.specs.Content.{Content, Stands};
ghost use Rattle.cf_journal.specs.Settled.{IsFitSize};
ghost use Rattle.cf_journal.specs.Steps.{ReadsOnly};
ghost use Rattle.cf_volume_image.specs.Contents.{image_of};
ghost use Rattle.cf_model.specs.Books.{Book};
ghost use Rattle.cf_model.specs.Formats.{Image};
ghost use Rattle.cf_model.specs.Numbers.{most};
ghost use Rattle.cf_model.specs.State.{new_volume};
ghost use Rattle.cf_volume_points.specs.At.{At};
ghost use Rattle.cf_volume_points.specs.Standing.{Standing, clusters_for, opened};
ghost use Rattle.cf_volume_changes.specs.Calls.{IsCause, IsRefused, Runs, StopsOnly};
ghost use Rattle.cf_volume_changes.specs.Notes.{NotesNothing};
ghost use Rattle.cf_volume.specs.Openings.{IsOpenedFrom};
ghost use Rattle.cf_volume_changes.specs.Steady.{Steady, known_of};
ghost use Rattle.cf_volume.specs.Written.{IsAtPoint, WritesAtMost, contents_in};

use crate::stop_causes::fail_of;
use crate::volumes::{Volume, VolumeOn};
use cf_base::{CallError, ItemId, OutOfMemory};
use cf_disk::Disk;
use cf_volume_changes::{Parts, nothing_noted};
use cf_volume_commit::{Earlier, Parts as Opened, create, load};
use cf_volume_ground::{DiskGround, Ground};
use std::alloc::Global;

// The parts of a volume that was just made or opened. Nothing is noted yet.
fn parts_of(alloc: Global, mut then: Earlier, opened: Opened) -> Parts
    requires { NotesNothing then.next then }
    ensures known { known_of result ≡ loaded.known_of opened }
    ensures noted { IsAtPoint (known_of result) }
{
    then.next = opened.contents.rows.next();
    let kept = opened.contents.count;
    let clock_then = opened.contents.clock;
    let used_then = opened.held.used();
    Parts {
        alloc,
        journal: opened.journal,
        held: opened.held,
        contents: opened.contents,
        then,
        kept,
        clock_then,
        limit: opened.limit,
        used_then,
        put_since: 0,
        broken: false,
    }
}

// What may be out of memory comes before the disk.
fn create_parts<D: Disk>(alloc: Global, disk: &mut D) -> Result<Parts, CallError>
    requires { IsFitSize (size_of (D.state disk.old)) }
    ensures ok { IfOk result (λ p. At (D.state disk.new) (known_of p) (new_volume (clusters_for (D.state disk.old)))) }
    ensures steady { IfOk result (λ p. Steady (size_of (D.state disk.new)) (known_of p)) }
    ensures usable { IfOk result (λ p. p.broken ≡ false) }
    ensures noted { IfOk result (λ p. IsAtPoint (known_of p)) }
    ensures only { IfErr result StopsOnly }
    ensures cause { IfErr result (λ e. IsCause e (D.state disk.old) (D.state disk.new)) }
    ensures runs { Runs (D.state disk.old) (D.state disk.new) }
{
    let then = nothing_noted(alloc, ItemId(0))?;
    match create(alloc, disk) {
        Ok(made) => Ok(parts_of(alloc, then, made)),
        Err(stop) => {
            drop(then);
            Err(fail_of(stop))
        }
    }
}

fn load_parts<D: Disk>(alloc: Global, disk: &mut D) -> Result<Parts, CallError>
    requires { IsFitSize (size_of (D.state disk.old)) }
    ensures ok { (epoch : ℕ) (log : List (Usn × Change)) (b : Book) → Standing epoch (D.state disk.old).seen log b → IfOk result (λ p. At (D.state disk.new) (known_of p) (opened (epoch + 1) log b (clusters_for (D.state disk.old)))) }
    ensures found { IfOk result (λ p. (i : Image) × HoldsImage (D.state disk.old).seen i × (i.header.last.epoch < most) × IsOpenedFrom i (known_of p)) }
    ensures absent { IfErr result (λ e. IsRefused e NotAVolume → (i : Image) → HoldsImage (D.state disk.old).seen i → ⊥) }
    ensures exhausted { IfErr result (λ e. IsRefused e Exhausted → (i : Image) × HoldsImage (D.state disk.old).seen i × (i.header.last.epoch ≡ most)) }
    ensures unwritten { IfErr result (λ e. IsRefused e NotAVolume ⊎ IsRefused e Exhausted → ReadsOnly (D.state disk.old) (D.state disk.new)) }
    ensures steady { IfOk result (λ p. Steady (size_of (D.state disk.new)) (known_of p)) }
    ensures usable { IfOk result (λ p. p.broken ≡ false) }
    ensures noted { IfOk result (λ p. IsAtPoint (known_of p)) }
    ensures none { (epoch : ℕ) (log : List (Usn × Change)) (b : Book) → Standing epoch (D.state disk.old).seen log b → IfErr result (λ e. IsRefused e NotAVolume → ⊥) }
    ensures last { (epoch : ℕ) (log : List (Usn × Change)) (b : Book) → Standing epoch (D.state disk.old).seen log b → IfErr result (λ e. IsRefused e Exhausted → epoch ≡ most) }
    ensures more { (epoch : ℕ) (log : List (Usn × Change)) (b : Book) → Standing epoch (D.state disk.old).seen log b → IfOk result (λ p. epoch < most) }
    ensures only { IfErr result (λ e. StopsOnly e ⊎ (IsRefused e NotAVolume ⊎ IsRefused e Exhausted)) }
    ensures crash { (epoch : ℕ) (log : List (Usn × Change)) (b : Book) → Standing epoch (D.state disk.old).seen log b → Leaves (D.state disk.old) (D.state disk.new) (loaded.StandsOrWas epoch log b (D.state disk.old)) }
    ensures cause { IfErr result (λ e. IsCause e (D.state disk.old) (D.state disk.new)) }
    ensures written { (x : Content) → Stands (D.state disk.old).seen x → IfOk result (λ p. (D.state disk.new).written ≡ capped ((D.state disk.old).written + loaded.opening_bytes x (image_of (contents_in (known_of p))))) }
    ensures at_most { WritesAtMost 1306654 (D.state disk.old) (D.state disk.new) }
    ensures runs { Runs (D.state disk.old) (D.state disk.new) }
{
    let then = nothing_noted(alloc, ItemId(0))?;
    match load(alloc, disk) {
        Ok(found) => Ok(parts_of(alloc, then, found)),
        Err(fail) => {
            drop(then);
            Err(fail)
        }
    }
}

impl<D: Disk> VolumeOn<DiskGround<D>> {
    /// Makes a volume on a disk of a fit size, whatever that held, and opens it: its first epoch is 1.
    pub fn format(alloc: Global, mut disk: D) -> Result<Volume<D>, (D, CallError)>
        requires { IsFitSize (size_of (D.state disk)) }
        ensures ok { IfOk result (λ w. At (D.state w.disk) w.known (new_volume (clusters_for (D.state disk)))) }
        ensures usable { IfOk result (λ w. w.known.broken ≡ false) }
        ensures noted { IfOk result (λ w. IsAtPoint w.known) }
        ensures only { IfErr result (λ e. StopsOnly e.1) }
        ensures cause { IfErr result (λ e. IsCause e.1 (D.state disk) (D.state e.0)) }
        ensures runs { IfOk result (λ w. Runs (D.state disk) (D.state w.disk)) }
        ensures runs_back { IfErr result (λ e. Runs (D.state disk) (D.state e.0)) }
    {
        match create_parts(alloc, &mut disk) {
            Ok(parts) => Ok(VolumeOn {
                ground: DiskGround::new(disk),
                parts,
            }),
            Err(fail) => Err((disk, fail)),
        }
    }

    /// Opens the volume on a disk of a fit size, in either format: what the image that the disk holds tells, in the next epoch.
    /// NotAVolume exactly where the disk holds no image of a volume, and Exhausted exactly where it holds one of the last epoch;
    /// then nothing is written. Else 54 bytes are, or the whole image in format 2 where the journal is of format 1 or has no
    /// room for them. Device where a call of the disk failed, whose count of faults rose. OutOfMemory where there is none.
    ///
    /// A crash at any moment leaves what it might have left before, or the same changes and book, with the epoch as it was
    /// or raised.
    pub fn open(alloc: Global, mut disk: D) -> Result<Volume<D>, (D, CallError)>
        requires { IsFitSize (size_of (D.state disk)) }
        ensures ok { (epoch : ℕ) (log : List (Usn × Change)) (b : Book) → Standing epoch (D.state disk).seen log b → IfOk result (λ w. At (D.state w.disk) w.known (opened (epoch + 1) log b (clusters_for (D.state disk)))) }
        ensures found { IfOk result (λ w. (i : Image) × HoldsImage (D.state disk).seen i × (i.header.last.epoch < most) × IsOpenedFrom i w.known) }
        ensures absent { IfErr result (λ e. IsRefused e.1 NotAVolume → (i : Image) → HoldsImage (D.state disk).seen i → ⊥) }
        ensures exhausted { IfErr result (λ e. IsRefused e.1 Exhausted → (i : Image) × HoldsImage (D.state disk).seen i × (i.header.last.epoch ≡ most)) }
        ensures unwritten { IfErr result (λ e. IsRefused e.1 NotAVolume ⊎ IsRefused e.1 Exhausted → ReadsOnly (D.state disk) (D.state e.0)) }
        ensures none { (epoch : ℕ) (log : List (Usn × Change)) (b : Book) → Standing epoch (D.state disk).seen log b → IfErr result (λ e. IsRefused e.1 NotAVolume → ⊥) }
        ensures last { (epoch : ℕ) (log : List (Usn × Change)) (b : Book) → Standing epoch (D.state disk).seen log b → IfErr result (λ e. IsRefused e.1 Exhausted → epoch ≡ most) }
        ensures more { (epoch : ℕ) (log : List (Usn × Change)) (b : Book) → Standing epoch (D.state disk).seen log b → IfOk result (λ w. epoch < most) }
        ensures only { IfErr result (λ e. StopsOnly e.1 ⊎ (IsRefused e.1 NotAVolume ⊎ IsRefused e.1 Exhausted)) }
        ensures crash { (epoch : ℕ) (log : List (Usn × Change)) (b : Book) → Standing epoch (D.state disk).seen log b → IfOk result (λ w. Leaves (D.state disk) (D.state w.disk) (loaded.StandsOrWas epoch log b (D.state disk))) }
        ensures crash_back { (epoch : ℕ) (log : List (Usn × Change)) (b : Book) → Standing epoch (D.state disk).seen log b → IfErr result (λ e. Leaves (D.state disk) (D.state e.0) (loaded.StandsOrWas epoch log b (D.state disk))) }
        ensures usable { IfOk result (λ w. w.known.broken ≡ false) }
        ensures noted { IfOk result (λ w. IsAtPoint w.known) }
        ensures cause { IfErr result (λ e. IsCause e.1 (D.state disk) (D.state e.0)) }
        ensures written { (x : Content) → Stands (D.state disk).seen x → IfOk result (λ w. (D.state w.disk).written ≡ capped ((D.state disk).written + loaded.opening_bytes x (image_of (contents_in w.known)))) }
        ensures at_most { IfErr result (λ e. WritesAtMost 1306654 (D.state disk) (D.state e.0)) }
        ensures runs { IfOk result (λ w. Runs (D.state disk) (D.state w.disk)) }
        ensures runs_back { IfErr result (λ e. Runs (D.state disk) (D.state e.0)) }
    {
        match load_parts(alloc, &mut disk) {
            Ok(parts) => Ok(VolumeOn {
                ground: DiskGround::new(disk),
                parts,
            }),
            Err(fail) => Err((disk, fail)),
        }
    }
}

impl<G: Ground> VolumeOn<G> {
    /// A volume on a ground, of its parts as they are at a point, since which nothing has changed. OutOfMemory where there is
    /// none; then the ground comes back.
    pub fn of_parts(
        alloc: Global,
        ground: G,
        opened: Opened,
    ) -> Result<VolumeOn<G>, (G, OutOfMemory)>
        requires { Steady (size_of (G.state ground)) (loaded.known_of opened) }
        ensures ground { IfOk result (λ w. w.disk ≡ ground) }
        ensures known { IfOk result (λ w. w.known ≡ loaded.known_of opened) }
        ensures noted { IfOk result (λ w. IsAtPoint w.known) }
    {
        match nothing_noted(alloc, ItemId(0)) {
            Ok(then) => Ok(VolumeOn {
                ground,
                parts: parts_of(alloc, then, opened),
            }),
            Err(_) => {
                drop(opened);
                Err((ground, OutOfMemory))
            }
        }
    }
}
