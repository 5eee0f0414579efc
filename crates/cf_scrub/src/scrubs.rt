//! Judging the bytes of a device.

ghost use Rattle.std.specs.Prelude.{◌≡◌, ◌↔◌, ◌∷◌, [], IfOk, IsTrue};
ghost use Rattle.cf_disk.specs.Disk.{size_of};
ghost use Rattle.cf_disk.specs.MemState.{mem_state};
ghost use Rattle.cf_journal.specs.Settled.{IsFitSize};
ghost use Rattle.cf_scrub.specs.Judgements.{AreDamages, IsFit, IsJudgement, IsState};
ghost use Rattle.cf_scrub.specs.States.{damage};
ghost use Rattle.cf_volume_commit.specs.Damages.{IsDamage};
ghost use Rattle.cf_volume_commit.specs.Loaded.{IsNoVolume};

use crate::damages::{Damage, DamageKind};
use crate::judgements::Judgement;
use crate::laws::no_damage_is_a_volume;
use crate::state_reads::read_state;
use crate::states::damages_of;
use cf_base::{OutOfMemory, no_such_state};
use cf_disk::{Disk, MemDisk};
use cf_journal::{LARGEST_SIZE, LEAST_SIZE, read};
use cf_volume_commit::{Damage as Cause, FindError, read_volume};
use std::alloc::Global;

const BLOCK: u64 = 4096;

fn is_fit(size: u64) -> bool
    ensures { IsTrue result ↔ IsFit size }
{
    LEAST_SIZE <= size && size <= LARGEST_SIZE && size % BLOCK == 0
}

// A list of one damage.
fn one(alloc: Global, kind: DamageKind, at: u64) -> Result<Vec<Damage>, OutOfMemory>
    ensures { IfOk result (λ v. v.items ≡ damage kind at ∷ []) }
{
    let mut list = Vec::new(alloc);
    list.push(Damage { kind, at })?;
    Ok(list)
}

// A disk of these bytes.
fn disk_of(alloc: Global, image: &[u8]) -> Result<MemDisk, OutOfMemory>
    ensures { IfOk result (λ d. (mem_state d).seen ≡ image.now) }
{
    let mut disk = MemDisk::new(alloc, image.len() as u64)?;
    match disk.write(0, image) {
        Ok(()) => Ok(disk),
        Err(_) => {
            drop(disk);
            Err(no_such_state())
        }
    }
}

// All damages of the state that is spelled on the disk and is none of a volume.
fn state_damages(alloc: Global, disk: &mut MemDisk) -> Result<Vec<Damage>, OutOfMemory>
    requires size { IsFitSize (size_of (mem_state disk.old)) }
    requires none { IsNoVolume (mem_state disk.old).seen }
    ensures list { IfOk result (λ v. IsState (mem_state disk.old).seen v.items) }
    ensures some { IfOk result (λ v. v.items ≡ [] → ⊥) }
{
    no_damage_is_a_volume();
    let clusters = ((disk.size() - LEAST_SIZE) / BLOCK) as u32;
    let found = match read(alloc, disk) {
        Ok(found) => found,
        Err(_) => return Err(no_such_state()),
    };
    if found.overruns {
        drop(found);
        return Err(no_such_state());
    }
    let format = found.format;
    let contents = read_state(
        alloc,
        found.image.as_slice(),
        found.payloads.as_slice(),
        format,
    );
    drop(found);
    let contents = contents?;
    let list = damages_of(alloc, &contents, format, clusters);
    drop(contents);
    list
}

// The damages of what is spelled on the disk, by the first thing that is wrong.
fn list_of(alloc: Global, disk: &mut MemDisk, first: Cause) -> Result<Vec<Damage>, OutOfMemory>
    requires size { IsFitSize (size_of (mem_state disk.old)) }
    requires wrong { IsDamage (mem_state disk.old).seen first }
    requires none { IsNoVolume (mem_state disk.old).seen }
    ensures list { IfOk result (λ v. AreDamages (mem_state disk.old).seen v.items) }
    ensures some { IfOk result (λ v. v.items ≡ [] → ⊥) }
{
    match first {
        Cause::NoSlot => one(alloc, DamageKind::NoSlot, 0),
        Cause::Image(at) => one(alloc, DamageKind::Image, at),
        Cause::Record(at) => one(alloc, DamageKind::Record, at),
        Cause::Unsound => state_damages(alloc, disk),
    }
}

fn judged(alloc: Global, disk: &mut MemDisk) -> Result<Judgement, OutOfMemory>
    requires size { IsFit (size_of (mem_state disk.old)) }
    ensures { IfOk result (IsJudgement (mem_state disk.old).seen) }
{
    match read_volume(alloc, disk) {
        Ok(volume) => {
            let count = volume.1.count;
            let epoch = volume.1.last.epoch;
            drop(volume);
            Ok(Judgement::Clean { count, epoch })
        }
        Err(FindError::Damaged(first)) => Ok(Judgement::Damaged(list_of(alloc, disk, first)?)),
        Err(FindError::Device) => Err(no_such_state()),
        Err(FindError::OutOfMemory) => Err(OutOfMemory),
    }
}

/// Judges the bytes of a device. Clean, with the volume's count of changes and its epoch, exactly where their size is one of a
/// device and they are those of a volume. Damaged exactly where they are not: with the size where it is none of a device, with the
/// first field that is not spelled, or else with all damages of the state that is spelled, at least one. OutOfMemory where
/// there is none.
pub fn scrub(alloc: Global, image: &[u8]) -> Result<Judgement, OutOfMemory>
    ensures { IfOk result (IsJudgement image.now) }
{
    let size = image.len() as u64;
    if !is_fit(size) {
        return Ok(Judgement::Damaged(one(alloc, DamageKind::Size, size)?));
    }
    let mut disk = disk_of(alloc, image)?;
    let judgement = judged(alloc, &mut disk);
    drop(disk);
    judgement
}
