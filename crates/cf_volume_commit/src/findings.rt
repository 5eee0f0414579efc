//! What a disk holds, and what is wrong where that is no volume.

ghost use Rattle.std.specs.Prelude.{◌≡◌, ◌<◌, ◌+◌, ℕ, false, All, IfErr, IfOk, OnOk};
ghost use Rattle.cf_disk.specs.Disk.{size_of, Only};
ghost use Rattle.cf_journal.specs.Format.{journal_len, size_of_records};
ghost use Rattle.cf_journal.specs.Places.{IsFound, IsOpened};
ghost use Rattle.cf_journal.specs.Settled.{IsFitSize, Settled};
ghost use Rattle.cf_journal.specs.Steps.{ReadsOnly};
ghost use Rattle.cf_model.specs.Formats.{Image};
ghost use Rattle.cf_table.specs.Spelling.{HasRoom};
ghost use Rattle.cf_volume_commit.specs.Damages.{IsFault, IsFindCause, IsFoundCause, content_of, find_error};
ghost use Rattle.cf_volume_image.specs.Causes.{IsCause, IsKnown};
ghost use Rattle.cf_volume_image.specs.declared.failures.ImageError.TheVariants as image;
ghost use Rattle.cf_volume_image.specs.Contents.{image_of};
ghost use Rattle.cf_volume_image.specs.States.{IsContentsIn};
ghost use Rattle.cf_volume_points.specs.Standing.{clusters_for, clusters_on};

use crate::damages::{Damage, FindError};
use cf_base::{OutOfMemory, no_such_state};
use cf_disk::Disk;
use cf_journal::{Found, JournalError, Opened, one_content, read};
use cf_volume_image::{Contents, ImageError, read_contents};
use std::alloc::Global;

// A field of a text that begins here. The text lies in the disk, so the sum is never too great.
fn field_at(start: u64, place: usize) -> Result<u64, OutOfMemory>
    ensures { IfOk result (λ at. at ≡ start + place) }
{
    match start.checked_add(place as u64) {
        Some(at) => Ok(at),
        None => Err(no_such_state()),
    }
}

// A state that is none of a volume, or what stands before it: a record that does not fit.
fn unsound(found: &Found) -> Damage
    requires { size_of_records found.now.payloads < journal_len found.now.format }
    ensures { (clusters : ℕ) → IsCause found.now.format found.now.image found.now.payloads clusters image.Unsound → IsFault found.now clusters result }
{
    if found.overruns {
        Damage::Record(found.record_at(found.payloads.as_slice().len()))
    } else {
        Damage::Unsound
    }
}

// Where that is in the disk.
fn damage_of(found: &Found, fault: ImageError) -> Result<Damage, OutOfMemory>
    requires { size_of_records found.now.payloads < journal_len found.now.format }
    ensures damage { (clusters : ℕ) → IsCause found.now.format found.now.image found.now.payloads clusters fault → IfOk result (IsFault found.now clusters) }
    ensures known { OnOk result (IsKnown fault) }
{
    match fault {
        ImageError::Image(place) => Ok(Damage::Image(field_at(found.image_at(), place)?)),
        ImageError::Payload(number, place) => {
            Ok(Damage::Record(field_at(found.record_at(number) + 4, place)?))
        }
        ImageError::Unsound => Ok(unsound(found)),
        ImageError::OutOfMemory => Err(OutOfMemory),
    }
}

// The contents that were found, where each record fits the journal.
fn contents_of(alloc: Global, found: &Found, clusters: u32) -> Result<Contents, FindError>
    requires { size_of_records found.now.payloads < journal_len found.now.format }
    ensures ok { IfOk result (λ c. IsContentsIn found.now.format found.now.image found.now.payloads clusters (image_of c)) }
    ensures whole { OnOk result (found.now.overruns ≡ false) }
    ensures room { IfOk result (λ c. All HasRoom c.rows.rows) }
    ensures cause { IfErr result (IsFoundCause found.now clusters) }
{
    match read_contents(
        alloc,
        found.image.as_slice(),
        found.payloads.as_slice(),
        found.format,
        clusters,
    ) {
        Ok(contents) => {
            if found.overruns {
                drop(contents);
                let length = found.record_at(found.payloads.as_slice().len());
                return Err(FindError::Damaged(Damage::Record(length)));
            }
            Ok(contents)
        }
        Err(fault) => Err(FindError::Damaged(damage_of(found, fault)?)),
    }
}

fn refused(why: JournalError) -> FindError
    ensures { result ≡ find_error why }
{
    match why {
        JournalError::Failed => FindError::Device,
        JournalError::NotAVolume => FindError::Damaged(Damage::NoSlot),
        JournalError::Broken => FindError::Device,
        JournalError::OutOfMemory => FindError::OutOfMemory,
    }
}

// Reads the journal.
fn journal_of<D: Disk>(alloc: Global, disk: &mut D) -> Result<Found, FindError>
    requires { IsFitSize (size_of (D.state disk.old)) }
    ensures found { IfOk result (λ f. IsFound f (D.state disk.old).seen) }
    ensures durable { OnOk result (Only (D.state disk.old).seen (D.state disk.new)) }
    ensures reads { ReadsOnly (D.state disk.old) (D.state disk.new) }
    ensures cause { IfErr result (IsFindCause (D.state disk.old) (D.state disk.new)) }
{
    match read(alloc, disk) {
        Ok(found) => Ok(found),
        Err(why) => Err(refused(why)),
    }
}

// How many clusters the disk has behind the journal's halves.
pub(crate) fn clusters_of_disk<D: Disk>(disk: &D) -> u32
    requires { IsFitSize (size_of (D.state disk.now)) }
    ensures { result ≡ clusters_on (D.state disk.now).seen }
{
    ((disk.size() - 3_145_728) / 4096) as u32
}

/// How many of so many clusters of a disk a volume on it may use.
pub(crate) fn limit_of<D: Disk>(disk: &D, clusters: u32) -> u32
    requires { clusters ≡ clusters_on (D.state disk.now).seen }
    ensures { result ≡ clusters_for (D.state disk.now) }
{
    let quota = disk.quota();
    if quota < clusters as u64 {
        quota as u32
    } else {
        clusters
    }
}

fn opened(found: Found, contents: Contents) -> (Opened, Contents)
    requires { found.overruns ≡ false }
    ensures journal { IsOpened found result.0 }
    ensures contents { result.1 ≡ contents }
{
    match found.open() {
        Some(opened) => (opened, contents),
        None => unreachable!(),
    }
}

/// Reads the volume on the disk: its journal, opened, and what that tells of the volume's items. It only syncs and reads.
/// Damaged exactly where the disk holds no volume, with the first thing that is wrong. Device where a call of the disk failed,
/// whose count of faults rose. OutOfMemory where there is none.
pub fn read_volume<D: Disk>(alloc: Global, disk: &mut D) -> Result<(Opened, Contents), FindError>
    requires { IsFitSize (size_of (D.state disk.old)) }
    ensures opened { IfOk result (λ v. Settled v.0.journal (D.state disk.new) (content_of v.0)) }
    ensures told { IfOk result (λ v. IsContentsIn v.0.format v.0.image v.0.payloads (clusters_on (D.state disk.old).seen) (image_of v.1)) }
    ensures room { IfOk result (λ v. All HasRoom v.1.rows.rows) }
    ensures durable { OnOk result (Only (D.state disk.old).seen (D.state disk.new)) }
    ensures reads { ReadsOnly (D.state disk.old) (D.state disk.new) }
    ensures cause { IfErr result (IsFindCause (D.state disk.old) (D.state disk.new)) }
{
    one_content();
    let clusters = clusters_of_disk(disk);
    let found = journal_of(alloc, disk)?;
    match contents_of(alloc, &found, clusters) {
        Ok(contents) => Ok(opened(found, contents)),
        Err(error) => {
            drop(found);
            Err(error)
        }
    }
}
