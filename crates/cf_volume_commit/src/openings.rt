//! Openings.

ghost use Rattle.std.specs.Prelude.{◌≡◌, ◌≤◌, ◌<◌, ◌+◌, [], ◌⊎◌, ℕ, List, Some, None, map, false, true, Err, IfErr, IfOk, IsOk, OnOk};
ghost use Rattle.cf_base.specs.declared.changes.Change.{Change};
ghost use Rattle.cf_base.specs.declared.codes.Code.TheVariants as code;
ghost use Rattle.cf_base.specs.declared.codes.CallError.TheVariants as fail;
ghost use Rattle.cf_base.specs.declared.ids.Usn.{Usn};
ghost use Rattle.cf_volume_commit.specs.Leading.{CanBeWritten, bytes_written};
ghost use Rattle.cf_volume_commit.specs.Loaded.{Finds, HoldsImage, HoldsSecond, IsNoVolume, StandsOrWas, StandsThen, fail_of, known_of, number_after, opening_bytes, raised_image};
ghost use Rattle.cf_clusters.specs.Roles.{Opens, committed};
ghost use Rattle.cf_disk.specs.Disk.{size_of, capped, may_fail, Counts, HasFailed, Only, Leaves};
ghost use Rattle.cf_volume_image.specs.Contents.{image_of, payload_of};
ghost use Rattle.cf_volume_image.specs.Spelled.{AreRecordsFrom};
ghost use Rattle.cf_journal.specs.Content.{Content, Stands, clusters};
ghost use Rattle.cf_journal.specs.Settled.{IsFitSize};
ghost use Rattle.cf_journal.specs.Steps.{ReadsOnly};
ghost use Rattle.cf_model.specs.Books.{Book};
ghost use Rattle.cf_model.specs.Formats.{Image, spell_image, spell_payload};
ghost use Rattle.cf_model.specs.Numbers.{most, usn_after};
ghost use Rattle.cf_model.specs.Standing.{are_apart, clusters_of};
ghost use Rattle.cf_volume_points.specs.At.{At};
ghost use Rattle.cf_volume_points.specs.Runs.{IsStop};
ghost use Rattle.cf_volume_points.specs.Saving.{IsSaving, Saved};
ghost use Rattle.cf_volume_points.specs.Sound.{Sound};
ghost use Rattle.cf_volume_points.specs.Standing.{Standing, clusters_for, opened};
ghost use Rattle.cf_volume_points.specs.declared.stops.Stop.TheVariants as stop;
ghost use Rattle.cf_table.specs.Changing.{IsNext};
ghost use Rattle.cf_table.specs.Spelling.{row_value};
ghost use Rattle.cf_table.specs.Tables.{AreTableRows, RisesFrom};

use crate::damages::FindError;
use crate::findings::{clusters_of_disk, limit_of, read_volume};
use crate::parts::Parts;
use crate::ranges::has_an_image;
use crate::texts::put_text;
use cf_base::{CallError, Code, OutOfMemory, Usn};
use cf_clusters::Data;
use cf_disk::Disk;
use cf_journal::{Journal, one_content};
use cf_volume_image::{Contents, clusters_of, spell_payload};
use cf_volume_points::Stop;
use std::alloc::Global;

fn refused(why: FindError) -> CallError
    ensures { result ≡ fail_of why }
{
    match why {
        FindError::Damaged(_damage) => CallError::No(Code::NotAVolume),
        FindError::Device => CallError::No(Code::Device),
        FindError::OutOfMemory => CallError::OutOfMemory,
    }
}

/// So many clusters, of which those of the rows are held. OutOfMemory where there is none.
pub fn data_of(alloc: Global, contents: &Contents, clusters: u32) -> Result<Data, OutOfMemory>
    requires { are_apart clusters (clusters_of (map row_value contents.now.rows.rows)) ≡ true }
    ensures { IfOk result (Opens clusters (clusters_of (map row_value contents.now.rows.rows))) }
{
    let held = clusters_of(alloc, contents.rows.as_slice())?;
    Data::new(alloc, clusters, &held)
}

// Appends a payload of the header alone, or writes the whole image, and commits the clusters.
pub(crate) fn raise<D: Disk>(alloc: Global, disk: &mut D, parts: &mut Parts) -> Result<(), Stop>
    requires size { IsFitSize (size_of (D.state disk.old)) }
    requires usable { parts.old.journal.broken ≡ false }
    requires written { CanBeWritten parts.old.contents }
    ensures contents { parts.new.contents ≡ parts.old.contents }
    ensures limit { parts.new.limit ≡ parts.old.limit }
    ensures rise { RisesFrom 0 parts.old.contents.rows.rows }
    ensures kept { AreTableRows parts.old.contents.rows.rows }
    ensures keys_rise { AreRecordsFrom None parts.old.contents.records }
    ensures saved { (x : Content) (image : Image) → StandsThen parts.old (D.state disk.old) x image → OnOk result (Saved parts.new.journal (D.state disk.new) (image_of parts.old.contents)) }
    ensures crash { (x : Content) (image : Image) → StandsThen parts.old (D.state disk.old) x image
        → Leaves (D.state disk.old) (D.state disk.new) (IsSaving (D.state disk.old) x (image_of parts.old.contents)) }
    ensures held { OnOk result (parts.new.held ≡ map committed parts.old.held) }
    ensures durable { OnOk result (Only (D.state disk.new).seen (D.state disk.new)) }
    ensures rest { OnOk result (clusters (D.state disk.new).seen ≡ clusters (D.state disk.old).seen) }
    ensures counts { Counts (bytes_written parts.old.journal (Some (spell_payload (payload_of parts.old.contents [] [] [] []))) (spell_image (image_of parts.old.contents))) result (D.state disk.old) (D.state disk.new) }
    ensures same_size { size_of (D.state disk.new) ≡ size_of (D.state disk.old) }
    ensures powers { (D.state disk.new).powers ≡ (D.state disk.old).powers }
    ensures settings { (D.state disk.new).settings ≡ (D.state disk.old).settings }
    ensures faults { (D.state disk.old).faults ≤ (D.state disk.new).faults }
    ensures calm { may_fail (D.state disk.new).armed ≤ may_fail (D.state disk.old).armed }
    ensures cause { IfErr result (λ e. IsStop e (D.state disk.old) (D.state disk.new)) }
    ensures memory { result ≡ Err stop.OutOfMemory → disk.new ≡ disk.old }
    ensures usable { OnOk result (parts.new.journal.broken ≡ false) }
{
    has_an_image(&parts.contents);
    let payload = spell_payload(alloc, &parts.contents, &[], &[], &[], &[])?;
    let text = Some(payload);
    let put = put_text(alloc, disk, &mut parts.journal, &parts.contents, &text);
    drop(text);
    put?;
    parts.held.committed();
    Ok(())
}

// The number before the first one of the next epoch; none after the last epoch.
fn number_after(epoch: u32) -> Result<Usn, CallError>
    ensures ok { IfOk result (λ n. n ≡ number_after epoch) }
    ensures fits { IfOk result (λ n. epoch < most) }
    ensures last { IfErr result (λ e. (e ≡ fail.No code.Exhausted) × (epoch ≡ most)) }
{
    if epoch == u32::MAX {
        return Err(CallError::No(Code::Exhausted));
    }
    Ok(Usn {
        epoch: epoch + 1,
        place: 0,
    })
}

// The parts of an opened journal and of the contents that it tells, with the epoch raised in them and not yet on the disk.
fn parts_of(
    alloc: Global,
    journal: Journal,
    mut contents: Contents,
    clusters: u32,
    limit: u32,
) -> Result<Parts, CallError>
    requires { are_apart clusters (clusters_of (map row_value contents.rows.rows)) ≡ true }
    ensures journal { IfOk result (λ p. p.journal ≡ journal) }
    ensures below { IfOk result (λ p. contents.last.epoch < most) }
    ensures image { IfOk result (λ p. image_of p.contents ≡ raised_image contents.last.epoch (image_of contents)) }
    ensures rows { IfOk result (λ p. p.contents.rows.rows ≡ contents.rows.rows) }
    ensures held { IfOk result (λ p. Opens clusters (clusters_of (map row_value p.contents.rows.rows)) p.held) }
    ensures limit { IfOk result (λ p. p.limit ≡ limit) }
    ensures last { result ≡ Err (fail.No code.Exhausted) → contents.last.epoch ≡ most }
    ensures only { IfErr result (λ e. (e ≡ fail.No code.Exhausted) ⊎ (e ≡ fail.OutOfMemory)) }
{
    let last = match number_after(contents.last.epoch) {
        Ok(last) => last,
        Err(error) => {
            drop(contents);
            return Err(error);
        }
    };
    let held = match data_of(alloc, &contents, clusters) {
        Ok(held) => held,
        Err(memory) => {
            drop(contents);
            return Err(CallError::from(memory));
        }
    };
    contents.last = last;
    Ok(Parts {
        journal,
        held,
        contents,
        limit,
    })
}

// Finds what the disk holds, and only reads: the epoch is raised in the parts and not yet on the disk.
fn find<D: Disk>(alloc: Global, disk: &mut D) -> Result<Parts, CallError>
    requires { IsFitSize (size_of (D.state disk.old)) }
    ensures found { IfOk result (λ p. (x : Content) × Finds (D.state disk.old) (D.state disk.new) x p) }
    ensures none { result ≡ Err (fail.No code.NotAVolume) → IsNoVolume (D.state disk.old).seen }
    ensures last { result ≡ Err (fail.No code.Exhausted) → (i : Image) × HoldsImage (D.state disk.old).seen i × (i.header.last.epoch ≡ most) }
    ensures reads { ReadsOnly (D.state disk.old) (D.state disk.new) }
    ensures cause { result ≡ Err (fail.No code.Device) → HasFailed (D.state disk.old) (D.state disk.new) }
    ensures only { IfErr result (λ e. (e ≡ fail.No code.NotAVolume) ⊎ ((e ≡ fail.No code.Exhausted) ⊎ ((e ≡ fail.No code.Device) ⊎ (e ≡ fail.OutOfMemory)))) }
{
    one_content();
    let clusters = clusters_of_disk(disk);
    let limit = limit_of(disk, clusters);
    match read_volume(alloc, disk) {
        Ok(volume) => parts_of(alloc, volume.0.journal, volume.1, clusters, limit),
        Err(why) => Err(refused(why)),
    }
}

/// Opens the volume on the disk, which may be of either format, and raises its epoch by one: that is appended to a journal
/// of format 2 with room for it in 54 bytes, and else a whole image of format 2 is written into the other slot. NotAVolume exactly where the disk holds no image of a volume, and Exhausted exactly where it holds one of the
/// last epoch; both before anything is written. Device where a call of the disk failed, whose count of faults rose. OutOfMemory
/// where there is none.
///
/// A crash at any moment leaves what it might have left before, or the same changes and book, with the epoch as it was or
/// raised.
pub fn load<D: Disk>(alloc: Global, disk: &mut D) -> Result<Parts, CallError>
    requires { IsFitSize (size_of (D.state disk.old)) }
    ensures ok { (e : ℕ) (log : List (Usn × Change)) (b : Book) → Standing e (D.state disk.old).seen log b
        → IfOk result (λ p. At (D.state disk.new) (known_of p) (opened (e + 1) log b (clusters_for (D.state disk.old)))) }
    ensures found { IfOk result (λ p. (i : Image) × HoldsImage (D.state disk.old).seen i × (i.header.last.epoch < most) × (image_of p.contents ≡ raised_image i.header.last.epoch i)) }
    ensures holds { IfOk result (λ p. HoldsSecond (D.state disk.new).seen (image_of p.contents)) }
    ensures rest { OnOk result (clusters (D.state disk.new).seen ≡ clusters (D.state disk.old).seen) }
    ensures absent { result ≡ Err (fail.No code.NotAVolume) → IsNoVolume (D.state disk.old).seen }
    ensures exhausted { result ≡ Err (fail.No code.Exhausted) → (i : Image) × HoldsImage (D.state disk.old).seen i × (i.header.last.epoch ≡ most) }
    ensures unwritten { (result ≡ Err (fail.No code.NotAVolume)) ⊎ (result ≡ Err (fail.No code.Exhausted)) → ReadsOnly (D.state disk.old) (D.state disk.new) }
    ensures none { result ≡ Err (fail.No code.NotAVolume) → (e : ℕ) (log : List (Usn × Change)) (b : Book) → Standing e (D.state disk.old).seen log b → ⊥ }
    ensures last { (e : ℕ) (log : List (Usn × Change)) (b : Book) → Standing e (D.state disk.old).seen log b → (result ≡ Err (fail.No code.Exhausted) → e ≡ most) × (IsOk result → e < most) }
    ensures crash { (e : ℕ) (log : List (Usn × Change)) (b : Book) → Standing e (D.state disk.old).seen log b
        → Leaves (D.state disk.old) (D.state disk.new) (StandsOrWas e log b (D.state disk.old)) }
    ensures sound { IfOk result (λ p. Sound (size_of (D.state disk.old)) (known_of p)) }
    ensures later { IfOk result (λ p. IsNext (usn_after p.contents.last.epoch p.contents.last.place) p.contents.rows.rows) }
    ensures usable { IfOk result (λ p. p.journal.broken ≡ false) }
    ensures written { (x : Content) → Stands (D.state disk.old).seen x → IfOk result (λ p. (D.state disk.new).written ≡ capped ((D.state disk.old).written + opening_bytes x (image_of p.contents))) }
    ensures at_most { (D.state disk.new).written ≤ (D.state disk.old).written + 1306654 }
    ensures same_size { size_of (D.state disk.new) ≡ size_of (D.state disk.old) }
    ensures powers { (D.state disk.new).powers ≡ (D.state disk.old).powers }
    ensures settings { (D.state disk.new).settings ≡ (D.state disk.old).settings }
    ensures faults { (D.state disk.old).faults ≤ (D.state disk.new).faults }
    ensures calm { may_fail (D.state disk.new).armed ≤ may_fail (D.state disk.old).armed }
    ensures cause { result ≡ Err (fail.No code.Device) → HasFailed (D.state disk.old) (D.state disk.new) }
    ensures only { IfErr result (λ e. (e ≡ fail.No code.NotAVolume) ⊎ ((e ≡ fail.No code.Exhausted) ⊎ ((e ≡ fail.No code.Device) ⊎ (e ≡ fail.OutOfMemory)))) }
{
    one_content();
    let mut parts = find(alloc, disk)?;
    match raise(alloc, disk, &mut parts) {
        Ok(()) => Ok(parts),
        Err(Stop::Device) => {
            drop(parts);
            Err(CallError::No(Code::Device))
        }
        Err(Stop::OutOfMemory) => {
            drop(parts);
            Err(CallError::OutOfMemory)
        }
    }
}
