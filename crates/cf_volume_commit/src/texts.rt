//! A text put into a journal.

ghost use Rattle.std.specs.Prelude.{◌≡◌, ◌≤◌, ◌+◌, length, false, Err, IfErr, IfSome, OnOk, option_copied};
ghost use Rattle.cf_base.specs.declared.limits.TheConstants.{MOST_IMAGE_BYTES};
ghost use Rattle.cf_volume_commit.specs.Leading.{CanBeWritten, Follows, bytes_written, text_in};
ghost use Rattle.cf_disk.specs.Disk.{size_of, may_fail, Only, Leaves, Counts};
ghost use Rattle.cf_volume_image.specs.Contents.{image_of};
ghost use Rattle.cf_journal.specs.Content.{Content, IsBeforeOrAfter, appended, clusters, rewritten};
ghost use Rattle.cf_journal.specs.Settled.{HasRoom, IsFitSize, Settled};
ghost use Rattle.cf_model.specs.Formats.{Image, spell_image};
ghost use Rattle.cf_volume_points.specs.Runs.{IsStop};
ghost use Rattle.cf_volume_points.specs.Saving.{IsSaving, Saved};
ghost use Rattle.cf_volume_points.specs.declared.stops.Stop.TheVariants.{OutOfMemory};

use cf_base::Blob;
use cf_disk::Disk;
use cf_journal::Journal;
use cf_volume_image::{Contents, spell_image};
use cf_volume_points::Stop;
use std::alloc::Global;

// Adds a payload behind the others.
fn append<D: Disk>(disk: &mut D, journal: &mut Journal, text: &[u8]) -> Result<(), Stop>
    requires room { HasRoom journal.old (length text.now) }
    requires size { IsFitSize (size_of (D.state disk.old)) }
    requires usable { journal.old.broken ≡ false }
    ensures ok { (x : Content) → Settled journal.old (D.state disk.old) x → OnOk result (Settled journal.new (D.state disk.new) (appended x text.now)) }
    ensures crash { (x : Content) → Settled journal.old (D.state disk.old) x
        → Leaves (D.state disk.old) (D.state disk.new) (IsBeforeOrAfter (D.state disk.old) x (appended x text.now)) }
    ensures durable { OnOk result (Only (D.state disk.new).seen (D.state disk.new)) }
    ensures rest { OnOk result (clusters (D.state disk.new).seen ≡ clusters (D.state disk.old).seen) }
    ensures counts { Counts (6 + length text.now) result (D.state disk.old) (D.state disk.new) }
    ensures same_size { size_of (D.state disk.new) ≡ size_of (D.state disk.old) }
    ensures powers { (D.state disk.new).powers ≡ (D.state disk.old).powers }
    ensures settings { (D.state disk.new).settings ≡ (D.state disk.old).settings }
    ensures faults { (D.state disk.old).faults ≤ (D.state disk.new).faults }
    ensures calm { may_fail (D.state disk.new).armed ≤ may_fail (D.state disk.old).armed }
    ensures cause { IfErr result (λ e. IsStop e (D.state disk.old) (D.state disk.new)) }
    ensures not_memory { result ≡ Err OutOfMemory → ⊥ }
    ensures usable { OnOk result (journal.new.broken ≡ false) }
{
    match journal.append(disk, text) {
        Ok(()) => Ok(()),
        Err(_) => Err(Stop::Device),
    }
}

// Puts an image in place of all.
fn rewrite<D: Disk>(disk: &mut D, journal: &mut Journal, image: &[u8]) -> Result<(), Stop>
    requires short { length image.now ≤ MOST_IMAGE_BYTES }
    requires size { IsFitSize (size_of (D.state disk.old)) }
    requires usable { journal.old.broken ≡ false }
    ensures ok { (x : Content) → Settled journal.old (D.state disk.old) x → OnOk result (Settled journal.new (D.state disk.new) (rewritten image.now)) }
    ensures crash { (x : Content) → Settled journal.old (D.state disk.old) x
        → Leaves (D.state disk.old) (D.state disk.new) (IsBeforeOrAfter (D.state disk.old) x (rewritten image.now)) }
    ensures durable { OnOk result (Only (D.state disk.new).seen (D.state disk.new)) }
    ensures rest { OnOk result (clusters (D.state disk.new).seen ≡ clusters (D.state disk.old).seen) }
    ensures counts { Counts (30 + length image.now) result (D.state disk.old) (D.state disk.new) }
    ensures same_size { size_of (D.state disk.new) ≡ size_of (D.state disk.old) }
    ensures powers { (D.state disk.new).powers ≡ (D.state disk.old).powers }
    ensures settings { (D.state disk.new).settings ≡ (D.state disk.old).settings }
    ensures faults { (D.state disk.old).faults ≤ (D.state disk.new).faults }
    ensures calm { may_fail (D.state disk.new).armed ≤ may_fail (D.state disk.old).armed }
    ensures cause { IfErr result (λ e. IsStop e (D.state disk.old) (D.state disk.new)) }
    ensures not_memory { result ≡ Err OutOfMemory → ⊥ }
    ensures usable { OnOk result (journal.new.broken ≡ false) }
{
    match journal.rewrite(disk, image) {
        Ok(()) => Ok(()),
        Err(_) => Err(Stop::Device),
    }
}

// The text, where there is one and it has room.
fn fitting<'a>(journal: &Journal, text: &'a Option<Blob>) -> Option<&'a [u8]>
    ensures text { option_copied result ≡ text_in journal.now text.now }
    ensures room { IfSome result (λ t. HasRoom journal.now (length t.now)) }
{
    match text {
        None => None,
        Some(text) => {
            if journal.fits(text.as_slice().len()) {
                Some(text.as_slice())
            } else {
                None
            }
        }
    }
}

/// Makes the contents durable: appends the text where there is one and it has room, else writes the whole image.
pub(crate) fn put_text<D: Disk>(
    alloc: Global,
    disk: &mut D,
    journal: &mut Journal,
    contents: &Contents,
    text: &Option<Blob>,
) -> Result<(), Stop>
    requires size { IsFitSize (size_of (D.state disk.old)) }
    requires usable { journal.old.broken ≡ false }
    requires written { CanBeWritten contents.now }
    ensures saved { (x : Content) (image : Image) → Settled journal.old (D.state disk.old) x → Follows x text.now image contents.now
        → OnOk result (Saved journal.new (D.state disk.new) (image_of contents.now)) }
    ensures crash { (x : Content) (image : Image) → Settled journal.old (D.state disk.old) x → Follows x text.now image contents.now
        → Leaves (D.state disk.old) (D.state disk.new) (IsSaving (D.state disk.old) x (image_of contents.now)) }
    ensures durable { OnOk result (Only (D.state disk.new).seen (D.state disk.new)) }
    ensures rest { OnOk result (clusters (D.state disk.new).seen ≡ clusters (D.state disk.old).seen) }
    ensures counts { Counts (bytes_written journal.old text.now (spell_image (image_of contents.now))) result (D.state disk.old) (D.state disk.new) }
    ensures same_size { size_of (D.state disk.new) ≡ size_of (D.state disk.old) }
    ensures powers { (D.state disk.new).powers ≡ (D.state disk.old).powers }
    ensures settings { (D.state disk.new).settings ≡ (D.state disk.old).settings }
    ensures faults { (D.state disk.old).faults ≤ (D.state disk.new).faults }
    ensures calm { may_fail (D.state disk.new).armed ≤ may_fail (D.state disk.old).armed }
    ensures cause { IfErr result (λ e. IsStop e (D.state disk.old) (D.state disk.new)) }
    ensures memory { result ≡ Err OutOfMemory → (journal.new ≡ journal.old) × (disk.new ≡ disk.old) }
    ensures usable { OnOk result (journal.new.broken ≡ false) }
{
    match fitting(journal, text) {
        Some(text) => append(disk, journal, text),
        None => {
            let image = spell_image(alloc, contents)?;
            rewrite(disk, journal, image.as_slice())
        }
    }
}
