//! Commits.

ghost use Rattle.std.specs.Prelude.{◌≡◌, ◌≤◌, map, All, false, None, Err, IfErr, IfOk, OnErr, OnOk};
ghost use Rattle.cf_volume_commit.specs.Differing.{IsThen, text_of};
ghost use Rattle.cf_volume_commit.specs.Leading.{CanBeWritten, HaveStoredPins, bytes_written};
ghost use Rattle.cf_clusters.specs.Roles.{committed};
ghost use Rattle.cf_disk.specs.Disk.{size_of, may_fail, Only, Leaves, Counts};
ghost use Rattle.cf_volume_image.specs.Contents.{image_of};
ghost use Rattle.cf_volume_image.specs.Spelled.{AreRecordsFrom};
ghost use Rattle.cf_volume_image.specs.States.{TellsIn};
ghost use Rattle.cf_journal.specs.Content.{Content, clusters};
ghost use Rattle.cf_journal.specs.Settled.{IsFitSize, Settled};
ghost use Rattle.cf_model.specs.Formats.{Image, spell_image};
ghost use Rattle.cf_volume_points.specs.Runs.{IsStop};
ghost use Rattle.cf_volume_points.specs.Saving.{IsSaving, Saved};
ghost use Rattle.cf_volume_points.specs.declared.stops.Stop.TheVariants as stop;
ghost use Rattle.cf_table.specs.Spelling.{HasRoom};

use crate::differences::what_differs;
use crate::ranges::{has_an_image, stands_in_order};
use crate::texts::put_text;
use cf_base::{Blob, OutOfMemory};
use cf_clusters::Data;
use cf_disk::Disk;
use cf_journal::Journal;
use cf_volume_image::{Contents, spell_payload};
use cf_volume_points::{Earlier, Stop};
use std::alloc::Global;

// The payload of what differs, where its lists are short.
fn payload_text(
    alloc: Global,
    contents: &Contents,
    then: &Earlier,
) -> Result<Option<Blob>, OutOfMemory>
    requires { All HasRoom contents.now.rows.rows }
    ensures { IfOk result (λ text. text ≡ text_of then.now contents.now) }
{
    let lists = what_differs(alloc, then, contents)?;
    if !lists.are_short() {
        drop(lists);
        return Ok(None);
    }
    let text = spell_payload(
        alloc,
        contents,
        &lists.removed,
        &lists.changed,
        &lists.removed_keys,
        &lists.changed_keys,
    );
    drop(lists);
    Ok(Some(text?))
}

/// Makes what a volume says of its items durable, together with the bytes that its clusters hold, and commits the
/// clusters: appends a payload of what differs from the last point, which `then` tells, where that has room in the journal,
/// and else writes the whole image. The rows have room in their spelling, there are at most 10,000, and the image is within
/// its limit. Device where a call of the disk failed, whose count of faults rose; then open the disk again. OutOfMemory where
/// there is none; then nothing is done.
///
/// A crash at any moment leaves what stood before, or the contents now; refused or not.
pub fn save<D: Disk>(
    alloc: Global,
    disk: &mut D,
    journal: &mut Journal,
    held: &mut Data,
    contents: &Contents,
    then: &Earlier,
) -> Result<(), Stop>
    requires size { IsFitSize (size_of (D.state disk.old)) }
    requires usable { journal.old.broken ≡ false }
    requires written { CanBeWritten contents.now }
    ensures saved { (x : Content) (image : Image) → Settled journal.old (D.state disk.old) x → TellsIn x.format x.image x.payloads image → IsThen then.now contents.now image → HaveStoredPins contents.now.rows.rows
        → OnOk result (Saved journal.new (D.state disk.new) (image_of contents.now)) }
    ensures crash { (x : Content) (image : Image) → Settled journal.old (D.state disk.old) x → TellsIn x.format x.image x.payloads image → IsThen then.now contents.now image → HaveStoredPins contents.now.rows.rows
        → Leaves (D.state disk.old) (D.state disk.new) (IsSaving (D.state disk.old) x (image_of contents.now)) }
    ensures held { OnOk result (held.new ≡ map committed held.old) }
    ensures held_still { OnErr result (held.new ≡ held.old) }
    ensures keys_rise { AreRecordsFrom None contents.now.records }
    ensures durable { OnOk result (Only (D.state disk.new).seen (D.state disk.new)) }
    ensures rest { OnOk result (clusters (D.state disk.new).seen ≡ clusters (D.state disk.old).seen) }
    ensures counts { Counts (bytes_written journal.old (text_of then.now contents.now) (spell_image (image_of contents.now))) result (D.state disk.old) (D.state disk.new) }
    ensures same_size { size_of (D.state disk.new) ≡ size_of (D.state disk.old) }
    ensures powers { (D.state disk.new).powers ≡ (D.state disk.old).powers }
    ensures settings { (D.state disk.new).settings ≡ (D.state disk.old).settings }
    ensures faults { (D.state disk.old).faults ≤ (D.state disk.new).faults }
    ensures calm { may_fail (D.state disk.new).armed ≤ may_fail (D.state disk.old).armed }
    ensures cause { IfErr result (λ e. IsStop e (D.state disk.old) (D.state disk.new)) }
    ensures memory { result ≡ Err stop.OutOfMemory → (journal.new ≡ journal.old) × (disk.new ≡ disk.old) }
    ensures usable { OnOk result (journal.new.broken ≡ false) }
{
    has_an_image(contents);
    stands_in_order(then);
    let text = payload_text(alloc, contents, then)?;
    let put = put_text(alloc, disk, journal, contents, &text);
    drop(text);
    put?;
    held.committed();
    Ok(())
}
