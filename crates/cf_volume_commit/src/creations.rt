//! A new volume.

ghost use Rattle.std.specs.Prelude.{◌≡◌, ◌≤◌, ◌+◌, [], length, All, IfErr, IfOk, OnOk, false, true};
ghost use Rattle.cf_base.specs.declared.ids.Usn.{Usn};
ghost use Rattle.cf_base.specs.declared.limits.TheConstants.{MOST_IMAGE_BYTES};
ghost use Rattle.cf_volume_commit.specs.Loaded.{first_image, known_of};
ghost use Rattle.cf_clusters.specs.Roles.{Opens};
ghost use Rattle.cf_disk.specs.Disk.{size_of, may_fail, Counts};
ghost use Rattle.cf_model.specs.Formats.{spell_image};
ghost use Rattle.cf_volume_image.specs.Contents.{image_of};
ghost use Rattle.cf_journal.specs.Content.{clusters, rewritten};
ghost use Rattle.cf_journal.specs.Settled.{IsFitSize, Settled};
ghost use Rattle.cf_model.specs.Numbers.{above, no_usn, usn_after};
ghost use Rattle.cf_model.specs.State.{new_volume};
ghost use Rattle.cf_volume_points.specs.At.{At};
ghost use Rattle.cf_volume_points.specs.Runs.{IsStop};
ghost use Rattle.cf_volume_points.specs.Sound.{Sound};
ghost use Rattle.cf_volume_points.specs.Standing.{clusters_for};
ghost use Rattle.cf_table.specs.Changing.{IsNext};
ghost use Rattle.cf_table.specs.Spelling.{HasRoom};

use crate::findings::{clusters_of_disk, limit_of};
use crate::openings::raise;
use crate::parts::Parts;
use crate::ranges::has_an_image;
use cf_base::{Blob, OutOfMemory, Usn};
use cf_clusters::Data;
use cf_disk::Disk;
use cf_journal::Journal;
use cf_table::Rows;
use cf_volume_image::{AuxRecords, Contents, spell_image};
use cf_volume_points::Stop;
use std::alloc::Global;

/// What a new volume says of its items: there is the root alone. Its epoch is 0. OutOfMemory where there is none.
pub fn first_contents(alloc: Global) -> Result<Contents, OutOfMemory>
    ensures image { IfOk result (λ c. image_of c ≡ first_image 0) }
    ensures room { IfOk result (λ c. All HasRoom c.rows.rows) }
    ensures later { IfOk result (λ c. (n : Usn) → above n no_usn ≡ true → IsNext n c.rows.rows) }
{
    let rows = Rows::new(alloc)?;
    let records = AuxRecords::new(alloc);
    let contents = Contents {
        last: Usn { epoch: 0, place: 0 },
        count: 0,
        clock: 0,
        rows,
        records,
    };
    has_an_image(&contents);
    Ok(contents)
}

// A new volume that no disk holds yet, with its image.
#[derive(Drop)]
struct Unwritten {
    contents: Contents,
    held: Data,
    image: Blob,
}

fn first_parts(alloc: Global, clusters: u32) -> Result<Unwritten, OutOfMemory>
    ensures image { IfOk result (λ u. image_of u.contents ≡ first_image 0) }
    ensures room { IfOk result (λ u. All HasRoom u.contents.rows.rows) }
    ensures later { IfOk result (λ u. (n : Usn) → above n no_usn ≡ true → IsNext n u.contents.rows.rows) }
    ensures held { IfOk result (λ u. Opens clusters [] u.held) }
    ensures spelled { IfOk result (λ u. u.image ≡ spell_image (image_of u.contents)) }
{
    let held = Data::new(alloc, clusters, &[])?;
    let contents = match first_contents(alloc) {
        Ok(contents) => contents,
        Err(memory) => {
            drop(held);
            return Err(memory);
        }
    };
    match spell_image(alloc, &contents) {
        Ok(image) => {
            Ok(Unwritten {
                contents,
                held,
                image,
            })
        }
        Err(memory) => {
            drop(contents);
            drop(held);
            Err(memory)
        }
    }
}

// Formats the disk with an image of these bytes.
fn format<D: Disk>(disk: &mut D, image: &[u8]) -> Result<Journal, Stop>
    requires short { length image.now ≤ MOST_IMAGE_BYTES }
    requires size { IsFitSize (size_of (D.state disk.old)) }
    ensures ok { IfOk result (λ j. Settled j (D.state disk.new) (rewritten image.now)) }
    ensures rest { OnOk result (clusters (D.state disk.new).seen ≡ clusters (D.state disk.old).seen) }
    ensures counts { Counts (32 + length image.now) result (D.state disk.old) (D.state disk.new) }
    ensures same_size { size_of (D.state disk.new) ≡ size_of (D.state disk.old) }
    ensures powers { (D.state disk.new).powers ≡ (D.state disk.old).powers }
    ensures settings { (D.state disk.new).settings ≡ (D.state disk.old).settings }
    ensures faults { (D.state disk.old).faults ≤ (D.state disk.new).faults }
    ensures calm { may_fail (D.state disk.new).armed ≤ may_fail (D.state disk.old).armed }
    ensures cause { IfErr result (λ e. IsStop e (D.state disk.old) (D.state disk.new)) }
{
    match Journal::format(disk, image) {
        Ok(journal) => Ok(journal),
        Err(_) => Err(Stop::Device),
    }
}

/// Makes an empty volume, whatever the disk held, and opens it: the image is written with epoch 0, and epoch 1 appended.
/// Device where a call of the disk failed, whose count of faults rose. OutOfMemory where there is none.
pub fn create<D: Disk>(alloc: Global, disk: &mut D) -> Result<Parts, Stop>
    requires { IsFitSize (size_of (D.state disk.old)) }
    ensures ok { IfOk result (λ p. At (D.state disk.new) (known_of p) (new_volume (clusters_for (D.state disk.old)))) }
    ensures sound { IfOk result (λ p. Sound (size_of (D.state disk.old)) (known_of p)) }
    ensures later { IfOk result (λ p. IsNext (usn_after p.contents.last.epoch p.contents.last.place) p.contents.rows.rows) }
    ensures usable { IfOk result (λ p. p.journal.broken ≡ false) }
    ensures counts { Counts 201 result (D.state disk.old) (D.state disk.new) }
    ensures same_size { size_of (D.state disk.new) ≡ size_of (D.state disk.old) }
    ensures powers { (D.state disk.new).powers ≡ (D.state disk.old).powers }
    ensures settings { (D.state disk.new).settings ≡ (D.state disk.old).settings }
    ensures faults { (D.state disk.old).faults ≤ (D.state disk.new).faults }
    ensures calm { may_fail (D.state disk.new).armed ≤ may_fail (D.state disk.old).armed }
    ensures cause { IfErr result (λ e. IsStop e (D.state disk.old) (D.state disk.new)) }
{
    let clusters = clusters_of_disk(disk);
    let limit = limit_of(disk, clusters);
    let first = first_parts(alloc, clusters)?;
    let journal = match format(disk, first.image.as_slice()) {
        Ok(journal) => journal,
        Err(stop) => {
            drop(first);
            return Err(stop);
        }
    };
    let Unwritten {
        mut contents,
        held,
        image,
    } = first;
    drop(image);
    contents.last = Usn { epoch: 1, place: 0 };
    let mut parts = Parts {
        journal,
        held,
        contents,
        limit,
    };
    match raise(alloc, disk, &mut parts) {
        Ok(()) => Ok(parts),
        Err(stop) => {
            drop(parts);
            Err(stop)
        }
    }
}
