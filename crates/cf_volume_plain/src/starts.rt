//! Volumes started on a plain ground.

ghost use Rattle.std.specs.Prelude.{◌≡◌, ◌≤◌, ◌*◌, false, length, IfOk};
ghost use Rattle.cf_disk.specs.Disk.{size_of};
ghost use Rattle.cf_model.specs.State.{new_volume};
ghost use Rattle.cf_volume.specs.Steady.{Steady};
ghost use Rattle.cf_volume.specs.Written.{IsAtPoint};
ghost use Rattle.cf_volume_commit.specs.Loaded.{known_of};
ghost use Rattle.cf_volume_plain.specs.Plains.{Blocks, plain_state};
ghost use Rattle.cf_volume_points.specs.At.{At};
ghost use Rattle.cf_volume_points.specs.Standing.{clusters_for};

use crate::plains::Plain;
use cf_base::{OutOfMemory, Usn};
use cf_clusters::Data;
use cf_journal::Journal;
use cf_volume::VolumeOn;
use cf_volume_commit::{Parts, first_contents};
use std::alloc::Global;

// The parts of an empty volume that may use so many clusters, a third of those that there are.
fn first_parts(alloc: Global, clusters: u32) -> Result<Parts, OutOfMemory>
    requires { clusters ≤ 65536 }
    ensures at { IfOk result (λ p. (b : Blocks) → length b.bytes ≡ 4096 * (3 * clusters) → At (plain_state b) (known_of p) (new_volume clusters)) }
    ensures steady { IfOk result (λ p. (b : Blocks) → length b.bytes ≡ 4096 * (3 * clusters) → Steady (size_of (plain_state b)) (known_of p)) }
{
    let held = Data::new(alloc, 3 * clusters, &[])?;
    let mut contents = first_contents(alloc)?;
    contents.last = Usn { epoch: 1, place: 0 };
    let _ = contents.rows.image_len();
    let _ = contents.records.image_len();
    let journal = Journal::of_no_disk();
    Ok(Parts {
        journal,
        held,
        contents,
        limit: clusters,
    })
}

/// An empty volume of epoch 1, which may use so many clusters. The ground has three times as many, so that the last point, the
/// state now and a change have room beside each other. A commit is wanted after as many changes as `aim` says, if it says a
/// number. OutOfMemory where there is none.
pub fn start(alloc: Global, clusters: u32, aim: Option<u64>) -> Result<VolumeOn<Plain>, OutOfMemory>
    requires { clusters ≤ 65536 }
    ensures ok { IfOk result (λ w. At (plain_state w.disk) w.known (new_volume clusters)) }
    ensures usable { IfOk result (λ w. w.known.broken ≡ false) }
    ensures noted { IfOk result (λ w. IsAtPoint w.known) }
    ensures aimed { IfOk result (λ w. w.disk.aim ≡ aim) }
    ensures clusters { IfOk result (λ w. clusters_for (plain_state w.disk) ≡ clusters) }
{
    let ground = Plain::new(alloc, 3 * clusters, clusters as u64, aim)?;
    let parts = first_parts(alloc, clusters)?;
    match VolumeOn::of_parts(alloc, ground, parts) {
        Ok(volume) => Ok(volume),
        Err(back) => Err(back.1),
    }
}
