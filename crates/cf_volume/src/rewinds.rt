//! Volumes taken back to their last point.

ghost use Rattle.std.specs.Prelude.{◌≡◌, ◌+◌, ◌∷◌, ◌⊎◌, ℕ, List, false, take, IfErr, IfOk};
ghost use Rattle.cf_base.specs.declared.codes.Code.TheVariants.{Exhausted};
ghost use Rattle.cf_disk.specs.Disk.{size_of};
ghost use Rattle.cf_model.specs.Formats.{Image};
ghost use Rattle.cf_model.specs.Numbers.{most};
ghost use Rattle.cf_model.specs.State.{Point, Volume as model};
ghost use Rattle.cf_table.specs.Tables.{AreTableRows};
ghost use Rattle.cf_volume_changes.specs.Calls.{IsRefused, StopsOnly};
ghost use Rattle.cf_volume.specs.Rewinding.{IsLast, Rewinds};
ghost use Rattle.cf_volume_changes.specs.Steady.{Steady, known_of};
ghost use Rattle.cf_volume_commit.specs.Loaded as loaded;
ghost use Rattle.cf_volume_points.specs.At.{At};
ghost use Rattle.cf_volume_points.specs.Standing.{opened};

use crate::volumes::VolumeOn;
use cf_base::{CallError, Code, Usn};
use cf_clusters::Data;
use cf_volume_changes::{Parts, restore_records, restore_rows};
use cf_volume_commit::{Parts as Opened, data_of};
use cf_volume_ground::Ground;

// Takes what the volume says of its items back to the last point, with the epoch raised, and gives its clusters.
fn rewind(parts: &mut Parts) -> Result<Data, CallError>
    requires { (i : Image) × IsLast (known_of parts.old) i }
    ensures rewinds { IfOk result (λ d. (i : Image) → IsLast (known_of parts.old) i → Rewinds (known_of parts.old) i parts.new.contents d) }
    ensures table { IfOk result (λ _. AreTableRows parts.new.contents.rows.rows) }
    ensures same { (parts.new.journal ≡ parts.old.journal) × (parts.new.limit ≡ parts.old.limit) }
    ensures only { IfErr result (λ e. StopsOnly e ⊎ IsRefused e Exhausted) }
    ensures last { IfErr result (λ e. IsRefused e Exhausted → parts.old.contents.last.epoch ≡ most) }
{
    let epoch = parts.contents.last.epoch;
    if epoch == u32::MAX {
        return Err(CallError::No(Code::Exhausted));
    }
    restore_rows(
        parts.alloc,
        &mut parts.contents.rows,
        &parts.then.rows,
        parts.then.next,
    )?;
    restore_records(
        &mut parts.contents.records,
        &parts.then.records,
        &parts.then.made,
    )?;
    let _ = parts.contents.rows.image_len();
    let _ = parts.contents.records.image_len();
    parts.contents.last = Usn {
        epoch: epoch + 1,
        place: 0,
    };
    parts.contents.count = parts.kept;
    parts.contents.clock = parts.clock_then;
    Ok(data_of(parts.alloc, &parts.contents, parts.held.clusters())?)
}

// The parts as a point leaves them, with these clusters.
fn opened_of(parts: Parts, held: Data) -> Opened
    ensures { result ≡ record { journal = parts.journal; held = held; contents = parts.contents; limit = parts.limit } }
{
    Opened {
        journal: parts.journal,
        held,
        contents: parts.contents,
        limit: parts.limit,
    }
}

impl<G: Ground> VolumeOn<G> {
    /// Takes a volume apart that no call broke: the ground, and the parts as they were at the last point, with the epoch raised.
    /// Where a crash leaves nothing of the ground, they are the volume that begins with that point, which `of_parts` makes. No
    /// other ground stands for it. Exhausted where the epoch is the last one. OutOfMemory where there is none. Then the ground comes
    /// back.
    pub fn into_last_point(self) -> Result<(G, Opened), (G, CallError)>
        requires at { (v : model) × At (G.state self.disk) self.known v }
        requires usable { self.known.broken ≡ false }
        ensures ground { IfOk result (λ r. r.0 ≡ self.disk) }
        ensures back { IfErr result (λ e. e.0 ≡ self.disk) }
        ensures at { IfOk result (λ r. (v : model) (p : Point) (earlier : List Point) → At (G.state self.disk) self.known v → v.points ≡ p ∷ earlier → ((c : List ℕ) → (G.state self.disk).may_leave c → ⊥)
            → At (G.state self.disk) (loaded.known_of r.1) (opened (v.epoch + 1) (take p.count v.log) p.book v.clusters)) }
        ensures steady { IfOk result (λ r. Steady (size_of (G.state self.disk)) (loaded.known_of r.1)) }
        ensures only { IfErr result (λ e. StopsOnly e.1 ⊎ IsRefused e.1 Exhausted) }
        ensures last { IfErr result (λ e. IsRefused e.1 Exhausted → self.known.epoch ≡ most) }
    {
        let mut parts = self.parts;
        match rewind(&mut parts) {
            Ok(held) => Ok((self.ground, opened_of(parts, held))),
            Err(fail) => {
                drop(parts);
                Err((self.ground, fail))
            }
        }
    }
}
