//! Commits.

ghost use Rattle.std.specs.Prelude.{◌≡◌, IfErr, OnOk};
ghost use Rattle.cf_disk.specs.Disk.{Counts, Leaves, size_of};
ghost use Rattle.cf_model.specs.Points.{with_room_point, with_sure_point};
ghost use Rattle.cf_model.specs.State.{Volume};
ghost use Rattle.cf_volume_points.specs.At.{At, StandsEither};
ghost use Rattle.cf_volume_points.specs.Sound.{IsKeepable};
ghost use Rattle.cf_volume.specs.Accepted.{StaysSteady};
ghost use Rattle.cf_volume_changes.specs.Calls.{IsCause, Runs, StopsOnly};
ghost use Rattle.cf_volume_changes.specs.Steady.{Steady, known_of};
ghost use Rattle.cf_volume.specs.Written.{IsAtPoint, WritesAtMost, commit_bytes};

use crate::stop_causes::fail_of;
use crate::written_rows::can_be_written;
use cf_base::{CallError, Code};
use cf_volume_changes::{Parts, nothing_noted};
use cf_volume_ground::Ground;

/// Makes all that the volume says durable, which is the last point then. NotAVolume where it cannot be written.
pub(crate) fn commit_parts<G: Ground>(ground: &mut G, parts: &mut Parts) -> Result<(), CallError>
    requires steady { Steady (size_of (G.state ground.old)) (known_of parts.old) }
    ensures sure { (v : Volume) → At (G.state ground.old) (known_of parts.old) v → IsKeepable v → OnOk result (At (G.state ground.new) (known_of parts.new) (with_sure_point v)) }
    ensures room { (v : Volume) → At (G.state ground.old) (known_of parts.old) v → IsKeepable v → OnOk result (At (G.state ground.new) (known_of parts.new) (with_room_point v)) }
    ensures only { (v : Volume) → At (G.state ground.old) (known_of parts.old) v → IfErr result StopsOnly }
    ensures crash { (v : Volume) → At (G.state ground.old) (known_of parts.old) v → IsKeepable v → Leaves (G.state ground.old) (G.state ground.new) (StandsEither v) }
    ensures steady { StaysSteady (size_of (G.state ground.new)) (known_of parts.new) result }
    ensures kept { OnOk result (parts.new.kept ≡ parts.old.contents.count) }
    ensures noted { OnOk result (IsAtPoint (known_of parts.new)) }
    ensures written { Counts (G.writes (commit_bytes (known_of parts.old))) result (G.state ground.old) (G.state ground.new) }
    ensures at_most { WritesAtMost (commit_bytes (known_of parts.old)) (G.state ground.old) (G.state ground.new) }
    ensures runs { Runs (G.state ground.old) (G.state ground.new) }
    ensures cause { IfErr result (λ e. IsCause e (G.state ground.old) (G.state ground.new)) }
    ensures contents { parts.new.contents ≡ parts.old.contents }
    ensures broken { parts.new.broken ≡ parts.old.broken }
{
    let _ = parts.contents.rows.image_len();
    let _ = parts.contents.records.image_len();
    if !can_be_written(&parts.contents) {
        return Err(CallError::No(Code::NotAVolume));
    }
    let then = nothing_noted(parts.alloc, parts.contents.rows.next())?;
    match ground.save(
        parts.alloc,
        &mut parts.journal,
        &mut parts.held,
        &parts.contents,
        &parts.then,
    ) {
        Ok(()) => {
            parts.then = then;
            parts.kept = parts.contents.count;
            parts.clock_then = parts.contents.clock;
            parts.used_then = parts.held.used();
            parts.put_since = 0;
            Ok(())
        }
        Err(stop) => {
            drop(then);
            Err(fail_of(stop))
        }
    }
}
