//! Changes of a volume, and commits.

ghost use Rattle.std.specs.Prelude.{◌≡◌, ◌+◌, true, false, length, IfErr, IfOk, OnOk, OnErr};
ghost use Rattle.cf_disk.specs.Disk.{Counts, Leaves};
ghost use Rattle.cf_model.specs.Changes.{may_need_room, next_number};
ghost use Rattle.cf_model.specs.Costs.{most_of_change};
ghost use Rattle.cf_model.specs.Points.{with_room_point, with_sure_point};
ghost use Rattle.cf_model.specs.State.{Volume as model};
ghost use Rattle.cf_volume_points.specs.At.{Applied, At, StandsEither, StandsLast};
ghost use Rattle.cf_volume_points.specs.Keeping.{FitsBook, IsNextId};
ghost use Rattle.cf_volume_points.specs.Sound.{IsKeepable};
ghost use Rattle.cf_table.specs.Changing.{Fits, item_of_change};
ghost use Rattle.cf_volume_changes.specs.Calls.{Answers, Breaks, IfBroken, IsCause, Runs, StopsOnly};
ghost use Rattle.cf_volume.specs.Written.{IsAtPoint, NotesOnly, WritesAtMost, commit_bytes, contents_in};

use crate::commits::commit_parts;
use crate::room_commits::accept_with_room;
use crate::stop_causes::stops;
use crate::volumes::VolumeOn;
use cf_base::{CallError, Change, Code, Usn};
use cf_volume_changes::has_place;
use cf_volume_ground::Ground;

impl<G: Ground> VolumeOn<G> {
    /// Makes all accepted changes durable, and gives their count. It writes a payload of the rows and records that are
    /// noted or new since the last point, and of no others, or the whole image where that has no room. Broken where an earlier call broke the volume. Device
    /// where a call of the disk failed, whose count of faults rose; OutOfMemory where there is none; both break the volume.
    /// NotAVolume, which breaks it too, where the table is too long for an image, as that of no volume is.
    ///
    /// `apply` takes changes that leave items as no volume has them, such as a Take of a file that is no placeholder. What a
    /// commit writes of those is no volume either: it is done, and `open` answers NotAVolume.
    pub fn commit(&mut self) -> Result<u64, CallError>
        ensures ok { (v : model) → At (G.state self.old.disk) self.old.known v → IsKeepable v → OnOk result (At (G.state self.new.disk) self.new.known (with_sure_point v) × At (G.state self.new.disk) self.new.known (with_room_point v)) }
        ensures count { (v : model) → At (G.state self.old.disk) self.old.known v → IfOk result (λ n. n ≡ length v.log) }
        ensures why { (v : model) → At (G.state self.old.disk) self.old.known v → IsKeepable v → self.old.known.broken ≡ false → IfErr result StopsOnly }
        ensures crash { (v : model) → At (G.state self.old.disk) self.old.known v → IsKeepable v → Leaves (G.state self.old.disk) (G.state self.new.disk) (StandsEither v) }
        ensures broken { IfBroken self.old result self.new }
        ensures breaks { IfErr result (λ e. Breaks e self.new.known) }
        ensures usable { OnOk result (self.new.known.broken ≡ false) }
        ensures cause { IfErr result (λ e. IsCause e (G.state self.old.disk) (G.state self.new.disk)) }
        ensures runs { Runs (G.state self.old.disk) (G.state self.new.disk) }
        ensures noted { OnOk result (IsAtPoint self.new.known) }
        ensures written { Counts (G.writes (commit_bytes self.old.known)) result (G.state self.old.disk) (G.state self.new.disk) }
        ensures contents { contents_in self.new.known ≡ contents_in self.old.known }
        ensures table { self.new.known.table ≡ self.old.known.table }
        ensures records { self.new.known.records ≡ self.old.known.records }
    {
        if self.parts.broken {
            return Err(CallError::No(Code::Broken));
        }
        match commit_parts(&mut self.ground, &mut self.parts) {
            Ok(()) => Ok(self.parts.kept),
            Err(fail) => {
                self.parts.broken = true;
                Err(fail)
            }
        }
    }

    /// Adds one change, and gives its number. It is durable with the next commit. Beside a commit before it, it writes at
    /// most the blocks into which it puts bytes. Where it fails, rows, records, count and epoch stay as they were.
    ///
    /// A commit may come first where the change puts bytes, and its blocks with those of the last point and of the changes
    /// since are more than the volume may use. Where the ground wants no commit (`Ground::aimed`), it comes where the change
    /// needs more clusters than are free. Where the ground wants one, it comes once that many changes are made and at no
    /// other time. A change that needs more clusters than are free at another time is OutOfMemory; on a ground that has three
    /// times the clusters that the volume may use none does.
    pub fn apply(&mut self, change: &Change) -> Result<Usn, CallError>
        requires fits { Fits change.now self.old.known.table.rows }
        requires next { IsNextId change.now self.old.known.table.next }
        ensures ok { (v : model) → At (G.state self.old.disk) self.old.known v → FitsBook change.now v.book → (may_need_room change.now v ≡ true → IsKeepable v) → OnOk result (Applied (G.state self.new.disk) self.new.known change.now v) }
        ensures number { (v : model) → At (G.state self.old.disk) self.old.known v → IfOk result (λ n. n ≡ next_number v) }
        ensures why { (v : model) → At (G.state self.old.disk) self.old.known v → (may_need_room change.now v ≡ true → IsKeepable v) → self.old.known.broken ≡ false → Answers change.now v self.old result self.new }
        ensures crash { (v : model) → At (G.state self.old.disk) self.old.known v → (may_need_room change.now v ≡ true → IsKeepable v) → Leaves (G.state self.old.disk) (G.state self.new.disk) (StandsEither v) }
        ensures kept_crash { (v : model) → At (G.state self.old.disk) self.old.known v → may_need_room change.now v ≡ false → Leaves (G.state self.old.disk) (G.state self.new.disk) (StandsLast v) }
        ensures noted { OnOk result (NotesOnly (item_of_change change.now) self.old.known self.new.known) }
        ensures written { (v : model) → At (G.state self.old.disk) self.old.known v → (may_need_room change.now v ≡ true → IsKeepable v) → WritesAtMost (commit_bytes self.old.known + most_of_change v.items change.now) (G.state self.old.disk) (G.state self.new.disk) }
        ensures kept_written { (v : model) → At (G.state self.old.disk) self.old.known v → may_need_room change.now v ≡ false → WritesAtMost (most_of_change v.items change.now) (G.state self.old.disk) (G.state self.new.disk) }
        ensures stays { OnErr result (contents_in self.new.known ≡ contents_in self.old.known) }
        ensures broken { IfBroken self.old result self.new }
        ensures breaks { IfErr result (λ e. Breaks e self.new.known) }
        ensures usable { OnOk result (self.new.known.broken ≡ false) }
        ensures cause { IfErr result (λ e. IsCause e (G.state self.old.disk) (G.state self.new.disk)) }
        ensures runs { Runs (G.state self.old.disk) (G.state self.new.disk) }
    {
        if self.parts.broken {
            return Err(CallError::No(Code::Broken));
        }
        if !has_place(&self.parts.contents) {
            return Err(CallError::No(Code::Exhausted));
        }
        match accept_with_room(&mut self.ground, &mut self.parts, change) {
            Ok(number) => Ok(number),
            Err(fail) => {
                self.parts.broken = stops(fail);
                Err(fail)
            }
        }
    }
}
