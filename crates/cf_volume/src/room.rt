//! Whether changes have room.

ghost use Rattle.std.specs.Prelude.{◌≡◌, All, cond, Some, None, IfOk};
ghost use Rattle.cf_volume_image.specs.RecordLists.{IsShort};
ghost use Rattle.cf_model.specs.Books.{Book};
ghost use Rattle.cf_model.specs.Changes.{next_number, no_places, put_changes};
ghost use Rattle.cf_model.specs.State.{Volume as model};
ghost use Rattle.cf_volume_points.specs.At.{At};
ghost use Rattle.cf_volume_changes.specs.RoomLeft.{FitInTurn, HasBeside, HasRoomFor, HasRoomWith};

use crate::volumes::VolumeOn;
use cf_base::{AuxRecord, Change, OutOfMemory, Usn};
use cf_volume_changes::{Room, room_beside, room_for};
use cf_volume_ground::Ground;

/// The greatest place of an epoch.
const MOST: u32 = 4_294_967_295;

impl<G: Ground> VolumeOn<G> {
    /// Whether changes have room that would be made in order. An id past the greatest is want of a place. Nothing changes,
    /// and no row is looked at but those of the items that the changes name. OutOfMemory also where an earlier call broke the
    /// volume, and in the last epoch where that has too few places for the changes.
    pub fn room(&self, list: &[Change]) -> Result<Room, OutOfMemory>
        ensures { (v : model) → At (G.state self.now.disk) self.now.known v → FitInTurn list.now v → IfOk result (HasRoomFor list.now v) }
    {
        if self.parts.broken {
            return Err(OutOfMemory);
        }
        room_for(&self.parts, list)
    }

    /// The same, with auxiliary records put beside the last change, in order and in the same step: the table has room where it
    /// has room after each change, and after the last with the records too. Keys have at most 255 bytes and values at most
    /// 65,535. Nothing changes. OutOfMemory as `room`.
    pub fn room_with_records(
        &self,
        list: &[Change],
        records: &[AuxRecord],
    ) -> Result<Room, OutOfMemory>
        requires short { All IsShort records.now }
        ensures { (v : model) (b : Book) → At (G.state self.now.disk) self.now.known v → FitInTurn list.now v → HasBeside (put_changes list.now v).book records.now b → IfOk result (HasRoomWith list.now b v) }
    {
        if self.parts.broken {
            return Err(OutOfMemory);
        }
        room_beside(&self.parts, list, records)
    }

    /// The number that the next change gets. None where no place of the epoch is left.
    pub fn next_usn(&self) -> Option<Usn>
        ensures { (v : model) → At (G.state self.now.disk) self.now.known v → result ≡ cond (no_places v 1) None (Some (next_number v)) }
    {
        let last = self.parts.contents.last;
        if last.place == MOST {
            return None;
        }
        Some(Usn {
            epoch: last.epoch,
            place: last.place + 1,
        })
    }
}
