//! Why a disk holds no volume.

ghost use Rattle.std.specs.Prelude.{◌≡◌};
ghost use Rattle.cf_volume_commit.specs.declared.damages.FindError.TheVariants as find;

use cf_base::OutOfMemory;

/// Why the bytes of a disk are those of no volume: the first thing that is wrong. A place is that of a byte in the disk.
#[derive(Clone, Copy)]
pub enum Damage {
    /// No slot has an open gate and a spelled header.
    NoSlot,
    /// The image of the slot that is the volume is not spelled: its first field that is not begins here.
    Image(u64),
    /// A record is not spelled. Here begins the first field that is not; it is the length of a record that does not fit the
    /// journal.
    Record(u64),
    /// All is spelled, and it is not the state of a volume on a disk of this size.
    Unsound,
}

/// Why no volume is found on a disk.
#[derive(Clone, Copy)]
pub enum FindError {
    /// The disk holds none.
    Damaged(Damage),
    /// A call of the disk failed, whose count of faults rose.
    Device,
    /// There was no memory.
    OutOfMemory,
}

impl From<OutOfMemory> for FindError {
    ghost from_gives = { λ _ e. e ≡ find.OutOfMemory };

    fn from(_: OutOfMemory) -> FindError {
        FindError::OutOfMemory
    }
}
