//! What is shown of a world in the end: its state as a line of JSON, and how many blocks are used.
//!
//! `state_text` promises the bytes of the definition `state_text`, for each state that the world stands for. While the volume is
//! broken by a device call that failed, the rows in memory still mean the items of that state; but the clusters that a stopped
//! change took may be more than the rows name, so `used_blocks` counts those of the rows.

ghost use Rattle.std.specs.Prelude.{◌≡◌, IfOk};
ghost use Rattle.cf_filter_events.specs.Meaning.{Is};
ghost use Rattle.cf_filter_events.specs.Pasts.{Past};
ghost use Rattle.cf_model.specs.State.{State};
ghost use Rattle.cf_world_plays.specs.States.{state_text, used_blocks};

use crate::blocks::clusters_in;
use cf_base::{Blob, OutOfMemory};
use cf_disk::Disk;
use cf_filter_events::{Acting, Actor};
use cf_state_rows::{off_line, volume_line};
use std::alloc::Global;

/// The state of the world as a line of compact JSON, which ends with byte 10: the count of accepted changes, the epoch, and what
/// is shown of each item, in order of id; or that the volume is off. OutOfMemory where there is no memory for it. The work grows
/// with the items and the runs of their bytes.
pub fn state_text<D: Disk, A: Actor>(
    alloc: Global,
    world: &Acting<D, A>,
) -> Result<Blob, OutOfMemory>
    ensures { (past : Past) (s : State) → Is A.acts D.state past world.now s → IfOk result (λ b. b ≡ state_text s) }
{
    match world {
        Acting::On(running) => {
            let volume = running.filter.volume();
            volume_line(alloc, volume.count(), volume.epoch(), volume.rows())
        }
        Acting::Off(_) => off_line(alloc),
    }
}

/// How many blocks of 4,096 bytes hold a byte of an item, 0 while the volume is off. The work grows with the items.
pub fn used_blocks<D: Disk, A: Actor>(world: &Acting<D, A>) -> u32
    ensures { (past : Past) (s : State) → Is A.acts D.state past world.now s → result ≡ used_blocks s }
{
    match world {
        Acting::On(running) => clusters_in(running.filter.volume().rows().as_slice()),
        Acting::Off(_) => 0,
    }
}
