//! The bytes of the device that a script leaves.

ghost use Rattle.std.specs.Prelude.{◌≡◌};
ghost use Rattle.cf_io.specs.Moves.{Rose};
ghost use Rattle.cf_world_plays.specs.Outputs.{HandsImage};
ghost use Rattle.cf_world_devices.specs.Ends.{IsBeforeWriting};

use cf_base::{Choice, Status};
use cf_disk::Disk;
use cf_io::Sink;
use cf_world_devices::hand_out;
use std::alloc::Global;

/// Cuts the power, keeps all that was written, and writes what the disk reads as then to the sink.
pub(crate) fn put_image<K: Sink, D: Disk>(alloc: Global, sink: &mut K, disk: &mut D) -> Status
    ensures writes { HandsImage D.state disk.old disk.new (K.held sink.old) (K.held sink.new) result }
    ensures sink_fault { result ≡ Status.SinkFault → Rose (K.faults sink.old) (K.faults sink.new) }
    ensures unwritten { IsBeforeWriting result → sink.new ≡ sink.old }
{
    disk.power(Choice::Keep);
    let mut room = Vec::new(alloc);
    if room.resize(disk.size() as usize, 0).is_err() {
        return Status::OutOfMemory;
    }
    hand_out(room, sink, disk)
}
