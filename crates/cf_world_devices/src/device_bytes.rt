//! The bytes of a device, written.

ghost use Rattle.std.specs.Prelude.{◌≡◌, ◌⊎◌, length};
ghost use Rattle.cf_base.specs.declared.statuses.Status.TheVariants as status;
ghost use Rattle.cf_disk.specs.Disk.{Keeps, size_of};
ghost use Rattle.cf_io.specs.Moves.{Adds, AddsFront, Rose};
ghost use Rattle.cf_world_devices.specs.Ends.{IsBeforeWriting};
ghost use Rattle.cf_world_devices.specs.Migrations.{HandsOut};

use cf_base::Status;
use cf_disk::Disk;
use cf_io::{Sink, write_all};

/// Writes what the disk reads as to the sink. The bytes are used as room.
pub fn hand_out<K: Sink, D: Disk>(mut bytes: Vec<u8>, sink: &mut K, disk: &mut D) -> Status
    requires { length bytes.items ≡ size_of (D.state disk.old) }
    ensures writes { HandsOut (D.state disk.old) (D.state disk.new) (K.held sink.old) (K.held sink.new) result }
    ensures keeps { Keeps (D.state disk.old) (D.state disk.new) }
    ensures powers { (D.state disk.new).powers ≡ (D.state disk.old).powers }
    ensures sink_fault { result ≡ Status.SinkFault → Rose (K.faults sink.old) (K.faults sink.new) }
    ensures unwritten { IsBeforeWriting result → sink.new ≡ sink.old }
{
    let status = match disk.read(0, &mut bytes) {
        Ok(()) => written(sink, &bytes),
        Err(_error) => Status::DeviceFault,
    };
    drop(bytes);
    status
}

/// Writes all bytes.
pub fn written<K: Sink>(sink: &mut K, bytes: &[u8]) -> Status
    ensures done { result ≡ status.Done → Adds (K.held sink.old) (K.held sink.new) bytes.now }
    ensures front { result ≡ status.SinkFault → AddsFront (K.held sink.old) (K.held sink.new) bytes.now × Rose (K.faults sink.old) (K.faults sink.new) }
    ensures only { (result ≡ status.Done) ⊎ (result ≡ status.SinkFault) }
{
    match write_all(sink, bytes) {
        Ok(()) => Status::Done,
        Err(_error) => Status::SinkFault,
    }
}
