//! The volume of a device, put into format 2.

ghost use Rattle.std.specs.Prelude.{◌≡◌, ◌≢◌, ◌⊎◌, ◌≤◌, ℕ, length, List, Err, IfErr, OnErr, OnOk};
ghost use Rattle.cf_base.specs.declared.codes.CallError.TheVariants as fails;
ghost use Rattle.cf_base.specs.declared.codes.Code.TheVariants as code;
ghost use Rattle.cf_base.specs.declared.statuses.Status.TheVariants as status;
ghost use Rattle.cf_disk.specs.Disk.{HasFailed, may_fail, size_of};
ghost use Rattle.cf_io.specs.Moves.{IsQuiet, IsWhole, Rose};
ghost use Rattle.cf_io.specs.declared.faults.ReadError.TheVariants as reading;
ghost use Rattle.cf_journal.specs.Settled.{IsFitSize};
ghost use Rattle.cf_world_devices.specs.Migrations.{IsMigrated, IsRefused, IsUnopened, IsUnopenedEnd, IsUnread, Migrates, OfDevice};
ghost use Rattle.cf_world_devices.specs.Ends.{IsBeforeDevice, IsBeforeWriting};
ghost use Rattle.cf_world_devices.specs.Sizes.{IsFit};

use crate::device_bytes::hand_out;
use crate::sizes::is_fit;
use cf_base::{CallError, Code, Status};
use cf_disk::{Disk, DiskError};
use cf_io::{ReadError, Sink, Source, read_all};
use cf_journal::LARGEST_SIZE;
use cf_volume_commit::load;
use std::alloc::Global;

/// Reads the bytes of a device from the source, writes them to the disk and makes them durable, opens the volume there, which
/// puts it into format 2 in the next epoch, and writes the disk's bytes to the sink. BadDevice where the disk has no fit size, and BadImage where
/// the bytes are not as long as the disk or hold no volume that can be opened; SourceFault, SinkFault, DeviceFault where these failed.
pub fn migrate<S: Source, K: Sink, D: Disk>(
    alloc: Global,
    source: &mut S,
    sink: &mut K,
    disk: &mut D,
) -> Status
    ensures bytes { (bytes : List ℕ) × IsWhole (S.left source.old) bytes
        × OfDevice (D.state disk.old) (D.state disk.new) bytes (K.held sink.old) (K.held sink.new) (IsQuiet (S.faults source.old) (S.faults source.new) × IsQuiet (K.faults sink.old) (K.faults sink.new)) result }
    ensures only { result ≢ Status.Usage }
    ensures device { result ≡ Status.BadDevice → IsFit (size_of (D.state disk.old)) → ⊥ }
    ensures source_fault { result ≡ Status.SourceFault → Rose (S.faults source.old) (S.faults source.new) }
    ensures sink_fault { result ≡ Status.SinkFault → Rose (K.faults sink.old) (K.faults sink.new) }
    ensures device_fault { result ≡ Status.DeviceFault → HasFailed (D.state disk.old) (D.state disk.new) }
    ensures unwritten { IsBeforeWriting result → sink.new ≡ sink.old }
    ensures unused { IsBeforeDevice result → disk.new ≡ disk.old }
{
    let limit = disk.size().min(LARGEST_SIZE) as usize;
    match read_all(alloc, source, limit) {
        Ok(bytes) => put(alloc, bytes, sink, disk),
        Err(fail) => unread(fail, disk.size()),
    }
}

// More bytes than there are to be are those of no device of this size.
fn unread(fail: ReadError, size: u64) -> Status
    ensures fault { result ≡ status.SourceFault → fail ≡ reading.Fault }
    ensures fit { result ≡ status.BadDevice → IsFit size → ⊥ }
    ensures image { result ≡ status.BadImage → (fail ≡ reading.TooLong) × IsFit size }
    ensures only { IsUnread result }
{
    match fail {
        ReadError::Fault => Status::SourceFault,
        ReadError::TooLong => {
            if is_fit(size) {
                Status::BadImage
            } else {
                Status::BadDevice
            }
        }
        ReadError::OutOfMemory => Status::OutOfMemory,
    }
}

// Puts the bytes on the disk where they have its size, and migrates them there.
fn put<K: Sink, D: Disk>(alloc: Global, bytes: Vec<u8>, sink: &mut K, disk: &mut D) -> Status
    ensures writes { Migrates (D.state disk.old) (D.state disk.new) bytes.items (K.held sink.old) (K.held sink.new) result }
    ensures fit { result ≡ Status.BadDevice → IsFit (size_of (D.state disk.old)) → ⊥ }
    ensures unfit { (IsFit (size_of (D.state disk.old)) → ⊥) → result ≡ Status.BadDevice }
    ensures read { result ≡ Status.SourceFault → ⊥ }
    ensures sink_fault { result ≡ Status.SinkFault → Rose (K.faults sink.old) (K.faults sink.new) }
    ensures device_fault { result ≡ Status.DeviceFault → HasFailed (D.state disk.old) (D.state disk.new) }
    ensures unwritten { IsBeforeWriting result → sink.new ≡ sink.old }
    ensures unused { IsBeforeDevice result → disk.new ≡ disk.old }
{
    if !is_fit(disk.size()) {
        drop(bytes);
        return Status::BadDevice;
    }
    if bytes.len() as u64 != disk.size() {
        drop(bytes);
        return Status::BadImage;
    }
    match rewritten(alloc, disk, &bytes) {
        Ok(()) => hand_out(bytes, sink, disk),
        Err(why) => {
            drop(bytes);
            why
        }
    }
}

// The bytes stand on the disk, and are durable.
fn place<D: Disk>(disk: &mut D, bytes: &[u8]) -> Result<(), DiskError>
    requires { length bytes.now ≡ size_of (D.state disk.old) }
    ensures placed { OnOk result ((D.state disk.new).seen ≡ bytes.now) }
    ensures same_size { size_of (D.state disk.new) ≡ size_of (D.state disk.old) }
    ensures faults { (D.state disk.old).faults ≤ (D.state disk.new).faults }
    ensures calm { may_fail (D.state disk.new).armed ≤ may_fail (D.state disk.old).armed }
    ensures cause { OnErr result (HasFailed (D.state disk.old) (D.state disk.new)) }
{
    disk.write(0, bytes)?;
    disk.sync()?;
    Ok(())
}

// Why a volume is not opened.
fn unopened(fail: CallError) -> Status
    ensures image { result ≡ status.BadImage → (fail ≢ fails.No code.Device) × (fail ≢ fails.OutOfMemory) }
    ensures device { result ≡ status.DeviceFault → fail ≡ fails.No code.Device }
    ensures only { (result ≡ status.BadImage) ⊎ ((result ≡ status.DeviceFault) ⊎ (result ≡ status.OutOfMemory)) }
{
    if fail == CallError::No(Code::Device) {
        return Status::DeviceFault;
    }
    if fail == CallError::OutOfMemory {
        return Status::OutOfMemory;
    }
    Status::BadImage
}

// Opens the volume on the disk.
fn open<D: Disk>(alloc: Global, disk: &mut D) -> Result<(), Status>
    requires { IsFitSize (size_of (D.state disk.old)) }
    ensures opened { OnOk result (IsMigrated (D.state disk.old).seen (D.state disk.new).seen) }
    ensures cause { IfErr result (IsUnopened (D.state disk.old) (D.state disk.new)) }
    ensures same_size { size_of (D.state disk.new) ≡ size_of (D.state disk.old) }
    ensures faults { (D.state disk.old).faults ≤ (D.state disk.new).faults }
    ensures calm { may_fail (D.state disk.new).armed ≤ may_fail (D.state disk.old).armed }
{
    match load(alloc, disk) {
        Ok(parts) => {
            drop(parts);
            Ok(())
        }
        Err(fail) => Err(unopened(fail)),
    }
}

// Puts the bytes on the disk, and the volume that they are into format 2.
fn rewritten<D: Disk>(alloc: Global, disk: &mut D, bytes: &[u8]) -> Result<(), Status>
    requires fit { IsFitSize (size_of (D.state disk.old)) }
    requires whole { length bytes.now ≡ size_of (D.state disk.old) }
    ensures migrated { OnOk result (IsMigrated bytes.now (D.state disk.new).seen) }
    ensures image { result ≡ Err status.BadImage → IsRefused bytes.now }
    ensures device { result ≡ Err status.DeviceFault → HasFailed (D.state disk.old) (D.state disk.new) }
    ensures only { IfErr result IsUnopenedEnd }
    ensures same_size { size_of (D.state disk.new) ≡ size_of (D.state disk.old) }
    ensures faults { (D.state disk.old).faults ≤ (D.state disk.new).faults }
    ensures calm { may_fail (D.state disk.new).armed ≤ may_fail (D.state disk.old).armed }
{
    match place(disk, bytes) {
        Ok(()) => open(alloc, disk),
        Err(_error) => Err(Status::DeviceFault),
    }
}
