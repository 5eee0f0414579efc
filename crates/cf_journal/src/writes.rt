//! Steps on the disk that end with a sync.

ghost use Rattle.std.specs.Prelude.{◌≡◌, ◌+◌, ◌-◌, ◌<◌, ◌≤◌, length, get_or, OnOk};
ghost use Rattle.std.specs.Int.{to_be_bytes};
ghost use Rattle.cf_base.specs.declared.limits.TheConstants.{MOST_IMAGE_BYTES};
ghost use Rattle.cf_disk.specs.Disk.{size_of, Holds, Near, Only, Leaves, Counts, Rises};
ghost use Rattle.cf_journal.specs.Content.{NearTwo, clusters};
ghost use Rattle.cf_journal.specs.Steps.{IsClosing, Closes, Stages, Records};

use cf_disk::{Disk, DiskError};

// Writes bytes, and makes them durable.
pub(crate) fn put<D: Disk>(disk: &mut D, at: u64, bytes: &[u8]) -> Result<(), DiskError>
    requires room { at + length bytes.now ≤ size_of (D.state disk.old) }
    ensures written { OnOk result (Holds at bytes.now (D.state disk.old).seen (D.state disk.new).seen) }
    ensures size { size_of (D.state disk.new) ≡ size_of (D.state disk.old) }
    ensures durable { OnOk result (Only (D.state disk.new).seen (D.state disk.new)) }
    ensures crash { Leaves (D.state disk.old) (D.state disk.new) (Near (D.state disk.old) at (length bytes.now)) }
    ensures counts { Counts (length bytes.now) result (D.state disk.old) (D.state disk.new) }
    ensures cause { Rises result (D.state disk.old) (D.state disk.new) }
    ensures powers { (D.state disk.new).powers ≡ (D.state disk.old).powers }
    ensures settings { (D.state disk.new).settings ≡ (D.state disk.old).settings }
{
    disk.write(at, bytes)?;
    disk.sync()?;
    Ok(())
}

// Writes length, payload and a closed gate behind a record's gate.
pub(crate) fn put_record<D: Disk>(disk: &mut D, at: u64, payload: &[u8]) -> Result<(), DiskError>
    requires room { at + (5 + length payload.now) ≤ size_of (D.state disk.old) }
    requires short { length payload.now ≤ 262144 }
    requires size { size_of (D.state disk.old) ≤ 271581184 }
    ensures written { OnOk result (Records at payload.now (D.state disk.old).seen (D.state disk.new).seen) }
    ensures durable { OnOk result (Only (D.state disk.new).seen (D.state disk.new)) }
    ensures crash { Leaves (D.state disk.old) (D.state disk.new) (Near (D.state disk.old) at (5 + length payload.now)) }
    ensures counts { Counts (5 + length payload.now) result (D.state disk.old) (D.state disk.new) }
    ensures cause { Rises result (D.state disk.old) (D.state disk.new) }
    ensures same_size { size_of (D.state disk.new) ≡ size_of (D.state disk.old) }
    ensures powers { (D.state disk.new).powers ≡ (D.state disk.old).powers }
    ensures settings { (D.state disk.new).settings ≡ (D.state disk.old).settings }
{
    let len = (payload.len() as u32).to_be_bytes();
    let behind = at + 4 + payload.len() as u64;
    disk.write(at, &len)?;
    disk.write(at + 4, payload)?;
    disk.write(behind, &[0])?;
    disk.sync()?;
    Ok(())
}

// Takes a slot out of use: closes its gate, or, where that is closed, breaks its letters. A closed gate is not written
// again, since then a crash might open it.
pub(crate) fn close<D: Disk>(disk: &mut D, at: u64) -> Result<(), DiskError>
    requires room { at + 2 ≤ size_of (D.state disk.old) }
    requires size { size_of (D.state disk.old) ≤ 271581184 }
    ensures closed { OnOk result (Closes at (D.state disk.old).seen (D.state disk.new).seen) }
    ensures durable { OnOk result (Only (D.state disk.new).seen (D.state disk.new)) }
    ensures crash { Leaves (D.state disk.old) (D.state disk.new) (IsClosing (D.state disk.old) at) }
    ensures counts { Counts 1 result (D.state disk.old) (D.state disk.new) }
    ensures cause { Rises result (D.state disk.old) (D.state disk.new) }
    ensures same_size { size_of (D.state disk.new) ≡ size_of (D.state disk.old) }
    ensures powers { (D.state disk.new).powers ≡ (D.state disk.old).powers }
    ensures settings { (D.state disk.new).settings ≡ (D.state disk.old).settings }
{
    let mut gate = [1u8; 1];
    disk.read(at, &mut gate)?;
    if gate[0] == 0 {
        put(disk, at + 1, &[0])?;
        return Ok(());
    }
    put(disk, at, &[0])?;
    Ok(())
}

// Writes the header, the image and a closed first gate of the journal.
pub(crate) fn stage<D: Disk>(
    disk: &mut D,
    at: u64,
    header: &[u8],
    image: &[u8],
) -> Result<(), DiskError>
    requires room { at + 1572864 ≤ size_of (D.state disk.old) }
    requires header { length header.now ≡ 27 }
    requires short { length image.now ≤ MOST_IMAGE_BYTES }
    requires size { size_of (D.state disk.old) ≤ 271581184 }
    ensures staged { OnOk result (Stages at header.now image.now (D.state disk.old).seen (D.state disk.new).seen) }
    ensures durable { OnOk result (Only (D.state disk.new).seen (D.state disk.new)) }
    ensures crash { Leaves (D.state disk.old) (D.state disk.new) (Near (D.state disk.old) (at + 1) 1572863) }
    ensures counts { Counts (28 + length image.now) result (D.state disk.old) (D.state disk.new) }
    ensures cause { Rises result (D.state disk.old) (D.state disk.new) }
    ensures same_size { size_of (D.state disk.new) ≡ size_of (D.state disk.old) }
    ensures powers { (D.state disk.new).powers ≡ (D.state disk.old).powers }
    ensures settings { (D.state disk.new).settings ≡ (D.state disk.old).settings }
{
    disk.write(at + 1, header)?;
    disk.write(at + 4096, image)?;
    disk.write(at + 1_310_720, &[0])?;
    disk.sync()?;
    Ok(())
}

// Closes two gates, whatever they were.
pub(crate) fn close_both<D: Disk>(disk: &mut D, first: u64, second: u64) -> Result<(), DiskError>
    requires order { first < second }
    requires low { second < 3145728 }
    requires room { 3145728 ≤ size_of (D.state disk.old) }
    ensures gates { OnOk result ((get_or (D.state disk.new).seen first 0 ≡ 0) × (get_or (D.state disk.new).seen second 0 ≡ 0)) }
    ensures durable { OnOk result (Only (D.state disk.new).seen (D.state disk.new)) }
    ensures rest { OnOk result (clusters (D.state disk.new).seen ≡ clusters (D.state disk.old).seen) }
    ensures crash { Leaves (D.state disk.old) (D.state disk.new) (NearTwo (D.state disk.old) first second) }
    ensures same_size { size_of (D.state disk.new) ≡ size_of (D.state disk.old) }
    ensures counts { Counts 2 result (D.state disk.old) (D.state disk.new) }
    ensures cause { Rises result (D.state disk.old) (D.state disk.new) }
    ensures powers { (D.state disk.new).powers ≡ (D.state disk.old).powers }
    ensures settings { (D.state disk.new).settings ≡ (D.state disk.old).settings }
{
    disk.write(first, &[0])?;
    put(disk, second, &[0])?;
    Ok(())
}
