//! What a disk promises.

ghost use Rattle.std.specs.Prelude.{◌≡◌, ◌+◌, ◌≤◌, Some, option_map, List, ℕ, length, OnOk};
ghost use Rattle.cf_disk.specs.Disk.{State, aimed_at, size_of, part, Holds, Keeps, Follows, Only, Goes, Counts, Rises, Powers, IsUnchanged, Spends};

use cf_base::Choice;

/// A call of the disk failed. The disk's count of faults rose in that call.
#[derive(Clone, Copy, Debug, PartialEq, Eq, thiserror::Error)]
#[error("the disk failed")]
pub struct DiskError;

/// A disk of a fixed size, in bytes. Any call of `read`, `write` and `sync` may fail.
///
/// What a crash may leave, how time goes on and what the counts do is said of both outcomes of each call.
pub trait Disk {
    /// What the disk is, for clauses.
    ghost state: { Self → State };

    /// The size in bytes, which no call changes.
    fn size(&self) -> u64
        ensures { result ≡ size_of (state self.now) };

    /// How many blocks of 4,096 bytes a volume on the disk may fill, however many the disk has. No call changes it.
    fn quota(&self) -> u64
        ensures { result ≡ (state self.now).settings.quota };

    /// Reads the bytes from `at` on into `out`. A read changes nothing, also where it fails; then `out` may hold
    /// any bytes.
    fn read(&mut self, at: u64, out: &mut [u8]) -> Result<(), DiskError>
        requires { at + length out.old ≤ size_of (state self.old) }
        ensures got { OnOk result (out.new ≡ part at (length out.old) (state self.old).seen) }
        ensures keeps { Keeps (state self.old) (state self.new) }
        ensures goes { Goes (state self.old) (state self.new) }
        ensures counts { Counts 0 result (state self.old) (state self.new) }
        ensures cause { Rises result (state self.old) (state self.new) }
        ensures spends { Spends result (state self.old) (state self.new) };

    /// Writes the bytes at `at`. Until a sync succeeds a crash may leave any bytes in their range, also where the
    /// write fails; then a read of the range may give any bytes too. All other bytes stay.
    fn write(&mut self, at: u64, bytes: &[u8]) -> Result<(), DiskError>
        requires { at + length bytes.now ≤ size_of (state self.old) }
        ensures written { OnOk result (Holds at bytes.now (state self.old).seen (state self.new).seen) }
        ensures size { size_of (state self.new) ≡ size_of (state self.old) }
        ensures crash { Follows at (length bytes.now) (state self.old) (state self.new) }
        ensures goes { Goes (state self.old) (state self.new) }
        ensures counts { Counts (length bytes.now) result (state self.old) (state self.new) }
        ensures cause { Rises result (state self.old) (state self.new) }
        ensures spends { Spends result (state self.old) (state self.new) };

    /// After a sync that succeeds a crash leaves what a read gives. One that fails makes nothing worse.
    fn sync(&mut self) -> Result<(), DiskError>
        ensures durable { OnOk result (Only (state self.old).seen (state self.new)) }
        ensures keeps { Keeps (state self.old) (state self.new) }
        ensures goes { Goes (state self.old) (state self.new) }
        ensures counts { Counts 0 result (state self.old) (state self.new) }
        ensures cause { Rises result (state self.old) (state self.new) }
        ensures spends { Spends result (state self.old) (state self.new) };

    /// Lets so many further calls of `read`, `write` and `sync` pass, and makes each one after them fail, until
    /// `power`. Changes nothing else.
    fn arm(&mut self, calls: u32)
        ensures same { IsUnchanged (state self.old) (state self.new) }
        ensures armed { (state self.new).armed ≡ option_map (λ _. Some calls) (state self.old).armed };

    /// Cuts the power: the contents become one image that a crash may leave, all of it durable, and the arming ends.
    fn power(&mut self, choice: Choice)
        ensures left { (state self.old).may_leave (state self.new).seen }
        ensures durable { Only (state self.new).seen (state self.new) }
        ensures powers { Powers choice (state self.old) (state self.new) };

    /// Tells a volume on the disk that a commit is wanted once so many changes are made, in place of what was told before.
    /// Changes nothing else.
    fn aim(&mut self, changes: u64)
        ensures same { IsUnchanged (aimed_at changes (state self.old)) (state self.new) }
        ensures armed { (state self.new).armed ≡ (state self.old).armed };

    /// After how many changes a commit is wanted, if one is. A volume makes it only where it may commit.
    fn aimed(&self) -> Option<u64>
        ensures { result ≡ (state self.now).settings.aim };

    /// Where the disk reports the images since a time, those of this moment are among them.
    ghost counts_now: { (disk : Self) (t : ℕ) (c : List ℕ) → t ≤ (state disk).moment → (state disk).tells t → (state disk).may_leave c → (state disk).left_since t c };

    /// Since this moment there are no others.
    ghost only_now: { (disk : Self) (c : List ℕ) → (state disk).left_since (state disk).moment c → (state disk).may_leave c };

    /// A disk as it reads is one of its images.
    ghost reads_one: { (disk : Self) → (state disk).may_leave (state disk).seen };

    /// Each image has the disk's size.
    ghost same_size: { (disk : Self) (c : List ℕ) → (state disk).may_leave c → length c ≡ size_of (state disk) };
}
