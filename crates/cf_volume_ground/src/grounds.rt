//! What is asked of a ground.

ghost use Rattle.std.specs.Prelude.{◌≡◌, ◌<◌, ◌≤◌, ◌↔◌, ℕ, List, length, map, false, Err, IfErr, IfOk, OnErr, OnOk};
ghost use Rattle.std.specs.Option.{ForSome};
ghost use Rattle.cf_clusters.specs.Area.{KeepsWhere, SameWhere, place};
ghost use Rattle.cf_clusters.specs.Roles.{IsUsed, committed, how_many, is_free, staged_at, use_of};
ghost use Rattle.cf_clusters.specs.declared.clusters.ClusterError.TheVariants.{Failed, Full};
ghost use Rattle.cf_clusters.specs.declared.uses.Use.TheVariants.{Free};
ghost use Rattle.cf_disk.specs.Disk.{Counts, HasFailed, Keeps, Leaves, Only, State, size_of};
ghost use Rattle.cf_journal.specs.Content.{clusters};
ghost use Rattle.cf_model.specs.Formats.{Image, spell_image};
ghost use Rattle.cf_volume_commit.specs.Differing.{IsThen, text_of};
ghost use Rattle.cf_volume_commit.specs.Leading.{CanBeWritten, HaveStoredPins, bytes_written};
ghost use Rattle.cf_volume_image.specs.Contents.{image_of};
ghost use Rattle.cf_volume_points.specs.Runs.{IsStop, Ran};
ghost use Rattle.cf_volume_points.specs.Saving.{IsBacked, IsSavingFrom, SavedIfLeft};
ghost use Rattle.cf_volume_points.specs.Standing.{cluster_on};

use cf_clusters::{ClusterError, Data};
use cf_disk::DiskError;
use cf_journal::Journal;
use cf_volume_commit::Earlier;
use cf_volume_image::Contents;
use cf_volume_points::Stop;
use std::alloc::Global;

/// What a volume puts its blocks on, and keeps its points in.
///
/// Clauses see a ground as a disk. One that no crash leaves shows a state of which a crash leaves nothing, so that what is
/// said of the images that a crash leaves holds of it at once. Nothing is asked of a journal there.
pub trait Ground {
    /// What the ground is, for clauses.
    ghost state: { Self → State };

    /// How many bytes are written by a save that puts so many.
    ghost writes: { ℕ → ℕ };

    /// Puts a block into a free cluster and gives its number. The state then holds that cluster, and no longer `old`. A crash
    /// leaves all clusters that the last commit or the state holds as it might have left them before. Full comes exactly where
    /// none is free. Failed where a call of the disk failed, whose count of faults rose. After both the clusters are held as
    /// before.
    fn stage(
        &mut self,
        held: &mut Data,
        old: Option<u32>,
        block: &[u8; 4096],
    ) -> Result<u32, ClusterError>
        requires room { place (length held.old) ≤ size_of (state self.old) }
        requires old { ForSome old (λ o. o < length held.old) }
        ensures uses { IfOk result (λ k. held.new ≡ staged_at k old held.old) }
        ensures was_free { IfOk result (λ k. (k < length held.old) × (use_of held.old k ≡ Free)) }
        ensures err { OnErr result (held.new ≡ held.old) }
        ensures full { result ≡ Err Full ↔ how_many is_free held.old ≡ 0 }
        ensures wrote { IfOk result (λ k. cluster_on (state self.new).seen k ≡ block.now) }
        ensures same { OnOk result (SameWhere IsUsed held.old (state self.old).seen (state self.new).seen) }
        ensures crash { Leaves (state self.old) (state self.new) (KeepsWhere IsUsed held.old (state self.old)) }
        ensures ran { Ran 4096 (state self.old) (state self.new) }
        ensures failed { result ≡ Err Failed → HasFailed (state self.old) (state self.new) };

    /// Reads the bytes of a cluster. Where a call of the disk failed, its count of faults rose, and `block` may hold any bytes.
    fn load(&mut self, held: &Data, cluster: u32, block: &mut [u8; 4096]) -> Result<(), DiskError>
        requires room { place (length held.now) ≤ size_of (state self.old) }
        requires inside { cluster < length held.now }
        ensures got { OnOk result (block.new ≡ cluster_on (state self.old).seen cluster) }
        ensures keeps { Keeps (state self.old) (state self.new) }
        ensures crash { Leaves (state self.old) (state self.new) (state self.old).may_leave }
        ensures ran { Ran 0 (state self.old) (state self.new) }
        ensures failed { IfErr result (λ _. HasFailed (state self.old) (state self.new)) };

    /// Makes what a volume says of its items the last point, together with the bytes that its clusters hold, and commits the
    /// clusters. `then` has what differs from the last point. Device where a call of the disk failed, whose count of faults
    /// rose. OutOfMemory where there is none.
    ///
    /// A crash at any moment leaves what stood before, or the contents now; refused or not.
    fn save(
        &mut self,
        alloc: Global,
        journal: &mut Journal,
        held: &mut Data,
        contents: &Contents,
        then: &Earlier,
    ) -> Result<(), Stop>
        requires usable { journal.old.broken ≡ false }
        requires written { CanBeWritten contents.now }
        ensures saved { (n : ℕ) (image : Image) → IsBacked (state self.old) journal.old n image → IsThen then.now contents.now image → HaveStoredPins contents.now.rows.rows
            → OnOk result (SavedIfLeft journal.new (state self.new) (image_of contents.now)) }
        ensures crash { (n : ℕ) (image : Image) → IsBacked (state self.old) journal.old n image → IsThen then.now contents.now image → HaveStoredPins contents.now.rows.rows
            → Leaves (state self.old) (state self.new) (IsSavingFrom (state self.old) n image (image_of contents.now)) }
        ensures held { OnOk result (held.new ≡ map committed held.old) }
        ensures durable { OnOk result (Only (state self.new).seen (state self.new)) }
        ensures rest { OnOk result (clusters (state self.new).seen ≡ clusters (state self.old).seen) }
        ensures ran { Ran (bytes_written journal.old (text_of then.now contents.now) (spell_image (image_of contents.now))) (state self.old) (state self.new) }
        ensures counts { Counts (writes (bytes_written journal.old (text_of then.now contents.now) (spell_image (image_of contents.now)))) result (state self.old) (state self.new) }
        ensures cause { IfErr result (λ e. IsStop e (state self.old) (state self.new)) }
        ensures usable { OnOk result (journal.new.broken ≡ false) };

    /// After how many changes a commit is wanted, if one is. A volume makes it only where it may commit.
    fn aimed(&self) -> Option<u64>
        ensures { result ≡ (state self.now).settings.aim };

    /// Each image has the ground's size.
    ghost same_size: { (on : Self) (c : List ℕ) → (state on).may_leave c → length c ≡ size_of (state on) };
}
