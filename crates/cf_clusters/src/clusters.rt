//! The clusters of a volume.
ghost use Rattle.std.specs.Prelude.{◌≡◌, ◌<◌, ◌≤◌, ◌+◌, ◌*◌, ◌↔◌, [], length, map, replicate, slice_set, true, All, None, Some, Err, IfSome, IfNone, IfOk, OnOk, OnErr};
ghost use Rattle.std.specs.List.{position_or_len};
ghost use Rattle.std.specs.Option.{ForSome};
ghost use Rattle.cf_disk.specs.Disk.{size_of, part, SameBut, HasFailed, Leaves, Keeps, Counts, Rises, Spends, may_fail};
ghost use Rattle.cf_clusters.specs.declared.uses.Use.TheVariants.{Free, Held, Staged, Dropped};
ghost use Rattle.cf_clusters.specs.declared.clusters.ClusterError.TheVariants.{Failed, Full};
ghost use Rattle.cf_clusters.specs.Roles.{committed, dropped_at, how_many, is_free, is_now, staged_at, use_of, AreApart, HoldsAll, IsUsed, Opens};
ghost use Rattle.cf_clusters.specs.Layout.{descending};
ghost use Rattle.cf_clusters.specs.Area.{place, KeepsWhere, SameWhere, SpendsOne};

use crate::free_numbers::{FreeNumbers, insert_all};
use crate::orders::{numbers, swap};
use crate::uses::Use;
use cf_base::OutOfMemory;
use cf_disk::{Disk, DiskError};
use std::alloc::Global;
use std::marker::Model;

// The clusters begin behind the two halves of the journal.
const CLUSTERS: u64 = 3_145_728;

const CLUSTER: u64 = 4096;

/// Why a call on the clusters fails.
#[derive(Clone, Copy, Debug, PartialEq, Eq, thiserror::Error)]
pub enum ClusterError {
    /// A call of the disk failed: its count of faults rose.
    #[error("the disk failed")]
    Failed,
    /// No cluster is free.
    #[error("no cluster is free")]
    Full,
}

impl From<DiskError> for ClusterError {
    ghost use Rattle.std.specs.Prelude.{◌≡◌};
    ghost use Rattle.cf_clusters.specs.declared.clusters.ClusterError.TheVariants.{Failed};

    ghost from_gives = { λ _ e. e ≡ Failed };

    fn from(_fault: DiskError) -> ClusterError {
        ClusterError::Failed
    }
}

/// The clusters of a volume. Their numbers stand in an order, dropped ones first, then free, staged and held ones, so that
/// a cluster changes its use by swaps at the bounds, and a commit by two bounds alone. The free ones stand in a set too,
/// which gives the lowest.
#[derive(Drop)]
pub struct Data {
    order: Vec<u32>,
    places: Vec<u32>,
    free_numbers: FreeNumbers,
    free: usize,
    staged: usize,
    held: usize,
}

impl Model for Data {
    ghost use Rattle.std.specs.Prelude.{List};
    ghost use Rattle.cf_clusters.specs.declared.uses.Use.{Use};
    ghost use Rattle.cf_clusters.specs.Layout.{uses_from, IsKept};

    ghost Value = { List Use };

    ghost view = { λ d. uses_from d.free d.staged d.held d.places.items };

    ghost invariant = { λ d. IsKept d.order.items d.places.items d.free_numbers d.free d.staged d.held };
}

impl Data {
    /// So many clusters, of which the given ones, each named once, are held by the last commit and now. All others are
    /// free. No later call takes memory.
    pub fn new(alloc: Global, clusters: u32, held: &[u32]) -> Result<Data, OutOfMemory>
        requires inside { All (λ k. k < clusters) held.now }
        requires apart { AreApart held.now }
        ensures { IfOk result (Opens clusters held.now) }
    {
        let mut data = Data::empty(alloc, clusters)?;
        data.hold_all(held);
        data.committed();
        Ok(data)
    }

    fn empty(alloc: Global, clusters: u32) -> Result<Data, OutOfMemory>
        ensures { IfOk result (Opens clusters []) }
    {
        let order = numbers(alloc, clusters)?;
        let places = Vec::from_slice(alloc, &order)?;
        let free_numbers = FreeNumbers::all(alloc, clusters)?;
        Ok(Data::fresh(order, places, free_numbers, clusters))
    }

    // All clusters are free.
    fn fresh(order: Vec<u32>, places: Vec<u32>, free_numbers: FreeNumbers, clusters: u32) -> Data
        requires order { order.items ≡ descending clusters }
        requires places { places.items ≡ descending clusters }
        requires free { free_numbers ≡ replicate clusters true }
        ensures { Opens clusters [] result }
    {
        Data {
            order,
            places,
            free_numbers,
            free: 0,
            staged: clusters as usize,
            held: clusters as usize,
        }
    }

    // The given clusters, all of them free, become staged.
    fn hold_all(&mut self, clusters: &[u32])
        requires free { All (λ k. use_of self.old k ≡ Free) clusters.now }
        requires apart { AreApart clusters.now }
        ensures { HoldsAll clusters.now self.old self.new }
    {
        for cluster in clusters {
            self.hold(*cluster);
        }
    }

    // A free cluster becomes staged.
    fn hold(&mut self, cluster: u32)
        requires { use_of self.old cluster ≡ Free }
        ensures { self.new ≡ slice_set self.old cluster Staged }
    {
        let at = self.places[cluster as usize] as usize;
        swap(&mut self.order, &mut self.places, at, self.staged - 1);
        self.staged -= 1;
        self.free_numbers.remove(cluster);
    }

    // A held cluster becomes staged.
    fn lower_held(&mut self, cluster: u32)
        requires held { use_of self.old cluster ≡ Held }
        requires inside { cluster < length self.old }
        ensures { self.new ≡ slice_set self.old cluster Staged }
    {
        let at = self.places[cluster as usize] as usize;
        swap(&mut self.order, &mut self.places, at, self.held);
        self.held += 1;
    }

    // A staged cluster becomes free.
    fn lower_staged(&mut self, cluster: u32)
        requires { use_of self.old cluster ≡ Staged }
        ensures { self.new ≡ slice_set self.old cluster Free }
    {
        let at = self.places[cluster as usize] as usize;
        swap(&mut self.order, &mut self.places, at, self.staged);
        self.staged += 1;
        self.free_numbers.insert(cluster);
    }

    // A free cluster becomes dropped.
    fn lower_free(&mut self, cluster: u32)
        requires { use_of self.old cluster ≡ Free }
        ensures { self.new ≡ slice_set self.old cluster Dropped }
    {
        let at = self.places[cluster as usize] as usize;
        swap(&mut self.order, &mut self.places, at, self.free);
        self.free += 1;
        self.free_numbers.remove(cluster);
    }

    fn use_of(&self, cluster: u32) -> Use
        requires { cluster < length self.now }
        ensures { result ≡ use_of self.now cluster }
    {
        let at = self.places[cluster as usize] as usize;
        if at < self.free {
            Use::Dropped
        } else if at < self.staged {
            Use::Free
        } else if at < self.held {
            Use::Staged
        } else {
            Use::Held
        }
    }

    // The lowest free cluster, if there is one.
    fn pick(&self) -> Option<u32>
        ensures some { IfSome result (λ k. (k < length self.now) × (use_of self.now k ≡ Free)) }
        ensures lowest { IfSome result (λ k. k ≡ position_or_len is_free self.now) }
        ensures none { IfNone result (how_many is_free self.now ≡ 0) }
        ensures one { IfSome result (λ k. 0 < how_many is_free self.now) }
    {
        if self.free == self.staged {
            return None;
        }
        Some(self.free_numbers.least())
    }

    /// How many clusters there are.
    pub fn clusters(&self) -> u32
        ensures { result ≡ length self.now }
    {
        self.places.len() as u32
    }

    /// How many clusters are free.
    pub fn free(&self) -> u32
        ensures { result ≡ how_many is_free self.now }
    {
        (self.staged - self.free) as u32
    }

    /// How many clusters the state now holds.
    pub fn used(&self) -> u32
        ensures { result ≡ how_many is_now self.now }
    {
        (self.places.len() - self.staged) as u32
    }

    /// The state drops a cluster: it is free at once where the last commit does not hold it, and else after the next
    /// commit. A cluster that the state does not hold stays as it is.
    pub fn drop_block(&mut self, cluster: u32)
        requires { cluster < length self.old }
        ensures { self.new ≡ dropped_at cluster self.old }
    {
        match self.use_of(cluster) {
            Use::Held => self.drop_held(cluster),
            Use::Staged => self.lower_staged(cluster),
            Use::Free => {}
            Use::Dropped => {}
        }
    }

    // Over the bounds in between, one by one.
    fn drop_held(&mut self, cluster: u32)
        requires held { use_of self.old cluster ≡ Held }
        requires inside { cluster < length self.old }
        ensures { self.new ≡ slice_set self.old cluster Dropped }
    {
        self.lower_held(cluster);
        self.lower_staged(cluster);
        self.lower_free(cluster);
    }

    /// The state now is the last commit's: what it holds is held, and all else is free.
    pub fn committed(&mut self)
        ensures { self.new ≡ map committed self.old }
    {
        insert_all(&mut self.free_numbers, &self.order[..self.free]);
        self.free = 0;
        self.held = self.staged;
    }

    // The cluster is staged, in place of another.
    fn note(&mut self, cluster: u32, old: Option<u32>)
        requires free { use_of self.old cluster ≡ Free }
        requires old { ForSome old (λ o. o < length self.old) }
        ensures { self.new ≡ staged_at cluster old self.old }
    {
        self.hold(cluster);
        if let Some(old) = old {
            self.drop_block(old);
        }
    }

    /// Stages the lowest free cluster, in place of another, and gives its number, as `stage` does where the bytes need no
    /// disk. None comes exactly where no cluster is free; then nothing is done.
    pub fn take(&mut self, old: Option<u32>) -> Option<u32>
        requires { ForSome old (λ o. o < length self.old) }
        ensures uses { IfSome result (λ k. self.new ≡ staged_at k old self.old) }
        ensures was_free { IfSome result (λ k. (k < length self.old) × (use_of self.old k ≡ Free)) }
        ensures lowest { IfSome result (λ k. k ≡ position_or_len is_free self.old) }
        ensures none { result ≡ None ↔ how_many is_free self.old ≡ 0 }
        ensures same { IfNone result (self.new ≡ self.old) }
    {
        let Some(cluster) = self.pick() else {
            return None;
        };
        self.note(cluster, old);
        Some(cluster)
    }

    /// Writes a block into the lowest free cluster and gives its number. The state then holds that cluster, and no longer
    /// `old`. A crash leaves all clusters that the last commit or the state holds as it might have left them before, and
    /// the journal's halves too. The write is not synced. The disk has room for all clusters. Full comes exactly where
    /// none is free, and then nothing is done; after Failed the clusters are held as before. The number is found at a
    /// cost of a logarithm of how many clusters there are.
    pub fn stage<D: Disk>(
        &mut self,
        disk: &mut D,
        old: Option<u32>,
        bytes: &[u8; 4096],
    ) -> Result<u32, ClusterError>
        requires room { place (length self.old) ≤ size_of (D.state disk.old) }
        requires old { ForSome old (λ o. o < length self.old) }

        ensures uses { IfOk result (λ k. self.new ≡ staged_at k old self.old) }
        ensures was_free { IfOk result (λ k. (k < length self.old) × (use_of self.old k ≡ Free)) }
        ensures lowest { IfOk result (λ k. k ≡ position_or_len is_free self.old) }
        ensures err { OnErr result (self.new ≡ self.old) }
        ensures full { result ≡ Err Full ↔ how_many is_free self.old ≡ 0 }
        ensures full_same { result ≡ Err Full → disk.new ≡ disk.old }

        // A read gives the block, and all else as before.
        ensures wrote { IfOk result (λ k. part (place k) 4096 (D.state disk.new).seen ≡ bytes.now) }
        ensures others { IfOk result (λ k. SameBut (place k) 4096 (D.state disk.old).seen (D.state disk.new).seen) }
        ensures same { OnOk result (SameWhere IsUsed self.old (D.state disk.old).seen (D.state disk.new).seen) }

        ensures crash { Leaves (D.state disk.old) (D.state disk.new) (KeepsWhere IsUsed self.old (D.state disk.old)) }
        ensures size { size_of (D.state disk.new) ≡ size_of (D.state disk.old) }
        ensures powers { (D.state disk.new).powers ≡ (D.state disk.old).powers }
        ensures settings { (D.state disk.new).settings ≡ (D.state disk.old).settings }
        ensures counts { Counts 4096 result (D.state disk.old) (D.state disk.new) }
        ensures faults { (D.state disk.old).faults ≤ (D.state disk.new).faults }
        ensures calm { may_fail (D.state disk.new).armed ≤ may_fail (D.state disk.old).armed }
        ensures failed { result ≡ Err Failed → HasFailed (D.state disk.old) (D.state disk.new) }
        ensures spends { SpendsOne result (D.state disk.old) (D.state disk.new) }
    {
        let Some(cluster) = self.pick() else {
            return Err(ClusterError::Full);
        };
        disk.write(CLUSTERS + CLUSTER * cluster as u64, bytes)?;
        self.note(cluster, old);
        Ok(cluster)
    }

    /// Reads the bytes of a cluster. Failed leaves any bytes in `out`.
    pub fn read<D: Disk>(
        &self,
        disk: &mut D,
        cluster: u32,
        out: &mut [u8; 4096],
    ) -> Result<(), ClusterError>
        requires room { place (length self.now) ≤ size_of (D.state disk.old) }
        requires inside { cluster < length self.now }
        ensures got { OnOk result (out.new ≡ part (place cluster) 4096 (D.state disk.old).seen) }
        ensures only { result ≡ Err Full → ⊥ }
        ensures keeps { Keeps (D.state disk.old) (D.state disk.new) }
        ensures crash { Leaves (D.state disk.old) (D.state disk.new) (D.state disk.old).may_leave }
        ensures powers { (D.state disk.new).powers ≡ (D.state disk.old).powers }
        ensures settings { (D.state disk.new).settings ≡ (D.state disk.old).settings }
        ensures counts { Counts 0 result (D.state disk.old) (D.state disk.new) }
        ensures cause { Rises result (D.state disk.old) (D.state disk.new) }
        ensures spends { Spends result (D.state disk.old) (D.state disk.new) }
    {
        disk.read(CLUSTERS + CLUSTER * cluster as u64, out)?;
        Ok(())
    }
}
