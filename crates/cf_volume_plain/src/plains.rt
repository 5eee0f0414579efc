//! A ground that no crash leaves.

ghost use Rattle.std.specs.Prelude.{◌≡◌, ◌≤◌, ◌+◌, ◌*◌, IfOk, length, replicate};
ghost use Rattle.cf_disk.specs.Disk.{part};
ghost use Rattle.cf_disk.specs.Splice.{over};
ghost use Rattle.cf_volume_plain.specs.Plains.{Blocks};

use crate::blocks::{put_block, read_block};
use cf_base::OutOfMemory;
use cf_clusters::{ClusterError, Data};
use cf_disk::DiskError;
use cf_journal::Journal;
use cf_volume_commit::Earlier;
use cf_volume_ground::Ground;
use cf_volume_image::Contents;
use cf_volume_points::Stop;
use std::alloc::Global;
use std::marker::Model;

/// Blocks in memory, and nothing that a crash leaves. They lie in memory up to the highest cluster that was ever staged, and all
/// behind it is zero. Room for the whole is taken at the start, so that no call takes memory, and what was never staged costs
/// nothing.
#[derive(Drop)]
pub struct Plain {
    bytes: Vec<u8>,
    clusters: u32,
    quota: u64,
    aim: Option<u64>,
}

impl Model for Plain {
    ghost use Rattle.std.specs.Prelude.{◌*◌, vec_capacity};
    ghost use Rattle.cf_disk.specs.Fronts.{filled};
    ghost use Rattle.cf_volume_plain.specs.Plains.{Blocks, IsFront};

    ghost Value = { Blocks };

    ghost view = { λ p. record { bytes = filled (4096 * p.clusters) 0 p.bytes.items; quota = p.quota; aim = p.aim } };

    ghost invariant = { λ p. IsFront p.clusters (vec_capacity p.bytes) p.bytes.items };
}

impl Plain {
    /// So many clusters, all of them zero, of which a volume may use as many as the quota says. A commit is wanted after as many
    /// changes as `aim` says, if it says a number. OutOfMemory where there is none.
    pub fn new(
        alloc: Global,
        clusters: u32,
        quota: u64,
        aim: Option<u64>,
    ) -> Result<Plain, OutOfMemory>
        ensures { IfOk result (λ p. p ≡ record { bytes = replicate (4096 * clusters) 0; quota = quota; aim = aim }) }
    {
        Ok(Plain {
            bytes: Vec::with_capacity(alloc, 4096 * clusters as usize)?,
            clusters,
            quota,
            aim,
        })
    }

    /// The same ground, with another number of changes after which a commit is wanted, or none.
    pub fn with_aim(mut self, aim: Option<u64>) -> Plain
        ensures { result ≡ record self { aim = aim } }
    {
        self.aim = aim;
        self
    }

    fn put(&mut self, cluster: u32, block: &[u8; 4096])
        requires { 4096 * cluster + 4096 ≤ length self.old.bytes }
        ensures { self.new ≡ record self.old { bytes = over (4096 * cluster) block.now self.old.bytes } }
    {
        put_block(&mut self.bytes, 4096 * cluster as usize, block);
    }

    fn read(&self, cluster: u32, block: &mut [u8; 4096])
        requires { 4096 * cluster + 4096 ≤ length self.now.bytes }
        ensures { block.new ≡ part (4096 * cluster) 4096 self.now.bytes }
    {
        read_block(&self.bytes, 4096 * cluster as usize, block);
    }
}

impl Ground for Plain {
    ghost use Rattle.cf_volume_plain.specs.Plains.{plain_state};

    ghost state = { plain_state };

    ghost writes = { λ n. 0 };

    fn stage(
        &mut self,
        held: &mut Data,
        old: Option<u32>,
        block: &[u8; 4096],
    ) -> Result<u32, ClusterError> {
        let Some(cluster) = held.take(old) else {
            return Err(ClusterError::Full);
        };
        self.put(cluster, block);
        Ok(cluster)
    }

    fn load(&mut self, held: &Data, cluster: u32, block: &mut [u8; 4096]) -> Result<(), DiskError> {
        self.read(cluster, block);
        Ok(())
    }

    /// The clusters are committed. There is nothing else to do.
    fn save(
        &mut self,
        alloc: Global,
        journal: &mut Journal,
        held: &mut Data,
        contents: &Contents,
        then: &Earlier,
    ) -> Result<(), Stop> {
        held.committed();
        Ok(())
    }

    fn aimed(&self) -> Option<u64> {
        self.aim
    }

    ghost same_size = { λ p c left. absurd left };
}
