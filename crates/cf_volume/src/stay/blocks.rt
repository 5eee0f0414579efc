//! Blocks staged into clusters, as a change goes on.

ghost use Rattle.std.specs.Prelude.{◌≡◌, ◌≤◌, ◌<◌, ◌*◌, ℕ, List, Some, length, OnOk, IfErr};
ghost use Rattle.std.specs.Option.{ForSome};
ghost use Rattle.cf_volume_blocks.specs.Bytes.{HasEnd};
ghost use Rattle.cf_clusters.specs.Area.{KeepsWhere, place};
ghost use Rattle.cf_clusters.specs.Roles.{IsCommitted, IsUsed, how_many, is_free};
ghost use Rattle.cf_disk.specs.Disk.{Keeps, Leaves, size_of};
ghost use Rattle.cf_volume_points.specs.Staging.{StagesBlock};
ghost use Rattle.cf_volume_points.specs.Standing.{cluster_on};
ghost use Rattle.cf_ranges.specs.Pairs.{IsRising, Puts, cluster_at};
ghost use Rattle.cf_volume_changes.specs.Laid.{Lays, StagesAll};
ghost use Rattle.cf_volume_points.specs.Runs.{IsStop, Ran};

use cf_base::{Change, OutOfMemory};
use cf_clusters::{ClusterError, Data};
use cf_ranges::ExtentMap;
use cf_table::Row;
use cf_volume_blocks::lay_change;
use cf_volume_ground::Ground;
use cf_volume_points::Stop;

// Reads the bytes of a cluster into a block, which stays as it is where there is none.
pub(crate) fn load<G: Ground>(
    ground: &mut G,
    held: &Data,
    cluster: Option<u32>,
    block: &mut [u8; 4096],
) -> Result<(), Stop>
    requires room { place (length held.now) ≤ size_of (G.state ground.old) }
    requires inside { ForSome cluster (λ k. k < length held.now) }
    ensures got { OnOk result (ForSome cluster (λ k. block.new ≡ cluster_on (G.state ground.old).seen k)) }
    ensures keeps { Keeps (G.state ground.old) (G.state ground.new) }
    ensures crash { Leaves (G.state ground.old) (G.state ground.new) (G.state ground.old).may_leave }
    ensures ran { Ran 0 (G.state ground.old) (G.state ground.new) }
    ensures cause { IfErr result (λ e. IsStop e (G.state ground.old) (G.state ground.new)) }
{
    match cluster {
        None => Ok(()),
        Some(cluster) => match ground.load(held, cluster, block) {
            Ok(()) => Ok(()),
            Err(_) => Err(Stop::Device),
        },
    }
}

// Makes the cluster that of a block. The map tells that its blocks rise.
fn put_extent(extents: &mut ExtentMap, number: u32, cluster: u32) -> Result<(), OutOfMemory>
    ensures puts { OnOk result (Puts extents.old extents.new number (Some cluster)) }
    ensures before { IsRising extents.old }
    ensures rising { IsRising extents.new }
{
    let _ = extents.pairs();
    extents.put(number, cluster)?;
    let _ = extents.pairs();
    Ok(())
}

/// Stages the bytes of a block, in place of those that it has.
pub(crate) fn put_block<G: Ground>(
    ground: &mut G,
    held: &mut Data,
    extents: &mut ExtentMap,
    number: u32,
    block: &[u8; 4096],
) -> Result<(), Stop>
    requires room { place (length held.old) ≤ size_of (G.state ground.old) }
    requires inside { (b k : ℕ) → cluster_at extents.old b ≡ Some k → k < length held.old }
    requires free { 0 < how_many is_free held.old }
    ensures staged { OnOk result (StagesBlock number block.now (G.state ground.old) (G.state ground.new) held.old held.new extents.old extents.new) }
    ensures crash { Leaves (G.state ground.old) (G.state ground.new) (KeepsWhere IsUsed held.old (G.state ground.old)) }
    ensures ran { Ran 4096 (G.state ground.old) (G.state ground.new) }
    ensures cause { IfErr result (λ e. IsStop e (G.state ground.old) (G.state ground.new)) }
    ensures long { length held.new ≡ length held.old }
{
    let before = extents.get(number);
    match ground.stage(held, before, block) {
        Ok(cluster) => {
            put_extent(extents, number, cluster)?;
            Ok(())
        }
        Err(ClusterError::Full) => unreachable!(),
        Err(ClusterError::Failed) => Err(Stop::Device),
    }
}

// Stages one block: the bytes that it has, with those of the change over them. `row` is the row before the change.
fn stage_block<G: Ground>(
    ground: &mut G,
    held: &mut Data,
    row: &Row,
    extents: &mut ExtentMap,
    number: u32,
    change: &Change,
) -> Result<(), Stop>
    requires room { place (length held.old) ≤ size_of (G.state ground.old) }
    requires inside { (b k : ℕ) → cluster_at extents.old b ≡ Some k → k < length held.old }
    requires end { HasEnd change.now }
    requires free { 0 < how_many is_free held.old }
    ensures staged { OnOk result ((bytes : List ℕ) × StagesBlock number bytes (G.state ground.old) (G.state ground.new) held.old held.new extents.old extents.new × Lays change.now row.now number (G.state ground.old).seen (cluster_at extents.old number) bytes) }
    ensures crash { Leaves (G.state ground.old) (G.state ground.new) (KeepsWhere IsUsed held.old (G.state ground.old)) }
    ensures ran { Ran 4096 (G.state ground.old) (G.state ground.new) }
    ensures cause { IfErr result (λ e. IsStop e (G.state ground.old) (G.state ground.new)) }
    ensures long { length held.new ≡ length held.old }
{
    let before = extents.get(number);
    let mut block = [0u8; 4096];
    load(ground, held, before, &mut block)?;
    lay_change(&mut block, number as u64, row, change)?;
    put_block(ground, held, extents, number, &block)?;
    Ok(())
}

/// Stages the blocks of a change in order. `row` is the row before it.
pub(crate) fn stage_all<G: Ground>(
    ground: &mut G,
    held: &mut Data,
    row: &Row,
    extents: &mut ExtentMap,
    blocks: &[u32],
    change: &Change,
) -> Result<(), Stop>
    requires room { place (length held.old) ≤ size_of (G.state ground.old) }
    requires inside { (b k : ℕ) → cluster_at extents.old b ≡ Some k → k < length held.old }
    requires end { HasEnd change.now }
    requires free { length blocks.now ≤ how_many is_free held.old }
    ensures staged { OnOk result (StagesAll change.now row.now blocks.now blocks.now (G.state ground.old) (G.state ground.new) held.old held.new extents.old extents.new) }
    ensures crash { Leaves (G.state ground.old) (G.state ground.new) (KeepsWhere IsCommitted held.old (G.state ground.old)) }
    ensures ran { Ran (4096 * length blocks.now) (G.state ground.old) (G.state ground.new) }
    ensures cause { IfErr result (λ e. IsStop e (G.state ground.old) (G.state ground.new)) }
    ensures long { length held.new ≡ length held.old }
{
    for number in blocks {
        stage_block(ground, held, row, extents, *number, change)?;
    }
    Ok(())
}
