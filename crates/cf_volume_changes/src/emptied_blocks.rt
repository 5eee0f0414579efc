//! Extents whose block holds no byte any more, dropped.

ghost use Rattle.std.specs.Prelude.{◌≡◌, ◌*◌, ◌^◌, ◌<◌, ℕ, Some, not, filter, length, map, take, IfOk, OnOk, MatchOption};
ghost use Rattle.std.specs.Option.{ForSome};
ghost use Rattle.cf_clusters.specs.Roles.{dropped_at};
ghost use Rattle.cf_volume_points.specs.Staging.{Drops, DropsOne};
ghost use Rattle.cf_ranges.specs.Pairs.{IsRising, cluster_at};
ghost use Rattle.cf_ranges.specs.Positions.{IsRuns, touches};
ghost use Rattle.cf_volume_changes.specs.Ahead.{EndsPast, IsAhead};
ghost use Rattle.cf_volume_changes.specs.Laid.{may_be_gone, takes_bytes};

use cf_base::limits::BLOCK_BYTES;
use cf_base::{Change, OutOfMemory, Span};
use cf_clusters::Data;
use cf_ranges::{ExtentMap, RangeSet, reaches};
use std::alloc::Global;

// The runs without those in front that end by the place.
fn runs_past(runs: &[Span], place: u64) -> &[Span]
    requires { IsRuns runs.now }
    ensures ahead { IsAhead place runs.now result.now }
    ensures ends { EndsPast place result.now }
{
    for (i, run) in runs.iter().enumerate() {
        if reaches(*run, place) {
            return &runs[i..];
        }
    }
    &[]
}

// Whether the block has a place of the runs. The first of them ends past the start of the block.
fn is_met(runs: &[Span], block: u64) -> bool
    requires runs { IsRuns runs.now }
    requires ends { EndsPast (4096 * block) runs.now }
    requires small { block < 2 ^ 32 }
    ensures { result ≡ touches runs.now block }
{
    match runs {
        [] => false,
        [first, ..] => first.start < BLOCK_BYTES * block + BLOCK_BYTES,
    }
}

// The blocks of extents that have no place of the set. Both rise, so that one walk over the runs serves all blocks.
fn gone_blocks(
    alloc: Global,
    here: &RangeSet,
    pairs: &[(u32, u32)],
) -> Result<Vec<u32>, OutOfMemory>
    requires { IsRising pairs.now }
    ensures { IfOk result (λ v. v.items ≡ filter (λ b. not (touches here.now b)) (map (λ (e : ℕ × ℕ). e.0) pairs.now)) }
{
    let mut gone = Vec::new(alloc);
    let mut ahead = here.runs();
    for pair in pairs {
        let block = pair.0 as u64;
        ahead = runs_past(ahead, BLOCK_BYTES * block);
        if !is_met(ahead, block) {
            gone.push(pair.0)?;
        }
    }
    Ok(gone)
}

// Those of the blocks that have no place of the set.
fn untouched(alloc: Global, here: &RangeSet, blocks: &[u32]) -> Result<Vec<u32>, OutOfMemory>
    ensures { IfOk result (λ v. v.items ≡ filter (λ b. not (touches here.now b)) blocks.now) }
{
    let mut gone = Vec::new(alloc);
    for block in blocks {
        if !here.touches(*block as u64) {
            gone.push(*block)?;
        }
    }
    Ok(gone)
}

// Whether bytes may leave a file by the change.
fn takes_bytes(change: &Change) -> bool
    ensures { result ≡ takes_bytes change.now }
{
    matches!(
        change,
        Change::Size { .. } | Change::Emptied { .. } | Change::Take { .. }
    )
}

// The blocks that have no place of the set: of all with an extent where bytes may leave, and else of those into which the
// change put bytes. Each of the others with an extent held a byte before, which is still here.
fn gone_after(
    alloc: Global,
    here: &RangeSet,
    pairs: &[(u32, u32)],
    blocks: &[u32],
    change: &Change,
) -> Result<Vec<u32>, OutOfMemory>
    requires { IsRising pairs.now }
    ensures { IfOk result (λ v. v.items ≡ filter (λ b. not (touches here.now b)) (may_be_gone change.now blocks.now pairs.now)) }
{
    if takes_bytes(change) {
        gone_blocks(alloc, here, pairs)
    } else {
        untouched(alloc, here, blocks)
    }
}

fn drop_cluster(held: &mut Data, cluster: Option<u32>)
    requires { ForSome cluster (λ k. k < length held.old) }
    ensures { MatchOption cluster (held.new ≡ held.old) (λ k. held.new ≡ dropped_at k held.old) }
{
    match cluster {
        None => {}
        Some(cluster) => held.drop_block(cluster),
    }
}

// Takes the extent of a block out, if there is one, and drops its cluster. The map tells that its blocks rise.
fn drop_extent(held: &mut Data, extents: &mut ExtentMap, number: u32)
    requires { (b k : ℕ) → cluster_at extents.old b ≡ Some k → k < length held.old }
    ensures { DropsOne number held.old held.new extents.old extents.new }
{
    let _ = extents.pairs();
    let cluster = extents.take(number);
    drop_cluster(held, cluster);
    let _ = extents.pairs();
}

fn drop_blocks(held: &mut Data, extents: &mut ExtentMap, blocks: &[u32])
    requires { (b k : ℕ) → cluster_at extents.old b ≡ Some k → k < length held.old }
    ensures { Drops blocks.now held.old held.new extents.old extents.new }
{
    let _ = extents.pairs();
    for number in blocks {
        drop_extent(held, extents, *number);
    }
}

/// Drops the extents whose block has no place of the set after a change, which put bytes into these blocks. OutOfMemory where
/// there is none; then nothing is dropped.
pub fn drop_gone(
    alloc: Global,
    held: &mut Data,
    here: &RangeSet,
    extents: &mut ExtentMap,
    blocks: &[u32],
    change: &Change,
) -> Result<(), OutOfMemory>
    requires { (b k : ℕ) → cluster_at extents.old b ≡ Some k → k < length held.old }
    ensures { OnOk result (Drops (filter (λ b. not (touches here.now b)) (may_be_gone change.now blocks.now extents.old)) held.old held.new extents.old extents.new) }
{
    let gone = gone_after(alloc, here, extents.pairs(), blocks, change)?;
    drop_blocks(held, extents, &gone);
    Ok(())
}
