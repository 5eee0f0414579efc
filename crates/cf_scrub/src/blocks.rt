//! Whether a file has a cluster just for each block that holds a byte.

ghost use Rattle.std.specs.Prelude.{◌≡◌, ◌+◌, ◌-◌, ◌≤◌, ◌<◌, ◌^◌, map};
ghost use Rattle.std.specs.List.{list_all};
ghost use Rattle.cf_model.specs.Words.{counting};
ghost use Rattle.cf_ranges.specs.Positions.{IsRuns, touches};
ghost use Rattle.cf_scrub.specs.Blocks.{are_blocks_of, blocks_of};
ghost use Rattle.cf_table.specs.Spelling.{extent_of};
ghost use Rattle.cf_volume_image.specs.Sound.{has_block};

use crate::places::last_begun;
use cf_base::Span;
use cf_ranges::{ExtentMap, RangeSet};

const BLOCK: u64 = 4096;

fn has_block(extents: &ExtentMap, block: u32) -> bool
    ensures { result ≡ has_block (map extent_of extents.now) block }
{
    match extents.get(block) {
        Some(_) => true,
        None => false,
    }
}

// Whether each block from one on to another has a cluster. It stops at the first that has none.
fn has_blocks(extents: &ExtentMap, from: u32, to: u32) -> bool
    requires { from ≤ to }
    ensures { result ≡ list_all (has_block (map extent_of extents.now)) (counting from (to - from)) }
{
    for block in from..to {
        if !has_block(extents, block) {
            return false;
        }
    }
    true
}

// Whether each block that has a place of the run has a cluster.
fn has_blocks_of(extents: &ExtentMap, run: Span) -> bool
    requires some { 0 < run.len }
    requires small { run.start + run.len ≤ 2 ^ 40 }
    ensures { result ≡ list_all (has_block (map extent_of extents.now)) (blocks_of run) }
{
    let from = run.start / BLOCK;
    let to = (run.start + run.len - 1) / BLOCK + 1;
    has_blocks(extents, from as u32, to as u32)
}

// Whether the block has a place of the set. By a binary search.
fn touches(runs: &[Span], block: u32) -> bool
    requires { IsRuns runs.now }
    ensures { result ≡ touches runs.now block }
{
    let first = BLOCK * block as u64;
    match last_begun(runs, first + (BLOCK - 1)) {
        None => false,
        Some(last) => first < last.start + last.len,
    }
}

fn have_blocks(extents: &ExtentMap, runs: &[Span]) -> bool
    requires { IsRuns runs.now }
    ensures { result ≡ list_all (λ s. list_all (has_block (map extent_of extents.now)) (blocks_of s)) runs.now }
{
    for run in runs {
        if !has_blocks_of(extents, *run) {
            return false;
        }
    }
    true
}

fn are_touched(pairs: &[(u32, u32)], runs: &[Span]) -> bool
    requires { IsRuns runs.now }
    ensures { result ≡ list_all (λ p. touches runs.now p.0) pairs.now }
{
    pairs.iter().all(|pair| touches(runs, pair.0))
}

/// Whether there is a cluster just for each block that has a place of the set.
pub(crate) fn are_blocks_of(extents: &ExtentMap, here: &RangeSet) -> bool
    ensures { result ≡ are_blocks_of (map extent_of extents.now) here.now }
{
    let runs = here.runs();
    have_blocks(extents, runs) && are_touched(extents.pairs(), runs)
}
