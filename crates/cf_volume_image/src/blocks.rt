//! The clusters of a file: one just for each block that holds a byte.

ghost use Rattle.std.specs.Prelude.{true};
ghost use Rattle.std.specs.Bool.{Decides};
ghost use Rattle.cf_base.specs.declared.limits.TheConstants.{MOST_FILE_BYTES};
ghost use Rattle.cf_volume_image.specs.Sets.{HasBlocks, HasBlocksOf, HaveBytes};
ghost use Rattle.cf_ranges.specs.Positions.{IsBelow, IsRuns};

use cf_base::Span;
use cf_ranges::{ExtentMap, RangeSet};

const BLOCK: u64 = 4096;

// Whether there is a cluster for each block from one on to another.
fn has_blocks(extents: &ExtentMap, from: u32, to: u32) -> bool
    ensures { Decides result (HasBlocks extents.now from to) }
{
    for block in from..to {
        if extents.get(block).is_none() {
            return false;
        }
    }
    true
}

// Whether there is a cluster for each block that has a place of the set. Places are below 16,777,216.
fn has_blocks_of(extents: &ExtentMap, runs: &[Span]) -> bool
    requires runs { IsRuns runs.now }
    requires small { IsBelow runs.now MOST_FILE_BYTES }
    ensures { Decides result (HasBlocksOf extents.now runs.now) }
{
    for run in runs {
        let from = run.start / BLOCK;
        let to = (run.start + run.len - 1) / BLOCK + 1;
        if !has_blocks(extents, from as u32, to as u32) {
            return false;
        }
    }
    true
}

// Whether each block that has a cluster has a place of the set.
fn have_bytes(pairs: &[(u32, u32)], here: &RangeSet) -> bool
    ensures { Decides result (HaveBytes pairs.now here.now) }
{
    for pair in pairs {
        if !here.touches(pair.0 as u64) {
            return false;
        }
    }
    true
}

/// Whether there is a cluster just for each block that has a place of the set. Places are below 16,777,216.
pub(crate) fn are_blocks_of(extents: &ExtentMap, here: &RangeSet) -> bool
    requires { IsBelow here.now MOST_FILE_BYTES }
    ensures { Decides result (HasBlocksOf extents.now here.now × HaveBytes extents.now here.now) }
{
    has_blocks_of(extents, here.runs()) && have_bytes(extents.pairs(), here)
}
