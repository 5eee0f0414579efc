//! Sets of positions, extents of a file, and claims on its blocks.
//!
//! A `RangeSet` is the set of its positions: contracts see its maximal runs in order, and say by position what a call
//! does. An `ExtentMap` is a finite map from blocks to clusters: contracts see its pairs in order of block. `Claims`
//! keeps the blocks of a file that are owned. Each owned block belongs to one `Claim`, which can't be dropped, only spent.
#![tactic(auto)]

mod claims;
mod extent_maps;
mod laws;
mod pair_lists;
mod range_sets;
mod run_lists;

pub use claims::{Claim, Claims, Spent};
pub use extent_maps::ExtentMap;
pub use laws::{claim_splits, one_list_of_pairs, one_list_of_runs, others_stay, taken_is_apart};
pub use range_sets::RangeSet;
pub use run_lists::reaches;
