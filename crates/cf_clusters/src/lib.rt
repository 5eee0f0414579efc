//! The clusters of a volume, which hold the bytes of its blocks.
//!
//! A block is staged into a cluster that neither the last commit nor the state now holds, so that a crash leaves the
//! last commit's clusters as they were. It takes the lowest that is free, so that a disk is used from its front on. A
//! cluster that the state drops is free again once no commit holds it. Contracts see `Data` as the list of its
//! clusters' uses, by number.
#![tactic(auto)]

mod clusters;
mod free_numbers;
mod laws;
mod number_trees;
mod orders;
mod uses;

pub use clusters::{ClusterError, Data};
pub use laws::{commit_frees_all_else, one_more_or_less, stages_find_room, uses_add_up};
pub use uses::Use;
