//! The comparison of the trees of two devices, in whatever order they are listed.
#![tactic(auto)]

mod comparisons;
mod laws;
mod orders;

pub use comparisons::compare;
pub use laws::one_comparison;
