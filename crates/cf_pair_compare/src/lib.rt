//! Where the trees of two devices differ first.
//!
//! A tree is compared as a list of what stands at each path, in the order of the bytes of the paths. So one pass over both
//! lists finds the first path at which they differ.
#![tactic(auto)]

mod passes;
mod path_rows;

pub use passes::first_unequal;
pub use path_rows::PathRow;
