//! What stands at the paths of a table of rows, for the comparison of two devices.
//!
//! `path_rows` gives what the definitions say of each state whose items the rows mean. In such a state no path stands
//! twice, and items are orderly.
#![tactic(auto)]

mod laws;
mod listings;
mod paths;

pub use laws::{a_tree_is_orderly, no_path_stands_twice};
pub use listings::path_rows;
