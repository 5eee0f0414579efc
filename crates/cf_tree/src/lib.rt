//! Items by path, and where they stand in the tree.
#![tactic(auto)]

mod conflicts;
mod finds;
mod laws;
mod levels;
mod lines;
mod moves;
mod names;
mod paths;
mod trees;

pub use conflicts::conflict_name;
pub use finds::{find, find_below, find_parent};
pub use laws::{changes_keep_trees, places_have_room, plans_keep_trees};
pub use lines::{Line, depth_of, line_of, parent_of};
pub use moves::{check_move, is_too_deep};
pub use names::{MOST_NAMES, Names, bad_path};
pub use paths::path_of;
pub use trees::tree_of;
