//! Two devices that are settled on one remote: a comparison of them says equal.
#![tactic(auto)]

mod pairs;
pub mod rows;
mod states;

pub use pairs::settled_pairs_compare_equal;
pub use states::{settled_devices_compare_equal, settled_devices_have_equal_contents};
