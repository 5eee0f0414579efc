//! An answer held against the report that should go on with it, and what the report tells of a remote that failed.
//!
//! What `compare` promises is what a judge of the report builds on. `tellings` gives what the definition of that judge says.
#![tactic(auto)]

mod answers;
mod comparisons;
mod events;
mod lines;
mod told_faults;

pub use comparisons::{Comparison, compare};
pub use events::{is_foreign, is_restart};
pub use lines::{after, begins, fails_next, next_result};
pub use told_faults::tellings;
