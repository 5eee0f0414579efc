//! Items of the remote that the cursor has passed are here, in each state of a run: laws over the definitions.
#![tactic(auto)]

pub mod examples;
pub mod runs;
pub mod syncs;
