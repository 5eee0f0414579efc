//! What the cursor has passed is known rightly, in each state of a run.
#![tactic(auto)]

pub mod known;
pub mod messages;
pub mod syncs;
