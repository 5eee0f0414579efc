//! Directories that are populated from their start: laws over the definitions.
#![tactic(auto)]

pub mod directories;
pub mod passed;
pub mod syncs;
