//! When the items here and those of the remote come to be alike: laws over the definitions.
#![tactic(auto)]

pub mod books;
pub mod examples;
pub mod known;
pub mod passes;
pub mod remotes;
pub mod rounds;
pub mod settled;
pub mod syncs;
pub mod trees;
pub mod turns;
