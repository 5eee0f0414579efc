//! The headline's sentences as laws over the definitions, for every lawful trace.
#![tactic(auto)]

pub mod callbacks;
pub mod changes;
pub mod contents;
pub mod dehydration;
pub mod local_writes;
pub mod openings;
pub mod single_use;
pub mod uses;
