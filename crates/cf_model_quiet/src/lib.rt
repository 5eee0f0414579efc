//! Quiet events of the engine, and the asks of dehydrations: laws over the definitions.
#![tactic(auto)]

pub mod dehydrations;
pub mod examples;
pub mod syncs;
