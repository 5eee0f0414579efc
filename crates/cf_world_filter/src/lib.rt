//! The world of the command `filter`, without its trace: a filter on a disk, the scripted provider beside it, and crashes and restarts.
//!
//! What it shares with the world of `replay` is in cf_filter_events. Here are the scripted provider as an actor, and the events of a
//! provider.
#![tactic(auto)]

mod actors;
mod placeholders;
mod plans;
mod provider_events;

pub use actors::ScriptActor;
