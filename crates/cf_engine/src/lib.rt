//! The sync engine on a filter.
//!
//! `SyncActor` is an engine as the actor beside a filter in the world of the command `replay`: the provider of the filter's callbacks, and
//! what does the events of the engine and of other devices. specs/Actors says how it stands for its part of a state of the definitions.
//! An event of the engine is one session of notes on the filter: what it does is one step of the definitions with the answer that it
//! gives, also where the device stopped it.
//!
//! `SyncEngine` is the same on a disk, as a library that a cloud client links: the calls of an application, and those of the engine. It opens
//! only what an engine leaves, as specs/Openings has it; the world opens what its own run left, and asks for nothing more.
#![tactic(auto)]

mod actors;
mod beside;
mod engines;
mod openings;
mod sessions;

pub use actors::SyncActor;
pub use engines::SyncEngine;
