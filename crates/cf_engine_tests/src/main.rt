//! Tests of messages, the remote, the link, the parts of an engine, and what an engine does on a filter. What comes of a feed's entries,
//! of events of another device and of messages in turn, scripts show.
//!
//! Nothing stands on tests, so they are a program, which does nothing.
#![tactic(auto)]

#[cfg(test)]
mod engine_feed;
#[cfg(test)]
mod engine_passes;
#[cfg(test)]
mod engine_provider;
#[cfg(test)]
mod engine_queue;
#[cfg(test)]
mod filter;
#[cfg(test)]
mod link;
#[cfg(test)]
mod remote;
#[cfg(test)]
mod wire;

fn main() {}
