//! Tests of whole runs, and of the engine as a client of this library links it.
//!
//! Nothing stands on tests, so they are a program, which does nothing.
#![tactic(auto)]

#[cfg(test)]
mod client;
#[cfg(test)]
mod openings;
#[cfg(test)]
mod world;

/// The size of a device of 64 blocks, in bytes.
#[cfg(test)]
const SMALL: u64 = 3_145_728 + 64 * 4096;

fn main() {}
