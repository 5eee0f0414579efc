//! How the answers to the events of a script of two devices are written.
#![tactic(auto)]

mod comparisons;
mod texts;

pub use texts::text;
