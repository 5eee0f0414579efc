//! Worked rows of two devices on one remote, computed by the definitions.
#![tactic(auto)]

pub mod rows;
