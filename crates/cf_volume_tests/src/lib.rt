//! Tests of volumes.
#![tactic(auto)]

#[cfg(test)]
mod volume;
