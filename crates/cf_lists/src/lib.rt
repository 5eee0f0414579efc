//! Lemmas of lists that are kept in order, for the crates that keep such lists. It has no code.
#![tactic(auto)]
