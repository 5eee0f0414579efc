//! The definitions of the whole system: what each event does and what it answers, over plain values. They compute.
//! docs/MODEL.md tells them to a reader.
//!
//! The functions are empty: their clauses are laws of the definitions, which show that these say what is meant.
#![tactic(auto)]

pub mod contents;
pub mod laws;
pub mod runs;
pub mod sanity;
pub mod traces;
