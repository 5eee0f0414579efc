//! Worked rows of the headline: small reports in which one line, byte or number was changed, each with the sentence that is
//! false of it.
#![tactic(auto)]

pub mod rows;
