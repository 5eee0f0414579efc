//! Scripts that are made of a number, and the summary of a run.
//!
//! `specs/Scripts.antt` says which script a number makes, as a list of lines. `specs/Lines.antt` says how a line is written,
//! and which event it is. `specs/Summaries.antt` has the five numbers that are told of a run.
#![tactic(auto)]

mod draws;
mod generators;
mod laws;
mod lines;
mod prints;
mod rounds;
mod scripts;
mod summaries;

pub use laws::{made_script_is_short, made_script_spells};
pub use scripts::gen_script;
pub use summaries::Counts;
