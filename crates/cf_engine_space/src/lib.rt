//! Room that the engine makes.
//!
//! `space` dehydrates files until at most so many blocks are used, those whose last access is longest ago first. Which files these are is
//! planned before the first of them leaves (`plan`). Each step here answers what the definition of its name does, on the whole state, as
//! cf_engine_steps has it.
#![tactic(auto)]

mod candidates;
mod eligible_files;
mod number_limits;
mod plans;
mod spaces;

pub use spaces::space;
