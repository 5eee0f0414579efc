//! The scripted provider of the command `filter`.
//!
//! A script plans operations; the next callback takes them all and does them in order, each with its line. Contracts say by
//! which acts a callback is answered, for any port, and that this is what the definitions' provider does.
#![tactic(auto)]

mod laws;
mod plan_steps;
mod scripted;

pub use laws::a_callback_takes_the_plan;
pub use scripted::{Planned, Scripted};
