//! Scripts of two devices: the events that a text spells.
#![tactic(auto)]

mod laws;
mod lines;
mod scripts;

pub use laws::{one_pair_event, one_pair_reading};
pub use lines::event_of_line;
pub use scripts::read;
