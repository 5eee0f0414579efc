//! Scripts: the events that a text spells, and the text that spells events.
#![tactic(auto)]

mod calls;
mod command_lines;
mod laws;
mod lines;
mod operations;
mod peers;
mod providers;
mod script_errors;
mod scripts;
mod short_lines;

pub use cf_script_print::print;
pub use laws::{all_of_the_mode, can_spell, one_event, one_reading, reads_back};
pub use lines::event_of_line;
pub use script_errors::ScriptError;
pub use scripts::{MOST_EVENTS, is_event_line, next_line, read};
