//! The calls of a filter, on anything that does its steps. A call meets Device only where a call of the device failed since it
//! began.
#![tactic(auto)]

mod call_values;
mod calls;
mod commits;
mod consents;
mod creations;
mod dehydrations;
mod directory_entries;
mod handles;
mod item_facts;
mod items;
mod listings;
mod marks;
mod moves;
mod operation_changes;
mod operations;
mod pins;
mod placeholders;
mod policies;
mod removals;
mod retrievals;
mod ticks;
mod transfers;
mod waits;
mod writes;

pub use call_values::{AskingCall, PlainCall, Question};
pub use calls::{answer, ask, make};
pub use commits::flush;
pub use creations::create;
pub use dehydrations::{dehydrate, dehydrate_range, facts_of};
pub use handles::{cancel, close, connect, open_file};
pub use item_facts::{info, ranges};
pub use items::is_used;
pub use marks::{keep_full, set_in_sync};
pub use moves::rename;
pub use operations::{execute, execute_with};
pub use pins::set_pin;
pub use placeholders::{convert, revert, unmark, update};
pub use policies::{df, set_policy, used};
pub use removals::delete;
pub use ticks::tick;
pub use waits::{get, hydrate, hydrate_file, list, read};
pub use writes::{set_size, write};
