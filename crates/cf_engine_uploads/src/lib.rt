//! The uploads of a pass.
//!
//! `push_all` gives each tombstone and then each item its turn, as they are when it begins. An upload draws a token, is recorded in the
//! book, notes the number that its item has, and is sent. Each step here answers what the definition of its name does, on the whole
//! state, as cf_engine_steps has it. Requests are sent by a `Sender`.
#![tactic(auto)]

mod entries;
mod exclusions;
mod files;
mod hydrations;
mod item_reads;
mod items;
mod push_lists;
mod removals;
mod requests;
mod senders;
mod turns;
mod uploads;

pub use exclusions::is_excluded;
pub use push_lists::push_all;
pub use senders::Sender;
