//! The calls that wait, what the provider is asked for them, and how both end.
#![tactic(auto)]

mod ask_ages;
mod ask_books;
mod ask_lists;
mod begins;
mod calls;
mod changed;
mod entries;
mod limits;
mod lines;
mod moves;
mod near_waits;
mod plans;
mod queries;
mod requests;
mod settled;
mod turns;
mod wait_books;
mod wait_lists;

pub use limits::Limits;
pub use moves::Moves;
pub use requests::{Requests, Step};
