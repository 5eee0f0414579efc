//! The steps of one entry of a feed, and the order in which a feed's entries come.
//!
//! The steps are told on the rows as they are before the first of them. What they do in turn is what the rules of feeds say of
//! the entry, whatever step is left out on the way (`IsTurn`).
#![tactic(auto)]

mod ancestors;
mod changed_entries;
mod entry_steps;
mod gone_entries;
mod identities;
mod known;
mod laws;
mod names;
mod new_entries;
mod orders;
mod turns;

pub use changed_entries::copy_off;
pub use entry_steps::{Step, Turn};
pub use known::Known;
pub use laws::{a_copy_is_its_change, steps_do_the_turn};
pub use orders::{order, places_are_in_turn};
pub use turns::steps;
