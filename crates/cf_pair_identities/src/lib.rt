//! The identities of the items of two devices are those that an engine spells, as laws over the definitions.
#![tactic(auto)]

mod laws;

pub use laws::{directories_stay_filled, identities_stay_named};
