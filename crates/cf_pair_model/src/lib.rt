//! Two devices that share one remote: what each sees of it, by definitions and laws.
//!
//! The tokens of both devices begin alike. So those of the second stand with raised epochs at the remote, and each device sees
//! what the remote holds with the epochs that it sent itself.
#![tactic(auto)]

mod devices;
mod laws;
mod limits;

pub use devices::Device;
pub use laws::{a_step_is_seen_alike, lanes_are_apart, what_is_crossed_twice_is_as_before};
pub use limits::LANE_EPOCHS;
