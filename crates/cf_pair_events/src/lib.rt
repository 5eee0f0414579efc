//! The events of a script of two devices that share a remote, and what the comparison of them answers.
#![tactic(auto)]

mod answers;
mod comparisons;
mod device_events;
mod events;

pub use answers::PairAnswer;
pub use comparisons::Comparison;
pub use device_events::is_of_device;
pub use events::PairEvent;
