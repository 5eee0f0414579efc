//! What a report promises of the events after which both sides agree: laws over the definitions.
#![tactic(auto)]

mod laws;

pub use laws::each_silent_sync_settles;
