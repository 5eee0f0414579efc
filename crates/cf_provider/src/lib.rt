//! What a provider may do inside a callback.
//!
//! A provider acts on a `Port`, by operations and notes and nothing else. Contracts see the acts that lead from one state
//! of a port to another, and of a provider the acts by which it answers a callback, by what it sees: it is proved for any port.
#![tactic(auto)]

mod checks;
mod laws;
mod outcomes;
mod ports;
mod recorders;

pub use checks::{check, key_of, touched_blocks};
pub use laws::check_is_first;
pub use outcomes::{Callback, Outcome};
pub use ports::{Port, Provider};
pub use recorders::{Kept, Recorder};
