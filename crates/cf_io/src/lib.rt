//! Where bytes come from and where they go.
//!
//! A `Source` and a `Sink` tell contracts, where they can, the bytes that they have left or hold, and always how often
//! they failed. They answer a fault only where that count rose in the call. `read_all` gives a whole source within a
//! limit, `read_up_to` the front of one, and `write_all` adds all bytes or, at a fault, some front of them.
#![tactic(auto)]

mod faults;
mod memory;
mod null_sinks;
mod readings;
mod sinks;
mod sources;
mod system;

pub use faults::{IoError, ReadError};
pub use memory::{MemSink, MemSource};
pub use null_sinks::NullSink;
pub use readings::{read_all, read_up_to};
pub use sinks::{Sink, write_all};
pub use sources::Source;
pub use system::{StdSink, StdSource};
