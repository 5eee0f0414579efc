//! What commands do with the bytes of a device: `migrate` puts a volume into format 2, `judge` says what is wrong with it, and the bytes
//! are handed to a sink. No script is read, and no event is done.
//!
//! What they write and leave, by the status with which they end, say specs/Migrations and specs/Scrubs.
#![tactic(auto)]

mod device_bytes;
mod migrations;
mod scrubs;
mod sizes;

pub use device_bytes::{hand_out, written};
pub use migrations::migrate;
pub use scrubs::judge;
pub use sizes::is_fit;
