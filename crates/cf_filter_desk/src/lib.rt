//! The desk of a filter: what stands in memory beside a volume until a restart. Handles, waits, asks that no callback had yet, the lines of
//! the running event, and whether a call was stopped.
//!
//! Contracts see a `Desk` as the fields of a filter of the definitions that a restart forgets (specs/Desks). It knows no volume: what
//! it has to know of a file is handed in as its row.
#![tactic(auto)]

mod desks;
mod missing_bytes;
mod open_files;

pub use desks::Desk;
pub use missing_bytes::{is_met_gone, is_met_on};
pub use open_files::Open;
