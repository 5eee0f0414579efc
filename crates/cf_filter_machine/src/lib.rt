//! The machine of a filter: a volume on a disk and a desk beside it, which do the steps of which calls are made.
//!
//! Contracts see a `Machine` as its disk, what is known of the volume on it, and its desk (specs/Held). How these stand for
//! states of the definitions says `sense` (specs/Sensing). Where the device stops a step, the disk's count of faults rose in that
//! step (`Rose`, there). Calls are the business of the crates above: a `Machine` alone promises its steps.
#![tactic(auto)]

mod ends;
mod entries;
mod entry_lists;
mod filter_steps;
mod limits;
mod machines;
mod removals;
mod rows;
mod tombstones;

pub use cf_filter_desk::Desk;
pub use machines::{Machine, MachineOn};
