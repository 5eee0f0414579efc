//! The filter: a volume, and what stands in memory beside it until a restart. A `Filter` stands on a disk, a `FilterOn` on any ground.
//!
//! Contracts see a `Filter` as its disk, what is known of the volume on it, and its desk (specs/Held of `cf_filter_machine`). How these stand for
//! states of the definitions says `sense` (specs/Sensing there). Where the device stops a call, the disk's count of faults rose
//! since that call began (`Rose`, there).
#![tactic(auto)]

mod anchors;
mod answers;
mod callbacks;
mod calls;
mod engine_steps;
mod filters;
mod host_steps;
mod hosts;
mod item_calls;
mod item_facts;
mod openings;
mod operations;
mod placements;
mod ports;
mod readouts;
mod reads;
mod records;
mod sessions;
mod settings;
mod shown_values;
mod steps;
mod writes;

pub use answers::{Info, Waited};
pub use filters::{Filter, FilterOn};
pub use shown_values::Told;
