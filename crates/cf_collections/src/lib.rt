//! Lists that change in the middle in little time.
#![tactic(auto)]

mod chunked_lists;
mod chunks;
mod items;
mod orders;
mod probes;
mod searches;
mod spare_lists;

pub use chunked_lists::ChunkedList;
pub use items::Items;
pub use orders::Order;
pub use probes::Probe;
pub use spare_lists::SpareList;
