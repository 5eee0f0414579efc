//! The passes of the engine, and the replies that are handed to it one by one.
//!
//! A pass asks first what became of each upload that has no reply yet (`settle_all`), then for the feed (`ask_feed`), and then uploads
//! what the remote lacks. `work` is the event of one pass, `sync` that of passes until one has nothing more to do; `deliver` is that of a
//! reply that is kept, which is handed to the engine. Each step here answers what the definition of its name does, on the whole state, as
//! cf_engine_steps has it.
#![tactic(auto)]

mod deliveries;
mod feeds;
mod passes;
mod senders;
mod settlements;
mod syncs;
mod unsettled;

pub use deliveries::deliver;
pub use feeds::ask_feed;
pub use passes::{pass, work};
pub use settlements::settle_all;
pub use syncs::sync;
