//! The messages of the engine: what a reply of the remote does.
//!
//! A reply that does not fit its request, or for which nothing waits any more, is stale: `is_stale` tells it by the items, the asks and
//! the records as they are then. One that is not does one thing, which `act_on` does: bytes and entries become one operation on their
//! ask, a feed is applied by cf_engine_feed, and the reply to an upload acts on its entry by cf_engine_replies. `send` sends a request, what an upload is about being durable first; under an inline link its reply is taken at once. Each step
//! here answers what the definition of its name does, on the whole state, as cf_engine_steps has it.
#![tactic(auto)]

mod listings;
mod operations;
mod refusals;
mod replies;
mod staleness;
mod upload_replies;

pub use listings::take_listing;
pub use operations::take_bytes;
pub use refusals::{take_gone, take_missing};
pub use replies::{act_on, send, take_reply};
pub use staleness::is_stale;
