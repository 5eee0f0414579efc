//! The engine as a provider: what it does in a callback.
//!
//! To a fetch ask it sends Fetch, to a list ask List, and it consents to a dehydration. Under an inline link the request comes to
//! the remote at once, and its reply becomes one operation on the ask. What a reply is looked at with is read from the port
//! before the first act. specs/Answering says by which acts a callback is answered, and a law that this is the definitions' own.
//! What a reply does is public for replies that come later, outside a callback.
#![tactic(auto)]

mod agents;
mod attempts;
mod callbacks;
mod entries;
mod exchanges;
mod fetches;
mod laws;
mod link_calls;
mod list_views;
mod listings;
mod locals;
mod message_lines;
mod replies;
mod requests;

pub use agents::Agent;
pub use entries::{new_items, paths_from, unknown};
pub use list_views::{Found, find};
pub use locals::{Locals, locals_of, target_of};
