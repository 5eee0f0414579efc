//! The link to the remote: what an engine speaks with.
//!
//! A `Link` keeps the messages by number and the remote. `post` sends a request, `come` hands one to the remote, which sends its
//! reply; under an inline link the engine does both at once. `arrive` and `reply` do by hand what an inline link does at once.
//! Lines are given back as values, because inside a callback they go to a port, and outside to an event's notes. The remote comes
//! out and goes in by `part` and `join`. specs/Linked says how a link stands for that of the definitions, and what its calls do.
#![tactic(auto)]

mod arrivals;
mod asks;
mod links;
mod mailboxes;
mod posts;
mod replies;
mod requests;

pub use links::Link;
pub use mailboxes::Mailbox;
pub use posts::Posted;
pub use replies::Replied;
pub use requests::Came;
