//! What a reply to an upload does.
//!
//! `take_done`, `take_void` and `take_refused` do to the entry of an upload what the definitions of their names say. Done ends it, and
//! the base of its file takes the writes up to the entry's number in. Void ends it. Refused ends it, holds its item or tombstone back
//! until a feed, and goes on as the reason says. Where the Rebase of a Done finds no room nothing is done but a line, and the entry
//! stays live: `refuse_without` asks for that room without the entry's record, and leaves all as it was.
#![tactic(auto)]

mod done;
mod entries;
mod rebase_room;
mod rebases;
mod refusals;
mod refused_again;
mod removals;
mod seen_paths;
mod tombstones;

pub use done::take_done;
pub use entries::take_void;
pub use refusals::take_refused;
