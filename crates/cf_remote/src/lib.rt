//! The remote, and what it holds.
//!
//! A `Remote` does requests, and finds one name in a directory, which is one request too. What it tells of itself (what it
//! holds, how often it was asked, which asks fail, how often it failed) is optional: a clause says nothing of what is not
//! told. `StoreRemote` holds everything in memory, and each ask of it is `remote_step` of the definitions; `FlakyRemote` is
//! one of which listed asks fail. Items stand in order of rid, beside an index by parent and name in chunks, and tokens beside an
//! index of their own, so that no look-up walks the whole store, and no change moves all names. `peer` does what another device does, with any remote.
#![tactic(auto)]

mod ask_errors;
mod by_name;
mod changes;
mod decisions;
mod depths;
mod entries;
mod feeds;
mod find_errors;
mod flaky_remotes;
mod laws;
mod lookups;
mod mutations;
mod outcomes;
mod paths;
mod peers;
mod plans;
mod remotes;
mod seen;
mod sending;
mod shelves;
mod stops;
mod store_remotes;
mod stored;
mod stores;
mod tokens;

pub use ask_errors::AskError;
pub use find_errors::FindError;
pub use flaky_remotes::FlakyRemote;
pub use laws::{a_remote_only_grows, a_removed_item_keeps_its_versions, a_token_makes_one_version};
pub use peers::peer;
pub use remotes::Remote;
pub use store_remotes::StoreRemote;
