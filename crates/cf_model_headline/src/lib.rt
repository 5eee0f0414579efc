//! What a user of the product may rely on, told by the answers in a report: laws over the definitions, for every lawful trace.
#![tactic(auto)]

pub mod dehydrated;
pub mod headline;
pub mod kept_bytes;
pub mod marked;
pub mod reports;
pub mod resumed;
pub mod tokens;
