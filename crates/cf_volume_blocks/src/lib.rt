//! The blocks into which a change puts bytes, and the bytes that it puts there.
//!
//! A block is 4,096 bytes of a file. A volume writes whole blocks: `blocks_put` says which of them a change needs, and
//! `lay_change` puts its bytes over what a block had.
#![tactic(auto)]

mod blocks;
mod overlays;

pub use blocks::blocks_put;
pub use overlays::lay_change;
