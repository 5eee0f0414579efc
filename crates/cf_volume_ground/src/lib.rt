//! What a volume stands on.
//!
//! A `Ground` takes the blocks of a volume and keeps its points. `DiskGround` is the one that programs use: a disk, on which a
//! crash leaves the last point. Clauses see every ground as a disk, and one that no crash leaves as a disk of which a crash
//! leaves nothing.
#![tactic(auto)]

mod disk_grounds;
mod grounds;

pub use disk_grounds::DiskGround;
pub use grounds::Ground;
