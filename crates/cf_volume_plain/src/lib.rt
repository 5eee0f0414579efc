//! A volume that need not stand on a disk.
//!
//! `Plain` is a ground that no crash leaves: blocks in memory, and no journal. `start` makes an empty volume on one, which does
//! all that a volume on a disk does, and `restart` takes it back to its last point, as an opening does. Its clauses see the
//! ground as a disk of which a crash leaves nothing (specs/Plains).
#![tactic(auto)]

mod blocks;
mod plains;
mod restarts;
mod starts;

pub use plains::Plain;
pub use restarts::restart;
pub use starts::start;
