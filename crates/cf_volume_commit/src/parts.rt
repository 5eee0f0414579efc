//! The parts of a volume.

use cf_clusters::Data;
use cf_journal::Journal;
use cf_volume_image::Contents;

/// A volume that was just made or opened, in parts. They go with the disk on which it was.
#[derive(Drop)]
pub struct Parts {
    pub journal: Journal,
    pub held: Data,
    pub contents: Contents,
    /// How many of the disk's clusters the volume may use.
    pub limit: u32,
}
