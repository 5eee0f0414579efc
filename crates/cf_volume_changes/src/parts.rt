//! What a program knows of a volume.

use cf_clusters::Data;
use cf_journal::Journal;
use cf_volume_image::Contents;
use cf_volume_points::Earlier;
use std::alloc::Global;

/// What a program knows of a volume.
#[derive(Drop)]
pub struct Parts {
    pub alloc: Global,
    pub journal: Journal,
    pub held: Data,
    pub contents: Contents,
    /// What changed since the last point, as it was at it.
    pub then: Earlier,
    /// How many changes the last point has.
    pub kept: u64,
    /// The clock at the last point.
    pub clock_then: u64,
    /// How many clusters the volume may use.
    pub limit: u32,
    /// How many clusters it used at the last point.
    pub used_then: u32,
    /// How many blocks changes put since the last point.
    pub put_since: u64,
    /// Whether a call broke the volume.
    pub broken: bool,
}
