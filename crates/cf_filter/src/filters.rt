//! A filter.

use cf_filter_machine::MachineOn;
use cf_volume_ground::{DiskGround, Ground};
use std::marker::Model;

/// A filter: a volume, and what stands in memory beside it until a restart.
#[derive(Drop)]
pub struct FilterOn<G: Ground> {
    pub(crate) machine: MachineOn<G>,
}

/// A filter on a disk.
pub type Filter<D> = FilterOn<DiskGround<D>>;

impl<G: Ground> Model for FilterOn<G> {
    ghost use Rattle.cf_filter_machine.specs.Held.{Held};

    ghost Value = { Held G };

    ghost view = { λ f. f.machine };
}
