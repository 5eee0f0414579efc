//! A volume, and what stands in memory beside it.

use cf_filter_desk::Desk;
use cf_volume::VolumeOn;
use cf_volume_ground::{DiskGround, Ground};
use std::marker::Model;

/// A volume, and what stands in memory beside it until a restart.
#[derive(Drop)]
pub struct MachineOn<G: Ground> {
    /// The volume.
    pub volume: VolumeOn<G>,
    /// What a restart forgets.
    pub desk: Desk,
}

/// One whose volume stands on a disk.
pub type Machine<D> = MachineOn<DiskGround<D>>;

impl<G: Ground> Model for MachineOn<G> {
    ghost use Rattle.cf_filter_machine.specs.Held.{Held};

    ghost Value = { Held G };

    ghost view = { λ f. record { disk = f.volume.disk; known = f.volume.known; desk = f.desk } };
}
