//! The events of a script of two devices.

use cf_base::{Event, PeerEvent};
use cf_pair_model::Device;

/// One event of a script of two devices.
#[derive(Drop)]
pub enum PairEvent {
    /// An event of one device, in `replay`, but not of `peer`.
    Of { device: Device, event: Event },
    /// What a third device does to the remote.
    Peer(PeerEvent),
    /// Are the trees of both devices equal?
    Compare,
}
