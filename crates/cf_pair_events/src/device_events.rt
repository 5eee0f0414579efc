//! Which events a device may have.

ghost use Rattle.std.specs.Prelude.{◌≡◌};
ghost use Rattle.cf_pair_events.specs.OfDevices.{is_of_device};

use cf_base::{EngineEvent, Event};

/// Whether a device may have the event in a script of two: it is one of `replay`, but not of `peer` or `space`.
pub fn is_of_device(event: &Event) -> bool
    ensures { result ≡ is_of_device event.now }
{
    match event {
        Event::Call(_) => true,
        Event::Device(_) => true,
        Event::Engine(EngineEvent::Space { .. }) => false,
        Event::Engine(EngineEvent::Link { .. }) => true,
        Event::Engine(EngineEvent::Arrive { .. }) => true,
        Event::Engine(EngineEvent::Deliver { .. }) => true,
        Event::Engine(EngineEvent::Work) => true,
        Event::Engine(EngineEvent::Sync) => true,
        Event::Peer(_) => false,
        Event::Provider(_) => false,
    }
}
