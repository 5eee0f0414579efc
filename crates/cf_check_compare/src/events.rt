//! What kind of event it is.

ghost use Rattle.std.specs.Prelude.{◌≡◌, not};
ghost use Rattle.cf_base.specs.declared.policies.Mode.TheVariants as mode;
ghost use Rattle.cf_check_compare.specs.Alone.{asks_none, is_unplaced};
ghost use Rattle.cf_check_traces.specs.Tests.{is_restart};
ghost use Rattle.cf_model.specs.Events.{is_of};
ghost use Rattle.cf_model.specs.LookUp.{names_of};

use cf_base::{DeviceEvent, Event, PeerEvent};
use cf_tree::{Names, bad_path};

/// Whether the event is none of `replay`, so that it has no lawful answer.
pub fn is_foreign(event: &Event) -> bool
    ensures { result ≡ not (is_of mode.Replay event.now) }
{
    match event {
        Event::Provider(_) => true,
        Event::Call(_) | Event::Device(_) | Event::Peer(_) | Event::Engine(_) => false,
    }
}

/// Whether the event opens the volume again.
pub fn is_restart(event: &Event) -> bool
    ensures { result ≡ is_restart event.now }
{
    match event {
        Event::Device(DeviceEvent::Restart) => true,
        _ => false,
    }
}

fn is_unplaced(path: &str) -> bool
    ensures { result ≡ is_unplaced (names_of path.now) }
{
    Names::of(path).is_empty() || bad_path(path).is_some()
}

/// Whether the event of another device asks the remote nothing, whatever that holds.
pub(crate) fn asks_none(event: &PeerEvent) -> bool
    ensures { result ≡ asks_none event.now }
{
    match event {
        PeerEvent::Put { path, bytes: _ } => is_unplaced(path.as_str()),
        PeerEvent::MakeDir { path } => is_unplaced(path.as_str()),
        PeerEvent::Move { from, to: _ } => is_unplaced(from.as_str()),
        PeerEvent::Remove { path } => is_unplaced(path.as_str()),
        PeerEvent::Stat { path } => is_unplaced(path.as_str()),
        PeerEvent::Keep { count: _ } => false,
    }
}
