//! One line of a script of two devices.

ghost use Rattle.std.specs.Prelude.{◌≡◌, IfOk};
ghost use Rattle.cf_pair_script.specs.PairScript.{Spells, SpellsOf, SpellsShared, named, peer_of};
ghost use Rattle.cf_script_words.specs.Words.{Reads};

use cf_base::{Event, Mode, OutOfMemory, PeerEvent};
use cf_pair_events::{PairEvent, is_of_device};
use cf_pair_model::Device;
use std::alloc::Global;

/// The device whose digit this is.
fn named(digit: u8) -> Option<Device>
    ensures { result ≡ named digit }
{
    if digit == b'1' {
        return Some(Device::First);
    }
    if digit == b'2' {
        return Some(Device::Second);
    }
    None
}

fn peer_of(event: Event) -> Option<PeerEvent>
    ensures { result ≡ peer_of event }
{
    match event {
        Event::Peer(event) => Some(event),
        Event::Call(call) => {
            drop(call);
            None
        }
        Event::Provider(event) => {
            drop(event);
            None
        }
        Event::Device(_) => None,
        Event::Engine(_) => None,
    }
}

/// The event of one device.
fn event_of(alloc: Global, device: Device, text: &[u8]) -> Result<Option<PairEvent>, OutOfMemory>
    ensures { IfOk result (Reads (SpellsOf device text.now)) }
{
    let Some(event) = cf_script::event_of_line(alloc, Mode::Replay, text)? else {
        return Ok(None);
    };
    if !is_of_device(&event) {
        drop(event);
        return Ok(None);
    }
    Ok(Some(PairEvent::Of { device, event }))
}

/// An event of no one device.
fn shared_event(alloc: Global, line: &[u8]) -> Result<Option<PairEvent>, OutOfMemory>
    ensures { IfOk result (Reads (SpellsShared line.now)) }
{
    if line == b"compare".as_slice() {
        return Ok(Some(PairEvent::Compare));
    }
    let Some(event) = cf_script::event_of_line(alloc, Mode::Replay, line)? else {
        return Ok(None);
    };
    let Some(event) = peer_of(event) else {
        return Ok(None);
    };
    Ok(Some(PairEvent::Peer(event)))
}

/// The event that a line, without its end, spells, or none where it spells none.
///
/// Fails only where memory does not suffice.
pub fn event_of_line(alloc: Global, line: &[u8]) -> Result<Option<PairEvent>, OutOfMemory>
    ensures { IfOk result (Reads (Spells line.now)) }
{
    let [digit, space, text @ ..] = line else {
        return shared_event(alloc, line);
    };
    if *space != b' ' {
        return shared_event(alloc, line);
    }
    match named(*digit) {
        None => shared_event(alloc, line),
        Some(device) => event_of(alloc, device, text),
    }
}
