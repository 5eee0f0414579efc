//! Events while the volume is on.

ghost use Rattle.std.specs.Prelude.{◌≡◌, ℕ, Option, false, true};
ghost use Rattle.cf_base.specs.declared.events.Event.TheVariants as events;
ghost use Rattle.cf_base.specs.declared.policies.Mode.TheVariants as mode;
ghost use Rattle.cf_check_world.specs.Devices.{Does};
ghost use Rattle.cf_check_world.specs.declared.places.Place.TheVariants as place;
ghost use Rattle.cf_filter_events.specs.Actors.{is_device_event};
ghost use Rattle.cf_model.specs.Events.{is_of};

use crate::places::{Place, Resting};
use crate::told_remotes::ToldRemote;
use cf_base::{Answer, Code, DeviceEvent, Event, OutOfMemory, Shown};
use cf_engine::SyncActor;
use cf_filter_events::{RunningOn, plainly, refused};
use cf_volume_plain::Plain;
use std::alloc::Global;

// What a crash leaves: the volume, of which the next opening takes the last point.
fn crashed(running: RunningOn<Plain, SyncActor<ToldRemote>>) -> Resting
    ensures { result ≡ record { volume = record { disk = running.filter.disk; known = running.filter.known }; policy = running.filter.desk.policy; actor = running.actor } }
{
    let RunningOn { filter, actor } = running;
    let policy = filter.policy();
    let volume = filter.into_volume();
    Resting {
        volume,
        policy,
        actor,
    }
}

// An event that is none of the device.
fn act_on(
    alloc: Global,
    mut running: RunningOn<Plain, SyncActor<ToldRemote>>,
    event: &Event,
) -> (Place, Result<Answer, OutOfMemory>)
    requires of { is_of mode.Replay event.now ≡ true }
    requires other { is_device_event event.now ≡ false }
    ensures { (next : Option ℕ) → Does event.now next (place.On running) result.1 result.0 }
{
    match running.act(alloc, event) {
        Ok(answer) => (Place::On(running), Ok(answer)),
        Err(memory) => {
            drop(running);
            (Place::Lost, Err(memory))
        }
    }
}

// An event of the device. A stop does nothing: no call of this device fails.
fn device_on(
    alloc: Global,
    running: RunningOn<Plain, SyncActor<ToldRemote>>,
    event: DeviceEvent,
) -> (Place, Result<Answer, OutOfMemory>)
    ensures { (next : Option ℕ) → Does (events.Device event) next (place.On running) result.1 result.0 }
{
    match event {
        DeviceEvent::Stop { .. } => (Place::On(running), Ok(plainly(alloc, Shown::Done))),
        DeviceEvent::Crash { .. } => {
            (
                Place::Off(crashed(running)),
                Ok(plainly(alloc, Shown::Done)),
            )
        }
        DeviceEvent::Restart => (Place::On(running), Ok(refused(alloc, Code::Running))),
    }
}

/// Does an event while the volume is on, and answers it.
pub(crate) fn step_on(
    alloc: Global,
    running: RunningOn<Plain, SyncActor<ToldRemote>>,
    event: &Event,
) -> (Place, Result<Answer, OutOfMemory>)
    requires { is_of mode.Replay event.now ≡ true }
    ensures { (next : Option ℕ) → Does event.now next (place.On running) result.1 result.0 }
{
    match event {
        Event::Device(device) => device_on(alloc, running, *device),
        event => act_on(alloc, running, event),
    }
}
