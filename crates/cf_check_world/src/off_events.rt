//! Events while the volume is off.

ghost use Rattle.std.specs.Prelude.{◌≡◌, ℕ, Option, false, true};
ghost use Rattle.cf_base.specs.declared.events.DeviceEvent.TheVariants as device;
ghost use Rattle.cf_base.specs.declared.events.Event.TheVariants as events;
ghost use Rattle.cf_base.specs.declared.policies.Mode.TheVariants as mode;
ghost use Rattle.cf_check_world.specs.Devices.{Does, Lives, Reopened};
ghost use Rattle.cf_check_world.specs.declared.places.Place.TheVariants as place;
ghost use Rattle.cf_filter_events.specs.Actors.{is_device_event};
ghost use Rattle.cf_model.specs.Events.{is_of};

use crate::places::{Place, Resting};
use crate::told_remotes::ToldRemote;
use cf_base::{Answer, Code, DeviceEvent, Event, OutOfMemory, Policy, Shown};
use cf_engine::SyncActor;
use cf_filter::FilterOn;
use cf_filter_events::{Actor, RunningOn, act_off, plainly, refused, resumed};
use cf_volume::VolumeOn;
use cf_volume_plain::{Plain, restart};
use std::alloc::Global;

// The device on a volume that was just opened.
fn reopened(
    alloc: Global,
    volume: VolumeOn<Plain>,
    policy: Policy,
    mut actor: SyncActor<ToldRemote>,
) -> (Place, Result<Answer, OutOfMemory>)
    ensures { Reopened volume policy actor result.1 result.0 }
{
    let filter = FilterOn::on_volume(alloc, volume, policy);
    actor.reopen();
    match resumed(alloc, &filter) {
        Ok(answer) => (Place::On(RunningOn { filter, actor }), Ok(answer)),
        Err(memory) => {
            drop(filter);
            drop(actor);
            (Place::Lost, Err(memory))
        }
    }
}

// `restart`: opens the newest point. After the last epoch nothing is opened.
fn restart_off(
    alloc: Global,
    resting: Resting,
    aim: Option<u64>,
) -> (Place, Result<Answer, OutOfMemory>)
    requires { Lives (place.Off resting) }
    ensures { Does (events.Device device.Restart) aim (place.Off resting) result.1 result.0 }
{
    if resting.volume.epoch() == u32::MAX {
        return (Place::Off(resting), Ok(refused(alloc, Code::Exhausted)));
    }
    let Resting {
        volume,
        policy,
        actor,
    } = resting;
    match restart(alloc, volume, aim) {
        Ok(volume) => reopened(alloc, volume, policy, actor),
        Err(_fail) => {
            drop(actor);
            (Place::Lost, Err(OutOfMemory))
        }
    }
}

// An event that is none of the device.
fn beside_off(
    alloc: Global,
    mut resting: Resting,
    event: &Event,
) -> (Place, Result<Answer, OutOfMemory>)
    requires of { is_of mode.Replay event.now ≡ true }
    requires other { is_device_event event.now ≡ false }
    ensures { (next : Option ℕ) → Does event.now next (place.Off resting) result.1 result.0 }
{
    match act_off(alloc, &mut resting.actor, event) {
        Ok(answer) => (Place::Off(resting), Ok(answer)),
        Err(memory) => {
            drop(resting);
            (Place::Lost, Err(memory))
        }
    }
}

// An event of the device. A stop and a crash do nothing.
fn device_off(
    alloc: Global,
    resting: Resting,
    event: DeviceEvent,
    aim: Option<u64>,
) -> (Place, Result<Answer, OutOfMemory>)
    requires { Lives (place.Off resting) }
    ensures { Does (events.Device event) aim (place.Off resting) result.1 result.0 }
{
    match event {
        DeviceEvent::Stop { .. } => (Place::Off(resting), Ok(plainly(alloc, Shown::Done))),
        DeviceEvent::Crash { .. } => (Place::Off(resting), Ok(plainly(alloc, Shown::Done))),
        DeviceEvent::Restart => restart_off(alloc, resting, aim),
    }
}

/// Does an event while the volume is off, and answers it. A volume that a restart opens makes a commit for room after as many changes as
/// `aim` says.
pub(crate) fn step_off(
    alloc: Global,
    resting: Resting,
    event: &Event,
    aim: Option<u64>,
) -> (Place, Result<Answer, OutOfMemory>)
    requires lives { Lives (place.Off resting) }
    requires of { is_of mode.Replay event.now ≡ true }
    ensures { Does event.now aim (place.Off resting) result.1 result.0 }
{
    match event {
        Event::Device(device) => device_off(alloc, resting, *device, aim),
        event => beside_off(alloc, resting, event),
    }
}
