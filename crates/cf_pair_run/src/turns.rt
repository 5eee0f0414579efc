//! An event of one device, which has the remote for so long.

ghost use Rattle.std.specs.Prelude.{◌≡◌, true};
ghost use Rattle.cf_base.specs.declared.policies.Mode.TheVariants as mode;
ghost use Rattle.cf_model.specs.Events.{is_of};
ghost use Rattle.cf_pair_run.specs.Owned.{is_same};
ghost use Rattle.cf_pair_run.specs.Turns.{Turns, passed_by};

use cf_base::{Answer, Event, OutOfMemory, no_such_state};
use cf_disk::Disk;
use cf_engine::SyncActor;
use cf_filter_events::Acting;
use cf_pair_lane::{Away, Lane};
use cf_pair_model::Device;
use cf_remote::Remote;
use std::alloc::Global;

fn is_same(a: Device, b: Device) -> bool
    ensures { result ≡ is_same a b }
{
    match (a, b) {
        (Device::First, Device::First) | (Device::Second, Device::Second) => true,
        (Device::First, Device::Second) | (Device::Second, Device::First) => false,
    }
}

/// The answer of an event over a lane, which was made for this device and then refused no request. No run has so many epochs that
/// a lane refuses one, and none becomes that of another device: both are answered as out of memory.
pub(crate) fn passed<R: Remote>(
    lane: &Lane<R>,
    device: Device,
    told: Result<Answer, OutOfMemory>,
) -> Result<Answer, OutOfMemory>
    ensures { result ≡ passed_by lane.now device told }
{
    if lane.refused() == 0 && is_same(device, lane.device()) {
        return told;
    }
    drop(told);
    Err(no_such_state())
}

/// Does an event of a device that rests, over its lane to the remote, and answers it. Then the device rests again.
pub(crate) fn act<D: Disk, R: Remote>(
    alloc: Global,
    device: Device,
    resting: Acting<D, SyncActor<Away>>,
    remote: R,
    event: &Event,
) -> (Acting<D, SyncActor<Away>>, R, Result<Answer, OutOfMemory>)
    requires { is_of mode.Replay event.now ≡ true }
    ensures { Turns D.state R.told device event.now resting remote result.2 result.0 result.1 }
{
    let (volume, actor) = resting.apart();
    let (actor, _away) = actor.with_remote(Lane::new(remote, device));
    let (acted, told) = volume.with_actor(actor).step(alloc, event);
    let (volume, actor) = acted.apart();
    let (actor, lane) = actor.with_remote(Away);
    let told = passed(&lane, device, told);
    (volume.with_actor(actor), lane.into_inner(), told)
}
