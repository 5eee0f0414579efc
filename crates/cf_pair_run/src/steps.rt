//! Events of two devices.

ghost use Rattle.std.specs.Prelude.{◌≡◌, true};
ghost use Rattle.cf_pair_events.specs.OfDevices.{is_of_device};
ghost use Rattle.cf_pair_events.specs.declared.events.PairEvent.TheVariants as pair;
ghost use Rattle.cf_pair_model.specs.declared.devices.Device.TheVariants as device;
ghost use Rattle.cf_pair_run.specs.Owned.{is_playable};
ghost use Rattle.cf_pair_run.specs.Steps.{Steps, answered_by};

use crate::comparisons::compare;
use crate::peers::visit;
use crate::turns::act;
use crate::worlds::PairWorld;
use cf_base::{Answer, Event, OutOfMemory, PeerEvent};
use cf_disk::Disk;
use cf_pair_events::{PairAnswer, PairEvent};
use cf_pair_model::Device;
use cf_remote::Remote;
use std::alloc::Global;

fn answered(told: Result<Answer, OutOfMemory>) -> Result<PairAnswer, OutOfMemory>
    ensures { result ≡ answered_by told }
{
    match told {
        Ok(answer) => Ok(PairAnswer::Event(answer)),
        Err(fail) => Err(fail),
    }
}

impl<D: Disk, R: Remote> PairWorld<D, R> {
    // An event of the first device.
    fn turn_first(
        self,
        alloc: Global,
        event: &Event,
    ) -> (PairWorld<D, R>, Result<PairAnswer, OutOfMemory>)
        requires { is_of_device event.now ≡ true }
        ensures { Steps D.state R.told (pair.Of device.First event.now) self result.1 result.0 }
    {
        let PairWorld {
            first,
            second,
            third,
            remote,
        } = self;
        let (first, remote, told) = act(alloc, Device::First, first, remote, event);
        let left = PairWorld {
            first,
            second,
            third,
            remote,
        };
        (left, answered(told))
    }

    // An event of the second device.
    fn turn_second(
        self,
        alloc: Global,
        event: &Event,
    ) -> (PairWorld<D, R>, Result<PairAnswer, OutOfMemory>)
        requires { is_of_device event.now ≡ true }
        ensures { Steps D.state R.told (pair.Of device.Second event.now) self result.1 result.0 }
    {
        let PairWorld {
            first,
            second,
            third,
            remote,
        } = self;
        let (second, remote, told) = act(alloc, Device::Second, second, remote, event);
        let left = PairWorld {
            first,
            second,
            third,
            remote,
        };
        (left, answered(told))
    }

    // An event of the third device.
    fn be_visited(self, event: &PeerEvent) -> (PairWorld<D, R>, Result<PairAnswer, OutOfMemory>)
        ensures { Steps D.state R.told (pair.Peer event.now) self result.1 result.0 }
    {
        let PairWorld {
            first,
            second,
            third,
            remote,
        } = self;
        let (third, remote, told) = visit(third, remote, event);
        let left = PairWorld {
            first,
            second,
            third,
            remote,
        };
        (left, answered(told))
    }

    // The comparison of both devices.
    fn comparison(&self, alloc: Global) -> Result<PairAnswer, OutOfMemory>
        ensures { Steps D.state R.told pair.Compare self.now result self.now }
    {
        match compare(alloc, &self.first, &self.second) {
            Ok(comparison) => Ok(PairAnswer::Comparison(comparison)),
            Err(fail) => Err(fail),
        }
    }

    /// Does an event, and answers it. An event of a device is done with the remote behind its lane. A crash is one power cut of the
    /// disk of its device. Where memory runs out the event is not answered, and nothing more is said of the world.
    pub fn step(
        self,
        alloc: Global,
        event: &PairEvent,
    ) -> (PairWorld<D, R>, Result<PairAnswer, OutOfMemory>)
        requires { is_playable event.now ≡ true }
        ensures { Steps D.state R.told event.now self result.1 result.0 }
    {
        match event {
            PairEvent::Of { device, event } => self.turn(alloc, *device, event),
            PairEvent::Peer(event) => self.be_visited(event),
            PairEvent::Compare => {
                let told = self.comparison(alloc);
                (self, told)
            }
        }
    }

    // An event of one device.
    fn turn(
        self,
        alloc: Global,
        device: Device,
        event: &Event,
    ) -> (PairWorld<D, R>, Result<PairAnswer, OutOfMemory>)
        requires { is_of_device event.now ≡ true }
        ensures { Steps D.state R.told (pair.Of device event.now) self result.1 result.0 }
    {
        match device {
            Device::First => self.turn_first(alloc, event),
            Device::Second => self.turn_second(alloc, event),
        }
    }
}
