//! A device without a disk.

ghost use Rattle.std.specs.Prelude.{◌≡◌, true};
ghost use Rattle.cf_base.specs.declared.policies.Mode.TheVariants as mode;
ghost use Rattle.cf_check_world.specs.Devices.{Does, Lives};
ghost use Rattle.cf_model.specs.Events.{is_of};

use crate::off_events::step_off;
use crate::on_events::step_on;
use crate::places::Place;
use crate::told_remotes::ToldRemote;
use cf_base::{Answer, Event, OutOfMemory};
use cf_check_report::Device;
use cf_engine::SyncActor;
use cf_filter::FilterOn;
use cf_filter_events::{RunningOn, first_policy};
use cf_volume_plain::start;
use std::alloc::Global;
use std::marker::Model;

/// A device with its engine and its remote, on a volume that stands on no disk. No call of it fails, and a crash leaves its newest point. Unless
/// memory ran out, it stands for a state of the definitions.
#[derive(Drop)]
pub struct PlainDevice {
    place: Place,
}

impl Model for PlainDevice {
    ghost use Rattle.cf_check_world.specs.Devices.{Lives};
    ghost use Rattle.cf_check_world.specs.declared.places.Place.{Place};

    ghost Value = { Place };

    ghost view = { λ d. d.place };

    ghost invariant = { λ d. Lives d.place };
}

// Does an event, and answers it.
fn step_at(
    alloc: Global,
    place: Place,
    event: &Event,
    aim: Option<u64>,
) -> (Place, Result<Answer, OutOfMemory>)
    requires lives { Lives place }
    requires of { is_of mode.Replay event.now ≡ true }
    ensures { Does event.now aim place result.1 result.0 }
{
    match place {
        Place::On(running) => step_on(alloc, running, event),
        Place::Off(resting) => step_off(alloc, resting, event, aim),
        Place::Lost => (Place::Lost, Err(OutOfMemory)),
    }
}

impl Device for PlainDevice {
    ghost use Rattle.cf_check_world.specs.Aimed.{aimed_at};
    ghost use Rattle.cf_check_world.specs.Devices.{Stands};

    ghost stands = { Stands };

    fn start(alloc: Global, clusters: u32, aim: Option<u64>) -> Result<PlainDevice, OutOfMemory> {
        let remote = ToldRemote::new(alloc)?;
        let volume = start(alloc, clusters, aim)?;
        let filter = FilterOn::on_volume(alloc, volume, first_policy());
        let actor = SyncActor::new(alloc, remote);
        Ok(PlainDevice {
            place: Place::On(RunningOn { filter, actor }),
        })
    }

    fn step(
        self,
        alloc: Global,
        event: &Event,
        fails: Vec<bool>,
        aim: Option<u64>,
    ) -> (PlainDevice, Result<Answer, OutOfMemory>) {
        let place = self.place.with_tellings(fails);
        let (place, told) = step_at(alloc, place, event, aim);
        (PlainDevice { place }, told)
    }

    ghost aimed = { aimed_at };
}
