//! Events of the device while the volume is open.

ghost use Rattle.std.specs.Prelude.{◌≡◌, Ok, [], not};
ghost use Rattle.cf_filter_events.specs.Counted.{CountsBy};
ghost use Rattle.cf_filter_events.specs.Meaning.{Is, IsOn};
ghost use Rattle.cf_filter_events.specs.Stepped.{BearsOn, Steps, StepsOver};
ghost use Rattle.cf_filter_events.specs.Answered.{answer_with};
ghost use Rattle.cf_filter_events.specs.declared.places.Acting.TheVariants as acting;
ghost use Rattle.cf_base.specs.declared.answers.Shown.TheVariants as shown;
ghost use Rattle.cf_base.specs.declared.codes.Code.TheVariants as code;
ghost use Rattle.cf_base.specs.declared.events.DeviceEvent.TheVariants as device;
ghost use Rattle.cf_base.specs.declared.events.Event.TheVariants as event;

use crate::actors::Actor;
use crate::answers::{plainly, refused};
use crate::places::{Cut, RunningOn};
use cf_base::{Answer, Choice, Code, Shown};
use cf_disk::Disk;
use cf_volume_ground::DiskGround;
use std::alloc::Global;

impl<D: Disk, A: Actor> RunningOn<DiskGround<D>, A> {
    /// `stop`: at most `calls` more calls of the device pass.
    pub fn stop(&mut self, alloc: Global, calls: u32) -> Answer
        ensures steps { Steps A.acts.mode (IsOn A.acts D.state) (event.Device (device.Stop calls)) self.old (Ok result) self.new }
        ensures armed { BearsOn (device.Stop calls) (D.state self.old.filter.disk) (D.state self.new.filter.disk) }
        ensures counts { CountsBy 1 (Ok result) (D.state self.old.filter.disk) (D.state self.new.filter.disk) }
        ensures told { result ≡ answer_with shown.Done [] }
        ensures actor { self.new.actor ≡ self.old.actor }
    {
        self.filter.arm(calls);
        plainly(alloc, Shown::Done)
    }

    /// `restart` of a volume that is open.
    pub(crate) fn restart(&self, alloc: Global) -> Answer
        ensures steps { StepsOver A.acts.mode (IsOn A.acts D.state) (event.Device device.Restart) self.now (Ok result) self.now }
        ensures told { result ≡ answer_with (shown.Refused code.Running) [] }
    {
        refused(alloc, Code::Running)
    }

    /// `crash`: the power is cut, and what stands in memory alone is gone.
    pub(crate) fn cut(self, choice: Choice) -> Cut<D, A>
        ensures steps { StepsOver A.acts.mode (Is A.acts D.state) (event.Device (device.Crash choice)) (acting.On self) (Ok (answer_with shown.Done [])) (acting.Off result) }
        ensures powers { BearsOn (device.Crash choice) (D.state self.filter.disk) (D.state result.disk) }
        ensures actor { result.actor ≡ self.actor }
        ensures whole { result.whole ≡ not self.filter.desk.broken }
    {
        let policy = self.filter.policy();
        let whole = !self.filter.is_broken();
        let mut disk = self.filter.into_disk();
        disk.power(choice);
        Cut {
            disk,
            policy,
            whole,
            actor: self.actor,
        }
    }
}
