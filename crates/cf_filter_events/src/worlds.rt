//! The world, on and off.
#![tactic(auto, using(crate::proofs::Wholes::begins))]

ghost use Rattle.std.specs.Prelude.{◌≡◌, ℕ, List, Some, false, true, IfErr, IfOk};
ghost use Rattle.cf_filter_events.specs.Actors.{is_device_event};
ghost use Rattle.cf_filter_events.specs.Counted.{CountsBy, CountsOver, GoesOn, arms_in};
ghost use Rattle.cf_filter_events.specs.Faulted.{Faults, FaultsTo};
ghost use Rattle.cf_filter_events.specs.Meaning.{Is};
ghost use Rattle.cf_filter_events.specs.Pasts.{Past, StandsFor};
ghost use Rattle.cf_filter_events.specs.Stepped.{Bears, BearsOn, KeepsWhole, OpensNewest, StepsOver, actor_of, disk_of, whole_of};
ghost use Rattle.cf_filter_events.specs.declared.places.Acting.TheVariants as acting;
ghost use Rattle.cf_base.specs.declared.events.Event.TheVariants as events;
ghost use Rattle.cf_disk.specs.Disk.{size_of};
ghost use Rattle.cf_journal.specs.Settled.{IsFitSize};
ghost use Rattle.cf_model.specs.Events.{is_of};
ghost use Rattle.cf_model.specs.Powers.{StandsNow};
ghost use Rattle.cf_model.specs.State.{Off, On, State, first_policy, start};
ghost use Rattle.cf_model.specs.Store.{Held};
ghost use Rattle.cf_volume_points.specs.Standing.{clusters_for};
ghost use Rattle.cf_volume.specs.Calls.{IsCause, StopsOnly};

use crate::actors::Actor;
use crate::answers::plainly;
use crate::places::{Acting, Cut, Running, RunningOn};
use cf_base::{
    Answer, CallError, DeviceEvent, Event, Hydration, OutOfMemory, Policy, Population, Shown,
};
use cf_disk::Disk;
use cf_filter::Filter;
use std::alloc::Global;

/// The policy of a volume that was just made.
pub fn first_policy() -> Policy
    ensures { result ≡ first_policy }
{
    Policy {
        hydration: Hydration::Partial,
        population: Population::AlwaysFull,
        validate: false,
        restart: false,
        auto: false,
    }
}

impl<D: Disk, A: Actor> Acting<D, A> {
    /// A volume that was just made on a disk of a fit size, whatever that held, and an actor that stands for a start beside it; the
    /// disk had no power cut in this. Refused as Device where a call of the disk failed, and as OutOfMemory; then disk and actor come
    /// back.
    pub fn start(alloc: Global, disk: D, actor: A) -> Result<Acting<D, A>, (D, A, CallError)>
        requires { IsFitSize (size_of (D.state disk)) }
        ensures ok { (remote : Held) → A.acts.stands actor (start A.acts.mode remote (clusters_for (D.state disk))) → IfOk result (λ a. (past : Past) → past.told ≡ (D.state disk).powers → Is A.acts D.state past a (start A.acts.mode remote (clusters_for (D.state disk)))) }
        ensures same { IfOk result (λ a. actor_of a ≡ actor) }
        ensures back { IfErr result (λ e. e.1 ≡ actor) }
        ensures goes_on { IfOk result (λ a. GoesOn (D.state disk) (D.state (disk_of a))) }
        ensures only { IfErr result (λ e. StopsOnly e.2) }
        ensures cause { IfErr result (λ e. IsCause e.2 (D.state disk) (D.state e.0)) }
    {
        match Filter::format(alloc, disk, first_policy()) {
            Ok(filter) => Ok(Acting::On(RunningOn { filter, actor })),
            Err((disk, fail)) => Err((disk, actor, fail)),
        }
    }

    /// Does an event of the mode, and answers it. A stop arms the disk with its number, a crash is one power cut of the disk with
    /// its choice, and no other event changes the power cuts that the disk reports. A restart that resumes opens what the image of
    /// the last power cut stands for. The disk's count of faults does not fall. In an event that is answered as Device a call of the
    /// disk failed: the count rose, and a number was armed, where the disk reports that. Only a stop arms a number, and the settings of the
    /// disk stay. Where no event met Device since the volume was opened, a restart that resumes opens the newest point.
    /// Where memory runs out an event is not answered, and nothing more is said of the world.
    pub fn step(self, alloc: Global, event: &Event) -> (Acting<D, A>, Result<Answer, OutOfMemory>)
        requires { is_of A.acts.mode event.now ≡ true }
        ensures steps { StepsOver A.acts.mode (Is A.acts D.state) event.now self result.1 result.0 }
        ensures device { Bears event.now (D.state (disk_of self)) (D.state (disk_of result.0)) }
        ensures counts { CountsOver (Is A.acts D.state) event.now self result.1 (D.state (disk_of self)) (D.state (disk_of result.0)) }
        ensures faults { Faults (Is A.acts D.state) self result.1 (A.acts.remote (actor_of self)) (A.acts.remote (actor_of result.0)) }
        ensures whole { KeepsWhole (Is A.acts D.state) self result.0 }
        ensures newest { OpensNewest (Is A.acts D.state) event.now self result.1 }
    {
        match event {
            Event::Device(device) => self.bear(alloc, *device),
            event => {
                let mut world = self;
                let told = world.act(alloc, event);
                (world, told)
            }
        }
    }

    /// Does an event that is none of the device, as `step` does, where the world stands in memory.
    pub fn act(&mut self, alloc: Global, event: &Event) -> Result<Answer, OutOfMemory>
        requires of { is_of A.acts.mode event.now ≡ true }
        requires other { is_device_event event.now ≡ false }
        ensures steps { StepsOver A.acts.mode (Is A.acts D.state) event.now self.old result self.new }
        ensures device { Bears event.now (D.state (disk_of self.old)) (D.state (disk_of self.new)) }
        ensures counts { CountsOver (Is A.acts D.state) event.now self.old result (D.state (disk_of self.old)) (D.state (disk_of self.new)) }
        ensures faults { Faults (Is A.acts D.state) self.old result (A.acts.remote (actor_of self.old)) (A.acts.remote (actor_of self.new)) }
        ensures whole { KeepsWhole (Is A.acts D.state) self.old self.new }
        ensures newest { OpensNewest (Is A.acts D.state) event.now self.old result }
    {
        match self {
            Acting::On(running) => running.act(alloc, event),
            Acting::Off(cut) => cut.act(alloc, event),
        }
    }

    // An event of the device.
    fn bear(self, alloc: Global, event: DeviceEvent) -> (Acting<D, A>, Result<Answer, OutOfMemory>)
        ensures steps { StepsOver A.acts.mode (Is A.acts D.state) (events.Device event) self result.1 result.0 }
        ensures device { BearsOn event (D.state (disk_of self)) (D.state (disk_of result.0)) }
        ensures counts { CountsBy (arms_in event) result.1 (D.state (disk_of self)) (D.state (disk_of result.0)) }
        ensures faults { FaultsTo result.1 (A.acts.remote (actor_of self)) (A.acts.remote (actor_of result.0)) }
        ensures whole { KeepsWhole (Is A.acts D.state) self result.0 }
        ensures newest { OpensNewest (Is A.acts D.state) (events.Device event) self result.1 }
    {
        match self {
            Acting::On(running) => device_on(alloc, running, event),
            Acting::Off(cut) => device_off(alloc, cut, event),
        }
    }

    /// Tells the disk of a volume that is off that a commit is wanted once so many changes are made. While a volume is on it does nothing.
    pub fn aim(&mut self, changes: u64)
        ensures is { (past : Past) (s : State) → Is A.acts D.state past self.old s → Is A.acts D.state past self.new s }
        ensures aimed { (past : Past) (s : State) → Is A.acts D.state past self.old s → s.power ≡ Off → (D.state (disk_of self.new)).settings.aim ≡ Some changes }
        ensures on { (past : Past) (s : State) → Is A.acts D.state past self.old s → s.power ≡ On → disk_of self.new ≡ disk_of self.old }
        ensures whole { whole_of self.new ≡ whole_of self.old }
        ensures actor { actor_of self.new ≡ actor_of self.old }
    {
        match self {
            Acting::On(_running) => {}
            Acting::Off(cut) => cut.disk.aim(changes),
        }
    }

    /// The disk, which reports the power cuts that the world knows of, and the actor. Whatever a crash leaves of the disk stands for a
    /// point that a restart may open.
    pub fn finish(self) -> (D, A)
        ensures lasts { (past : Past) (s : State) → Is A.acts D.state past self s → (c : List ℕ) → (D.state result.0).may_leave c → StandsNow StandsFor s c }
        ensures powers { (past : Past) (s : State) → Is A.acts D.state past self s → (D.state result.0).powers ≡ past.told }
        ensures holds { (past : Past) (s : State) → Is A.acts D.state past self s → A.acts.holds result.1 s }
        ensures disk { result.0 ≡ disk_of self }
        ensures actor { result.1 ≡ actor_of self }
    {
        match self {
            Acting::On(running) => (running.filter.into_disk(), running.actor),
            Acting::Off(cut) => (cut.disk, cut.actor),
        }
    }
}

// An event of the device while the volume is open.
fn device_on<D: Disk, A: Actor>(
    alloc: Global,
    mut running: Running<D, A>,
    event: DeviceEvent,
) -> (Acting<D, A>, Result<Answer, OutOfMemory>)
    ensures steps { StepsOver A.acts.mode (Is A.acts D.state) (events.Device event) (acting.On running) result.1 result.0 }
    ensures device { BearsOn event (D.state running.filter.disk) (D.state (disk_of result.0)) }
    ensures counts { CountsBy (arms_in event) result.1 (D.state running.filter.disk) (D.state (disk_of result.0)) }
    ensures faults { FaultsTo result.1 (A.acts.remote running.actor) (A.acts.remote (actor_of result.0)) }
    ensures whole { KeepsWhole (Is A.acts D.state) (acting.On running) result.0 }
    ensures newest { OpensNewest (Is A.acts D.state) (events.Device event) (acting.On running) result.1 }
{
    match event {
        DeviceEvent::Stop { calls } => {
            let told = running.stop(alloc, calls);
            (Acting::On(running), Ok(told))
        }
        DeviceEvent::Crash { choice } => {
            let cut = running.cut(choice);
            (Acting::Off(cut), Ok(plainly(alloc, Shown::Done)))
        }
        DeviceEvent::Restart => {
            let told = running.restart(alloc);
            (Acting::On(running), Ok(told))
        }
    }
}

// An event of the device while the volume is off.
fn device_off<D: Disk, A: Actor>(
    alloc: Global,
    mut cut: Cut<D, A>,
    event: DeviceEvent,
) -> (Acting<D, A>, Result<Answer, OutOfMemory>)
    ensures steps { StepsOver A.acts.mode (Is A.acts D.state) (events.Device event) (acting.Off cut) result.1 result.0 }
    ensures device { BearsOn event (D.state cut.disk) (D.state (disk_of result.0)) }
    ensures counts { CountsBy (arms_in event) result.1 (D.state cut.disk) (D.state (disk_of result.0)) }
    ensures faults { FaultsTo result.1 (A.acts.remote cut.actor) (A.acts.remote (actor_of result.0)) }
    ensures whole { cut.whole ≡ true → whole_of result.0 ≡ true }
    ensures newest { OpensNewest (Is A.acts D.state) (events.Device event) (acting.Off cut) result.1 }
{
    match event {
        DeviceEvent::Stop { calls } => {
            let told = cut.stop(alloc, calls);
            (Acting::Off(cut), Ok(told))
        }
        DeviceEvent::Crash { choice } => {
            let told = cut.cut(alloc, choice);
            (Acting::Off(cut), Ok(told))
        }
        DeviceEvent::Restart => cut.restart(alloc),
    }
}
