//! Events while the volume is off.
#![tactic(auto)]

ghost use Rattle.std.specs.Prelude.{◌≡◌, Err, IfOk, Ok, [], false, length, true};
ghost use Rattle.cf_filter_events.specs.Actors.{Reopens};
ghost use Rattle.cf_filter_events.specs.Answered.{answer_with, answered_by};
ghost use Rattle.cf_filter_events.specs.Counted.{CountsBy, CountsTo, meets_device};
ghost use Rattle.cf_filter_events.specs.Faulted.{FaultsTo, faults_shown};
ghost use Rattle.cf_filter_events.specs.Meaning.{Is, IsOff};
ghost use Rattle.cf_filter_events.specs.Stepped.{BearsOn, OpensNewest, Steps, StepsOver, actor_of, disk_of, whole_of};
ghost use Rattle.cf_filter_events.specs.declared.places.Acting.TheVariants as acting;
ghost use Rattle.cf_base.specs.declared.answers.Shown.TheVariants as shown;
ghost use Rattle.cf_base.specs.declared.events.DeviceEvent.TheVariants as device;
ghost use Rattle.cf_base.specs.declared.events.Event.TheVariants as event;
ghost use Rattle.cf_disk.specs.Disk.{size_of};
ghost use Rattle.cf_journal.specs.Settled.{IsFitSize};
ghost use Rattle.cf_filter_machine.specs.Sensing.{Stands};
ghost use Rattle.cf_model.specs.Books.{opened_of};
ghost use Rattle.cf_model.specs.State.{Filter as model};

use crate::actors::Actor;
use crate::answers::{plainly, refused};
use crate::books::opened_book;
use crate::places::{Acting, Cut, RunningOn};
use cf_base::{Answer, CallError, Choice, Code, OutOfMemory, Shown};
use cf_disk::Disk;
use cf_filter::{Filter, FilterOn};
use cf_journal::{LARGEST_SIZE, LEAST_SIZE};
use cf_volume_ground::Ground;
use std::alloc::Global;

impl<D: Disk, A: Actor> Cut<D, A> {
    /// `stop`
    pub(crate) fn stop(&mut self, alloc: Global, calls: u32) -> Answer
        ensures steps { Steps A.acts.mode (IsOff A.acts D.state) (event.Device (device.Stop calls)) self.old (Ok result) self.new }
        ensures armed { BearsOn (device.Stop calls) (D.state self.old.disk) (D.state self.new.disk) }
        ensures counts { CountsBy 1 (Ok result) (D.state self.old.disk) (D.state self.new.disk) }
        ensures told { result ≡ answer_with shown.Done [] }
        ensures actor { self.new.actor ≡ self.old.actor }
        ensures whole { self.new.whole ≡ self.old.whole }
    {
        self.disk.arm(calls);
        plainly(alloc, Shown::Done)
    }

    /// `crash`: one more power cut.
    pub(crate) fn cut(&mut self, alloc: Global, choice: Choice) -> Answer
        ensures steps { StepsOver A.acts.mode (IsOff A.acts D.state) (event.Device (device.Crash choice)) self.old (Ok result) self.new }
        ensures powers { BearsOn (device.Crash choice) (D.state self.old.disk) (D.state self.new.disk) }
        ensures counts { CountsTo (Ok result) (D.state self.old.disk) (D.state self.new.disk) }
        ensures told { result ≡ answer_with shown.Done [] }
        ensures actor { self.new.actor ≡ self.old.actor }
        ensures whole { self.new.whole ≡ self.old.whole }
    {
        self.disk.power(choice);
        plainly(alloc, Shown::Done)
    }

    /// `restart`: opens the volume again. Where the device fails it stays off. A disk of a size that no volume has holds
    /// none.
    pub(crate) fn restart(self, alloc: Global) -> (Acting<D, A>, Result<Answer, OutOfMemory>)
        ensures steps { StepsOver A.acts.mode (Is A.acts D.state) (event.Device device.Restart) (acting.Off self) result.1 result.0 }
        ensures counts { CountsTo result.1 (D.state self.disk) (D.state (disk_of result.0)) }
        ensures faults { FaultsTo result.1 (A.acts.remote self.actor) (A.acts.remote (actor_of result.0)) }
        ensures whole { self.whole ≡ true → whole_of result.0 ≡ true }
        ensures newest { OpensNewest (Is A.acts D.state) (event.Device device.Restart) (acting.Off self) result.1 }
    {
        if !is_fit(self.disk.size()) {
            return (Acting::Off(self), Ok(refused(alloc, Code::NotAVolume)));
        }
        self.reopen(alloc)
    }

    fn reopen(self, alloc: Global) -> (Acting<D, A>, Result<Answer, OutOfMemory>)
        requires { IsFitSize (size_of (D.state self.disk)) }
        ensures steps { StepsOver A.acts.mode (Is A.acts D.state) (event.Device device.Restart) (acting.Off self) result.1 result.0 }
        ensures counts { CountsTo result.1 (D.state self.disk) (D.state (disk_of result.0)) }
        ensures faults { FaultsTo result.1 (A.acts.remote self.actor) (A.acts.remote (actor_of result.0)) }
        ensures whole { self.whole ≡ true → whole_of result.0 ≡ true }
        ensures newest { OpensNewest (Is A.acts D.state) (event.Device device.Restart) (acting.Off self) result.1 }
    {
        let policy = self.policy;
        match Filter::open(alloc, self.disk, policy) {
            Ok(filter) => reopened(alloc, filter, self.actor),
            Err((disk, fail)) => {
                let cut = Cut {
                    disk,
                    policy,
                    whole: self.whole,
                    actor: self.actor,
                };
                (Acting::Off(cut), refused_by(alloc, fail))
            }
        }
    }
}

// Whether a volume may have this size.
fn is_fit(size: u64) -> bool
    ensures fit { result ≡ true → IsFitSize size }
    ensures unfit { result ≡ false → IsFitSize size → ⊥ }
{
    LEAST_SIZE <= size && size <= LARGEST_SIZE
}

// The answer of a restart that opened nothing.
fn refused_by(alloc: Global, fail: CallError) -> Result<Answer, OutOfMemory>
    ensures { result ≡ answered_by (Err fail) [] }
{
    match fail {
        CallError::No(code) => Ok(refused(alloc, code)),
        CallError::OutOfMemory => Err(OutOfMemory),
    }
}

// The world on a volume that was just opened.
fn reopened<D: Disk, A: Actor>(
    alloc: Global,
    filter: Filter<D>,
    mut actor: A,
) -> (Acting<D, A>, Result<Answer, OutOfMemory>)
    ensures on { result.0 ≡ acting.On (record { filter = filter; actor = actor_of result.0 }) }
    ensures opens { Reopens A.acts actor (actor_of result.0) }
    ensures same { A.acts.remote (actor_of result.0) ≡ A.acts.remote actor }
    ensures plain { IfOk result.1 (λ a. meets_device a.shown ≡ false) }
    ensures quiet { IfOk result.1 (λ a. faults_shown a ≡ 0) }
    ensures told { IfOk result.1 (λ a. (f : model) → Stands D.state filter f → a ≡ answer_with (shown.Resumed (length f.volume.log) (opened_of f.volume.book)) []) }
{
    let told = resumed(alloc, &filter);
    actor.reopen();
    (Acting::On(RunningOn { filter, actor }), told)
}

/// The answer of a restart that opened this volume: how many changes were kept, and the book. OutOfMemory where there is none.
pub fn resumed<G: Ground>(alloc: Global, filter: &FilterOn<G>) -> Result<Answer, OutOfMemory>
    ensures plain { IfOk result (λ a. meets_device a.shown ≡ false) }
    ensures quiet { IfOk result (λ a. faults_shown a ≡ 0) }
    ensures told { IfOk result (λ a. (f : model) → Stands G.state filter.now f → a ≡ answer_with (shown.Resumed (length f.volume.log) (opened_of f.volume.book)) []) }
{
    let volume = filter.volume();
    let opened = opened_book(alloc, volume)?;
    let count = volume.count();
    Ok(plainly(alloc, Shown::Resumed { count, opened }))
}
