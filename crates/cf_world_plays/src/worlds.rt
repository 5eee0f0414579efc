//! The world that a script acts on.

ghost use Rattle.std.specs.Prelude.{◌≡◌, ◌++◌, ◌∷◌, [], is_some, IfErr, IfOk, List, Some, false, true};
ghost use Rattle.cf_filter_events.specs.Actors.{is_device_event};
ghost use Rattle.cf_filter_events.specs.declared.places.Acting.{Acting as Hands};
ghost use Rattle.cf_base.specs.declared.answers.Answer.{Answer as Answered};
ghost use Rattle.cf_base.specs.declared.events.Event.{Event as Done};
ghost use Rattle.cf_disk.specs.Disk.{size_of};
ghost use Rattle.cf_journal.specs.Settled.{IsFitSize};
ghost use Rattle.cf_model.specs.Events.{is_of};
ghost use Rattle.cf_volume.specs.Calls.{IsCause, StopsOnly};
ghost use Rattle.cf_world_plays.specs.States.{state_text, used_blocks};
ghost use Rattle.cf_world_plays.specs.Acted.{Acted};
ghost use Rattle.cf_world_plays.specs.Led.{HasRunOn, LeavesActor, LeavesText};

use crate::states::{state_text, used_blocks};
use cf_base::{Answer, Blob, CallError, Event, OutOfMemory};
use cf_disk::Disk;
use cf_filter_events::{Acting, Actor};
use std::alloc::Global;
use std::marker::Model;

/// A world: the volume, open or cut off by a crash, under an actor, which is the scripted provider of `filter` or the engine of
/// `replay`. It is there but while an event goes on. Contracts name the trace of its events; the program keeps none.
#[derive(Drop)]
pub struct World<D: Disk + Drop, A: Actor + Drop> {
    acting: Option<Acting<D, A>>,
}

impl<D: Disk + Drop, A: Actor + Drop> Model for World<D, A> {
    ghost use Rattle.std.specs.Prelude.{Option};
    ghost use Rattle.cf_filter_events.specs.declared.places.Acting.{Acting as Hands};

    ghost Value = { Option (Hands D A) };

    ghost view = { λ w. w.acting };
}

impl<D: Disk + Drop, A: Actor + Drop> World<D, A> {
    /// A world in which nothing has happened: a volume is made on the disk, which has a fit size. Refused as Device where a call of
    /// the disk failed, and as OutOfMemory; then disk and actor come back.
    pub fn start(alloc: Global, disk: D, actor: A) -> Result<World<D, A>, (D, A, CallError)>
        requires { IsFitSize (size_of (D.state disk)) }
        ensures ok { IfOk result (HasRunOn D.state A.acts disk actor []) }
        ensures whole { IfOk result (λ w. is_some w ≡ true) }
        ensures back { IfErr result (λ e. e.1 ≡ actor) }
        ensures only { IfErr result (λ e. StopsOnly e.2) }
        ensures cause { IfErr result (λ e. IsCause e.2 (D.state disk) (D.state e.0)) }
    {
        match Acting::start(alloc, disk, actor) {
            Ok(acting) => Ok(World {
                acting: Some(acting),
            }),
            Err(back) => Err(back),
        }
    }

    /// Does an event of the mode, and answers it. At OutOfMemory nothing more is said of the world.
    pub fn step(&mut self, alloc: Global, event: &Event) -> Result<Answer, OutOfMemory>
        requires whole { is_some self.old ≡ true }
        requires of { is_of A.acts.mode event.now ≡ true }
        ensures ok { IfOk result (λ a. (disk : D) (first : A) (trace : List (Done × Answered)) → HasRunOn D.state A.acts disk first trace self.old → HasRunOn D.state A.acts disk first (trace ++ (event.now, a) ∷ []) self.new) }
        ensures whole { is_some self.new ≡ true }
    {
        act(alloc, &mut self.acting, event)
    }

    /// The disk and the actor, and the text of the state.
    pub(crate) fn state(self, alloc: Global) -> (D, A, Result<Blob, OutOfMemory>)
        requires { is_some self ≡ true }
        ensures { (disk : D) (first : A) (trace : List (Done × Answered)) → HasRunOn D.state A.acts disk first trace self
            → LeavesText D.state A.acts disk first trace result.0 result.1 (λ s. IfOk result.2 (λ b. b ≡ state_text s)) }
    {
        let World { acting, .. } = self;
        state_of(alloc, acting)
    }

    /// The disk and the actor, and how many blocks are used.
    pub(crate) fn blocks(self) -> (D, A, u32)
        requires { is_some self ≡ true }
        ensures { (disk : D) (first : A) (trace : List (Done × Answered)) → HasRunOn D.state A.acts disk first trace self
            → LeavesText D.state A.acts disk first trace result.0 result.1 (λ s. result.2 ≡ used_blocks s) }
    {
        let World { acting, .. } = self;
        blocks_of(acting)
    }

    /// The disk and the actor.
    pub fn finish(self) -> (D, A)
        requires { is_some self ≡ true }
        ensures { (disk : D) (first : A) (trace : List (Done × Answered)) → HasRunOn D.state A.acts disk first trace self → LeavesActor D.state A.acts disk first trace result.0 result.1 }
    {
        let World { acting, .. } = self;
        parts_of(acting)
    }
}

// The disk and the actor of a world that is there.
fn parts_of<D: Disk + Drop, A: Actor + Drop>(acting: Option<Acting<D, A>>) -> (D, A)
    requires { is_some acting ≡ true }
    ensures { (disk : D) (first : A) (trace : List (Done × Answered)) → HasRunOn D.state A.acts disk first trace acting → LeavesActor D.state A.acts disk first trace result.0 result.1 }
{
    match acting {
        Some(acting) => acting.finish(),
        None => unreachable!(),
    }
}

// The same, and the text of the state.
fn state_of<D: Disk + Drop, A: Actor + Drop>(
    alloc: Global,
    acting: Option<Acting<D, A>>,
) -> (D, A, Result<Blob, OutOfMemory>)
    requires { is_some acting ≡ true }
    ensures { (disk : D) (first : A) (trace : List (Done × Answered)) → HasRunOn D.state A.acts disk first trace acting
        → LeavesText D.state A.acts disk first trace result.0 result.1 (λ s. IfOk result.2 (λ b. b ≡ state_text s)) }
{
    match acting {
        Some(acting) => {
            let text = state_text(alloc, &acting);
            let (disk, actor) = acting.finish();
            (disk, actor, text)
        }
        None => unreachable!(),
    }
}

// The same, and how many blocks are used.
fn blocks_of<D: Disk + Drop, A: Actor + Drop>(acting: Option<Acting<D, A>>) -> (D, A, u32)
    requires { is_some acting ≡ true }
    ensures { (disk : D) (first : A) (trace : List (Done × Answered)) → HasRunOn D.state A.acts disk first trace acting
        → LeavesText D.state A.acts disk first trace result.0 result.1 (λ s. result.2 ≡ used_blocks s) }
{
    match acting {
        Some(acting) => {
            let blocks = used_blocks(&acting);
            let (disk, actor) = acting.finish();
            (disk, actor, blocks)
        }
        None => unreachable!(),
    }
}

// Does an event, and answers it.
fn act<D: Disk + Drop, A: Actor + Drop>(
    alloc: Global,
    acting: &mut Option<Acting<D, A>>,
    event: &Event,
) -> Result<Answer, OutOfMemory>
    requires whole { is_some acting.old ≡ true }
    requires of { is_of A.acts.mode event.now ≡ true }
    ensures ok { IfOk result (λ a. (disk : D) (first : A) (trace : List (Done × Answered)) → HasRunOn D.state A.acts disk first trace acting.old → HasRunOn D.state A.acts disk first (trace ++ (event.now, a) ∷ []) acting.new) }
    ensures whole { is_some acting.new ≡ true }
{
    act_on(alloc, acting, event)
}

// The same, by the world before and after. An event of the device takes the world away and puts another one in its place; any
// other leaves it where it stands in memory.
fn act_on<D: Disk + Drop, A: Actor + Drop>(
    alloc: Global,
    acting: &mut Option<Acting<D, A>>,
    event: &Event,
) -> Result<Answer, OutOfMemory>
    requires whole { is_some acting.old ≡ true }
    requires of { is_of A.acts.mode event.now ≡ true }
    ensures acted { (a b : Hands D A) → acting.old ≡ Some a → acting.new ≡ Some b → Acted D.state A.acts event.now result a b }
    ensures whole { is_some acting.new ≡ true }
{
    match event {
        Event::Device(_) => step_on(alloc, acting, event),
        event => stay_on(alloc, acting, event),
    }
}

// Any event.
fn step_on<D: Disk + Drop, A: Actor + Drop>(
    alloc: Global,
    acting: &mut Option<Acting<D, A>>,
    event: &Event,
) -> Result<Answer, OutOfMemory>
    requires whole { is_some acting.old ≡ true }
    requires of { is_of A.acts.mode event.now ≡ true }
    ensures acted { (a b : Hands D A) → acting.old ≡ Some a → acting.new ≡ Some b → Acted D.state A.acts event.now result a b }
    ensures whole { is_some acting.new ≡ true }
{
    let Some(begun) = acting.take() else {
        unreachable!();
    };
    let (left, told) = begun.step(alloc, event);
    *acting = Some(left);
    told
}

// An event that is none of the device.
fn stay_on<D: Disk + Drop, A: Actor + Drop>(
    alloc: Global,
    acting: &mut Option<Acting<D, A>>,
    event: &Event,
) -> Result<Answer, OutOfMemory>
    requires whole { is_some acting.old ≡ true }
    requires of { is_of A.acts.mode event.now ≡ true }
    requires other { is_device_event event.now ≡ false }
    ensures acted { (a b : Hands D A) → acting.old ≡ Some a → acting.new ≡ Some b → Acted D.state A.acts event.now result a b }
    ensures whole { is_some acting.new ≡ true }
{
    match acting {
        Some(acting) => acting.act(alloc, event),
        None => unreachable!(),
    }
}
