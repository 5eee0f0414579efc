//! Events that need no volume: those of other devices, and messages that are handed to the remote.

ghost use Rattle.std.specs.Prelude.{◌≡◌, ◌<◌, true};
ghost use Rattle.cf_base.specs.declared.events.EngineEvent.TheVariants as engine;
ghost use Rattle.cf_base.specs.declared.events.Event.TheVariants as events;
ghost use Rattle.cf_engine.specs.Actors.{acts_of};
ghost use Rattle.cf_filter_events.specs.Actors.{StepsBeside};
ghost use Rattle.cf_remote.specs.LookUps.{EventHasRoom};

use crate::actors::SyncActor;
use cf_base::limits::MOST_NUMBER;
use cf_base::{Answer, EngineEvent, Notes, OutOfMemory, PeerEvent, Shown, no_such_state};
use cf_filter_events::{answered, done, plainly};
use cf_remote::Remote;
use std::alloc::Global;

// The most bytes that a request can say the number of.
const MOST_BYTES: usize = 4_294_967_295;

// Whether the bytes of a new version find room in a request. No script has more.
fn has_room(event: &PeerEvent) -> bool
    ensures { result ≡ true → EventHasRoom event.now }
{
    match event {
        PeerEvent::Put { path: _, bytes } => bytes.as_slice().len() <= MOST_BYTES,
        _ => true,
    }
}

impl<R: Remote> SyncActor<R> {
    /// An event of another device, as `Actor::beside` does it. A script has fewer events than there are tokens: the last one is
    /// answered as out of memory.
    pub fn peer(&mut self, event: &PeerEvent) -> Result<Answer, OutOfMemory>
        ensures { StepsBeside (acts_of R.told) (events.Peer event.now) self.old result self.new }
    {
        if self.next == 0 || self.next >= MOST_NUMBER || !has_room(event) {
            return Err(no_such_state());
        }
        self.engine.peer(&mut self.next, event)
    }

    fn set_link(&mut self, alloc: Global, inline: bool) -> Answer
        ensures { StepsBeside (acts_of R.told) (events.Engine (engine.Link inline)) self.old (Ok result) self.new }
    {
        self.engine.set_inline(inline);
        plainly(alloc, Shown::Done)
    }

    fn arrive(&mut self, alloc: Global, message: u32) -> Result<Answer, OutOfMemory>
        ensures { StepsBeside (acts_of R.told) (events.Engine (engine.Arrive message)) self.old result self.new }
    {
        let mut notes = Notes::new(alloc);
        let told = self.engine.arrive(message, &mut notes);
        answered(done(told), notes)
    }

    /// An event of the engine that needs no volume. Any other is out of memory: it never comes here.
    pub(crate) fn do_beside(
        &mut self,
        alloc: Global,
        event: EngineEvent,
    ) -> Result<Answer, OutOfMemory>
        ensures { StepsBeside (acts_of R.told) (events.Engine event) self.old result self.new }
    {
        match event {
            EngineEvent::Link { inline } => Ok(self.set_link(alloc, inline)),
            EngineEvent::Arrive { message } => self.arrive(alloc, message),
            _ => Err(no_such_state()),
        }
    }
}
