//! Files that are open.

ghost use Rattle.std.specs.Prelude.{◌≡◌};
ghost use Rattle.cf_filter_events.specs.Counted.{StepsOn};
ghost use Rattle.cf_base.specs.declared.calls.Call.TheVariants as call;
ghost use Rattle.cf_base.specs.declared.events.Event.TheVariants as event;
ghost use Rattle.cf_model.specs.Missing.{span_of};

use crate::actors::Actor;
use crate::answers::answered;
use crate::places::RunningOn;
use crate::results::{done, waited};
use cf_base::{Answer, Blob, Handle, Notes, OutOfMemory, Span, Text};
use cf_volume_ground::Ground;
use std::alloc::Global;

fn span_of(offset: u32, len: u32) -> Span
    ensures { result ≡ span_of offset len }
{
    Span {
        start: offset as u64,
        len: len as u64,
    }
}

impl<G: Ground, A: Actor> RunningOn<G, A> {
    /// `close`
    pub(crate) fn close(&mut self, alloc: Global, handle: Handle) -> Result<Answer, OutOfMemory>
        ensures { StepsOn A.acts G.state (event.Call (call.Close handle)) self.old result self.new }
    {
        let mut notes = Notes::new(alloc);
        let told = self.filter.close(handle, &mut self.actor, &mut notes);
        answered(done(told), notes)
    }

    /// `read`
    pub(crate) fn read(
        &mut self,
        alloc: Global,
        handle: Handle,
        offset: u32,
        len: u32,
    ) -> Result<Answer, OutOfMemory>
        ensures { StepsOn A.acts G.state (event.Call (call.Read handle offset len)) self.old result self.new }
    {
        let mut notes = Notes::new(alloc);
        let told = self
            .filter
            .read(handle, span_of(offset, len), &mut self.actor, &mut notes);
        answered(waited(told), notes)
    }

    /// `get`
    pub(crate) fn get(
        &mut self,
        alloc: Global,
        path: &Text,
        offset: u32,
        len: u32,
    ) -> Result<Answer, OutOfMemory>
        ensures { StepsOn A.acts G.state (event.Call (call.Get path.now offset len)) self.old result self.new }
    {
        let mut notes = Notes::new(alloc);
        let told = self.filter.get(
            path.as_str(),
            span_of(offset, len),
            &mut self.actor,
            &mut notes,
        );
        answered(waited(told), notes)
    }

    /// `write`
    pub(crate) fn write(
        &mut self,
        alloc: Global,
        handle: Handle,
        offset: u32,
        bytes: &Blob,
    ) -> Result<Answer, OutOfMemory>
        ensures { StepsOn A.acts G.state (event.Call (call.Write handle offset bytes.now)) self.old result self.new }
    {
        let mut notes = Notes::new(alloc);
        let told = self.filter.write(
            handle,
            offset as u64,
            bytes.as_slice(),
            &mut self.actor,
            &mut notes,
        );
        answered(done(told), notes)
    }

    /// `size`
    pub(crate) fn set_size(
        &mut self,
        alloc: Global,
        handle: Handle,
        size: u32,
    ) -> Result<Answer, OutOfMemory>
        ensures { StepsOn A.acts G.state (event.Call (call.Size handle size)) self.old result self.new }
    {
        let mut notes = Notes::new(alloc);
        let told = self
            .filter
            .set_size(handle, size as u64, &mut self.actor, &mut notes);
        answered(done(told), notes)
    }
}
