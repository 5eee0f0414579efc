//! Calls of an application.

ghost use Rattle.cf_filter_events.specs.Counted.{StepsOn};
ghost use Rattle.cf_base.specs.declared.events.Event.TheVariants as event;

use crate::actors::Actor;
use crate::places::RunningOn;
use cf_base::{Answer, Call, OutOfMemory};
use cf_volume_ground::Ground;
use std::alloc::Global;

impl<G: Ground, A: Actor> RunningOn<G, A> {
    /// Does a call while the volume is open, and answers it.
    pub(crate) fn call(&mut self, alloc: Global, call: &Call) -> Result<Answer, OutOfMemory>
        ensures { StepsOn A.acts G.state (event.Call call.now) self.old result self.new }
    {
        match call {
            Call::Open { path } => self.open(alloc, path),
            Call::Close { handle } => self.close(alloc, *handle),
            Call::Cancel { wait } => self.cancel(alloc, *wait),
            Call::Tick { ticks } => self.tick(alloc, *ticks),
            Call::Read {
                handle,
                offset,
                len,
            } => self.read(alloc, *handle, *offset, *len),
            Call::Get { path, offset, len } => self.get(alloc, path, *offset, *len),
            Call::Write {
                handle,
                offset,
                bytes,
            } => self.write(alloc, *handle, *offset, bytes),
            Call::Size { handle, size } => self.set_size(alloc, *handle, *size),
            Call::Flush => self.flush(alloc),
            Call::Create { path } => self.create(alloc, path),
            Call::Mkdir { path } => self.mkdir(alloc, path),
            Call::Delete { path } => self.delete(alloc, path),
            Call::Rename { from, to } => self.rename(alloc, from, to),
            Call::List { path } => self.list(alloc, path),
            Call::Pin { path, pin, reach } => self.pin(alloc, path, *pin, *reach),
            Call::Hydrate { path } => self.hydrate(alloc, path),
            Call::Dehydrate { path, range } => self.dehydrate(alloc, path, *range),
            Call::Info { path } => self.info(alloc, path),
            Call::Ranges { path, class } => self.ranges(alloc, path, *class),
            Call::Df => self.df(alloc),
            Call::Policy { policy } => self.set_policy(alloc, policy),
            Call::Keep { path, on } => self.keep_full(alloc, path, *on),
            Call::Used { path } => self.used(alloc, path),
            Call::Connect { on } => self.connect(alloc, *on),
        }
    }
}
