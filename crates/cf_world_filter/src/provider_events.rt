//! Events of the provider.

ghost use Rattle.cf_base.specs.declared.events.Event.TheVariants as event;
ghost use Rattle.cf_filter_events.specs.Counted.{StepsOn};
ghost use Rattle.cf_world_filter.specs.Scripts.{scripts};

use crate::actors::ScriptActor;
use crate::placeholders::{convert, place, place_dir, revert, unmark, update};
use cf_base::{Answer, OutOfMemory, ProviderEvent};
use cf_filter::FilterOn;
use cf_volume_ground::Ground;
use std::alloc::Global;

impl ScriptActor {
    /// Does an event of the provider while the volume is open and no event met Device, and answers it.
    pub(crate) fn provide<G: Ground>(
        &mut self,
        alloc: Global,
        filter: &mut FilterOn<G>,
        provided: &ProviderEvent,
    ) -> Result<Answer, OutOfMemory>
        ensures { StepsOn scripts G.state (event.Provider provided.now) (record { filter = filter.old; actor = self.old }) result (record { filter = filter.new; actor = self.new }) }
    {
        match provided {
            ProviderEvent::Place {
                path,
                size,
                identity,
                in_sync,
            } => place(alloc, filter, path, *size, identity, *in_sync),
            ProviderEvent::PlaceDir {
                path,
                identity,
                in_sync,
            } => place_dir(alloc, filter, path, identity, *in_sync),
            ProviderEvent::Convert { path, identity } => convert(alloc, filter, path, identity),
            ProviderEvent::Revert { path } => revert(alloc, filter, path),
            ProviderEvent::Update {
                path,
                identity,
                size,
            } => update(alloc, filter, path, identity, *size),
            ProviderEvent::Mark { path, number } => self.mark(alloc, filter, path, *number),
            ProviderEvent::Unmark { path } => unmark(alloc, filter, path),
            ProviderEvent::Do { operation } => self.carry_out(alloc, filter, operation),
            ProviderEvent::Plan { own, operation } => self.plan(alloc, *own, operation),
        }
    }
}
