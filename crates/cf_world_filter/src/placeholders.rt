//! Placeholders.

ghost use Rattle.std.specs.Prelude.{◌≡◌, Bool, List};
ghost use Rattle.cf_filter_events.specs.Counted.{StepsOn};
ghost use Rattle.cf_base.specs.declared.operations.Operation.{Operation};
ghost use Rattle.cf_base.specs.declared.events.Event.TheVariants as event;
ghost use Rattle.cf_base.specs.declared.events.ProviderEvent.TheVariants as provider;
ghost use Rattle.cf_world_filter.specs.Scripts.{scripts};

use cf_base::{Answer, Identity, Notes, OutOfMemory, Text};
use cf_filter::FilterOn;
use cf_filter_events::{answered, item, number};
use cf_item_rules::Creation;
use cf_volume_ground::Ground;
use std::alloc::Global;

fn wide_size(size: Option<u32>) -> Option<u64>
    ensures { result ≡ size }
{
    match size {
        Some(size) => Some(size as u64),
        None => None,
    }
}

/// `place`
pub(crate) fn place<G: Ground>(
    alloc: Global,
    filter: &mut FilterOn<G>,
    path: &Text,
    size: u32,
    identity: &Identity,
    in_sync: bool,
) -> Result<Answer, OutOfMemory>
    ensures { (plan : List (Bool × Operation)) → StepsOn scripts G.state (event.Provider (provider.Place path.now size identity.now in_sync)) (record { filter = filter.old; actor = plan }) result (record { filter = filter.new; actor = plan }) }
{
    let identity = identity.copy()?;
    let what = Creation::Placeholder {
        size: size as u64,
        identity,
        mark: in_sync,
    };
    let mut notes = Notes::new(alloc);
    let told = filter.create(path.as_str(), &what, &mut notes);
    answered(item(told), notes)
}

/// `placedir`
pub(crate) fn place_dir<G: Ground>(
    alloc: Global,
    filter: &mut FilterOn<G>,
    path: &Text,
    identity: &Identity,
    in_sync: bool,
) -> Result<Answer, OutOfMemory>
    ensures { (plan : List (Bool × Operation)) → StepsOn scripts G.state (event.Provider (provider.PlaceDir path.now identity.now in_sync)) (record { filter = filter.old; actor = plan }) result (record { filter = filter.new; actor = plan }) }
{
    let identity = identity.copy()?;
    let what = Creation::PlaceholderDir {
        identity,
        mark: in_sync,
    };
    let mut notes = Notes::new(alloc);
    let told = filter.create(path.as_str(), &what, &mut notes);
    answered(item(told), notes)
}

/// `convert`
pub(crate) fn convert<G: Ground>(
    alloc: Global,
    filter: &mut FilterOn<G>,
    path: &Text,
    identity: &Identity,
) -> Result<Answer, OutOfMemory>
    ensures { (plan : List (Bool × Operation)) → StepsOn scripts G.state (event.Provider (provider.Convert path.now identity.now)) (record { filter = filter.old; actor = plan }) result (record { filter = filter.new; actor = plan }) }
{
    let mut notes = Notes::new(alloc);
    let told = filter.convert(path.as_str(), identity, &mut notes);
    answered(number(told), notes)
}

/// `revert`
pub(crate) fn revert<G: Ground>(
    alloc: Global,
    filter: &mut FilterOn<G>,
    path: &Text,
) -> Result<Answer, OutOfMemory>
    ensures { (plan : List (Bool × Operation)) → StepsOn scripts G.state (event.Provider (provider.Revert path.now)) (record { filter = filter.old; actor = plan }) result (record { filter = filter.new; actor = plan }) }
{
    let mut notes = Notes::new(alloc);
    let told = filter.revert(path.as_str(), &mut notes);
    answered(number(told), notes)
}

/// `update`
pub(crate) fn update<G: Ground>(
    alloc: Global,
    filter: &mut FilterOn<G>,
    path: &Text,
    identity: &Identity,
    size: Option<u32>,
) -> Result<Answer, OutOfMemory>
    ensures { (plan : List (Bool × Operation)) → StepsOn scripts G.state (event.Provider (provider.Update path.now identity.now size)) (record { filter = filter.old; actor = plan }) result (record { filter = filter.new; actor = plan }) }
{
    let mut notes = Notes::new(alloc);
    let told = filter.update(path.as_str(), identity, wide_size(size), &mut notes);
    answered(number(told), notes)
}

/// `unmark`
pub(crate) fn unmark<G: Ground>(
    alloc: Global,
    filter: &mut FilterOn<G>,
    path: &Text,
) -> Result<Answer, OutOfMemory>
    ensures { (plan : List (Bool × Operation)) → StepsOn scripts G.state (event.Provider (provider.Unmark path.now)) (record { filter = filter.old; actor = plan }) result (record { filter = filter.new; actor = plan }) }
{
    let mut notes = Notes::new(alloc);
    let told = filter.clear_in_sync(path.as_str(), &mut notes);
    answered(number(told), notes)
}
