//! What a port shows as a list ask comes.

ghost use Rattle.std.specs.Prelude.{IfOk};
ghost use Rattle.cf_engine_provider.specs.Findings.{Knows};
ghost use Rattle.cf_provider.specs.Sights.{Shows};
ghost use Rattle.cf_model.specs.State.{Filter};
ghost use Rattle.cf_engine_queue.specs.Records.{IsKeepable};

use crate::locals::{Locals, locals_of};
use cf_base::{Ask, ItemId, Key, OutOfMemory};
use cf_engine_queue::sends_new;
use cf_provider::Port;
use std::alloc::Global;

/// What a reply to a list ask is looked at with.
#[derive(Drop)]
pub struct Found {
    /// The ask, if it is live.
    pub live: Option<Ask>,
    /// The local items that are items of the remote.
    pub local: Locals,
    /// The id that the next item gets.
    pub next: ItemId,
    /// Whether a new item is on its way to the remote.
    pub sends_new: bool,
}

/// What the port shows, for the ask with this key. It takes time by the items.
pub fn find<P: Port>(alloc: Global, key: Key, port: &P) -> Result<Found, OutOfMemory>
    ensures { (f : Filter) → Shows (P.sight port.now) f → IsKeepable f.volume.book → IfOk result (λ x. Knows key x f) }
{
    let live = port.ask(key);
    let local = locals_of(alloc, port.rows().as_slice())?;
    let sends_new = sends_new(alloc, port.records())?;
    let next = port.rows().next();
    Ok(Found {
        live,
        local,
        next,
        sends_new,
    })
}
