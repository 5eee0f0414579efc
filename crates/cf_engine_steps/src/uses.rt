//! Whether items are in use.

ghost use Rattle.cf_filter_steps.specs.Answering.{Any as AnyFilter, Reads as FilterReads};
ghost use Rattle.cf_model.specs.Dehydration.{in_use};

use cf_base::ItemId;
use cf_engine_host::EngineHost;
use cf_filter_calls::is_used;

/// Whether a handle is open on the item, or a wait on it is live.
pub fn in_use<S: EngineHost>(s: &S, item: ItemId) -> bool
    ensures { FilterReads S.sense AnyFilter (in_use item) s.now result }
{
    is_used(s, item)
}
