//! What items are at the remote, and where.

ghost use Rattle.std.specs.Prelude.{IfOk};
ghost use Rattle.cf_engine_steps.specs.Marks.{IsParentTarget, IsTarget, StandsIf};

use crate::book_reads::is_seen_at;
use cf_base::{OutOfMemory, Rid, no_such_state};
use cf_engine_host::EngineHost;
use cf_filter_steps::Steps;
use cf_table::Row;

/// No item of the remote.
pub const NO_RID: Rid = Rid(0);

/// The item of the remote that the row's item is, 0 for none. An identity that no engine gave is out of memory.
pub fn target_of(row: &Row) -> Result<Rid, OutOfMemory>
    ensures { IfOk result (IsTarget row.now) }
{
    match cf_engine_provider::target_of(row) {
        Some(rid) => Ok(rid),
        None => Err(no_such_state()),
    }
}

/// The item of the remote that the parent of the row's item is, 0 for none. As `target_of`.
pub fn parent_target<S: Steps>(s: &S, row: &Row) -> Result<Rid, OutOfMemory>
    ensures { IfOk result (IsParentTarget S.sense row.now s.now) }
{
    match s.rows().get(row.parent) {
        Some(parent) => target_of(parent),
        None => Ok(NO_RID),
    }
}

/// Whether the item stands at the path at which it was seen. As `target_of`.
pub fn stands_at_seen<S: EngineHost>(s: &S, row: &Row) -> Result<bool, OutOfMemory>
    ensures { IfOk result (StandsIf S.sense row.now s.now) }
{
    let parent = parent_target(s, row)?;
    is_seen_at(s, row.id, parent, row.name.as_slice())
}
