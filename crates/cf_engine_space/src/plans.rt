//! The plan: which files are dehydrated, in order.

ghost use Rattle.std.specs.Prelude.{IfOk};
ghost use Rattle.cf_engine_space.specs.Candidates.{plan_there};
ghost use Rattle.cf_filter_steps.specs.Answering.{Any, Reads};

use crate::candidates::choose;
use crate::eligible_files::files_among;
use cf_base::{ItemId, OutOfMemory};
use cf_filter_steps::Steps;

/// The files to dehydrate so that at most the budget of blocks is used: of those that may be dehydrated the ones whose last access is
/// longest ago, and of one clock those with the least id; all of them where that is not enough. Takes time by the rows, and as n log n by
/// the files that may be dehydrated.
pub(crate) fn plan<S: Steps>(s: &S, budget: u32) -> Result<Vec<ItemId>, OutOfMemory>
    ensures { IfOk result (λ v. Reads S.sense Any (plan_there budget) s.now v.items) }
{
    let policy = s.policy();
    let mut files = files_among(s, &policy, s.rows().as_slice())?;
    let blocks = s.used_blocks();
    choose(s.alloc(), &mut files, blocks.0 as u64, budget as u64)
}
