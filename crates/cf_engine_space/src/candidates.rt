//! Files that may be dehydrated, and which of them are.

ghost use Rattle.std.specs.Prelude.{◌≡◌, IfOk, OnOk, map, nat_lt};
ghost use Rattle.cf_engine_space.specs.Candidates.{candidate_value};
ghost use Rattle.cf_model.specs.Space.{front};
ghost use Rattle.cf_model.specs.Words.{sorted};

use cf_base::{ItemId, OutOfMemory};
use std::alloc::Global;

/// A file that may be dehydrated.
#[derive(Clone, Copy)]
pub(crate) struct Candidate {
    pub item: ItemId,
    /// The clock of its last access, 0 before one.
    pub last: u64,
    /// How many blocks hold a byte of it.
    pub blocks: u64,
}

// Those of one clock stay in order.
fn sort(candidates: &mut Vec<Candidate>) -> Result<(), OutOfMemory>
    ensures { OnOk result (candidates.new.items ≡ sorted (λ c d. nat_lt c.last d.last) candidates.old.items) }
{
    candidates.sort_by_key(|candidate| candidate.last)?;
    Ok(())
}

// The shortest front after which at most the budget is used; all where there is none.
fn front(
    alloc: Global,
    candidates: &[Candidate],
    used: u64,
    budget: u64,
) -> Result<Vec<ItemId>, OutOfMemory>
    ensures { IfOk result (λ v. v.items ≡ front used budget (map candidate_value candidates.now)) }
{
    let mut chosen = Vec::new(alloc);
    let mut left = used;
    for candidate in candidates {
        if left <= budget {
            return Ok(chosen);
        }
        chosen.push(candidate.item)?;
        left = left.saturating_sub(candidate.blocks);
    }
    Ok(chosen)
}

/// The items to dehydrate so that at most the budget of blocks is used, of which so many are used now: those of the candidates, which
/// come in order of item, whose last access is longest ago; all where that is not enough. Takes time as n log n.
pub(crate) fn choose(
    alloc: Global,
    candidates: &mut Vec<Candidate>,
    used: u64,
    budget: u64,
) -> Result<Vec<ItemId>, OutOfMemory>
    ensures { IfOk result (λ v. v.items ≡ front used budget (sorted (λ c d. nat_lt c.last d.last) (map candidate_value candidates.old.items))) }
{
    sort(candidates)?;
    front(alloc, candidates, used, budget)
}
