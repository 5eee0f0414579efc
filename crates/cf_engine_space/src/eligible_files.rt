//! Which files may be dehydrated as things are.

ghost use Rattle.std.specs.Prelude.{◌≡◌, ◌++◌, IfOk, None, OnOk, Some, cond, is_some, not};
ghost use Rattle.std.specs.List.{list_any};
ghost use Rattle.cf_engine_space.specs.Candidates.{IsCandidate, IsCandidates, IsEligible, files_in};
ghost use Rattle.cf_model.specs.Blocks.{blocks_held};
ghost use Rattle.cf_model.specs.Items.{Item, size_of};
ghost use Rattle.cf_model.specs.Verdicts.{verdict};
ghost use Rattle.cf_table.specs.Means.{Means};

use crate::candidates::Candidate;
use cf_base::{OutOfMemory, Policy};
use cf_filter_calls::{facts_of, is_used};
use cf_filter_steps::Steps;
use cf_item_rules::{Verdict, verdict};
use cf_table::Row;

fn may_leave(policy: &Policy, row: &Row, used: bool) -> bool
    ensures { (i : Item) → Means row.now i → result ≡ not (is_some (verdict policy.now i 0 (size_of i) used)) }
{
    let facts = facts_of(policy, row, 0, row.size as u64, used);
    match verdict(&facts) {
        Verdict::Allowed => true,
        _ => false,
    }
}

// How many blocks hold a byte of the row's item; none where no byte is here.
fn blocks_here(row: &Row) -> Option<u64>
    ensures { (i : Item) → Means row.now i → result ≡ cond (list_any is_some i.held) (Some (blocks_held i.held)) None }
{
    if row.here.runs().is_empty() {
        return None;
    }
    Some(row.here.blocks())
}

fn eligible<S: Steps>(s: &S, policy: &Policy, row: &Row, blocks: u64) -> Option<Candidate>
    ensures { IsEligible S.sense policy.now row.now blocks s.now result }
{
    let used = is_used(s, row.id);
    if !may_leave(policy, row, used) {
        return None;
    }
    Some(Candidate {
        item: row.id,
        last: s.last_access(row.id),
        blocks,
    })
}

// The file of the row, where a byte of it is here and the verdict on the whole of it allows it. Most rows have no byte here, which is
// seen first.
fn candidate<S: Steps>(s: &S, policy: &Policy, row: &Row) -> Option<Candidate>
    ensures { IsCandidate S.sense policy.now row.now s.now result }
{
    match blocks_here(row) {
        Some(blocks) => eligible(s, policy, row, blocks),
        None => None,
    }
}

fn push_file(files: &mut Vec<Candidate>, file: Option<Candidate>) -> Result<(), OutOfMemory>
    ensures { OnOk result (files.new.items ≡ files.old.items ++ files_in file) }
{
    if let Some(candidate) = file {
        files.push(candidate)?;
    }
    Ok(())
}

/// The files of the rows that may be dehydrated, in their order, where this is the policy. Takes time by the rows.
pub(crate) fn files_among<S: Steps>(
    s: &S,
    policy: &Policy,
    rows: &[Row],
) -> Result<Vec<Candidate>, OutOfMemory>
    ensures { IfOk result (λ v. IsCandidates S.sense policy.now rows.now s.now v.items) }
{
    let mut files = Vec::new(s.alloc());
    for row in rows {
        let file = candidate(s, policy, row);
        push_file(&mut files, file)?;
    }
    Ok(files)
}
