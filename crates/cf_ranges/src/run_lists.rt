//! Lists of maximal runs in order.
ghost use Rattle.std.specs.Prelude.{◌≡◌, ℕ, ◌+◌, ◌-◌, ◌^◌, ◌≤◌, ◌<◌, ◌++◌, ◌||◌, ◌↔◌, [], drop, get_or, length, max, min, nat_lt, OnOk, OnErr, IfOk, IsTrue};
ghost use Rattle.std.specs.List.{remove_range};
ghost use Rattle.cf_base.specs.declared.spans.Span.{Span as Run};
ghost use Rattle.cf_ranges.specs.Positions.{contains, IsRuns, touches};
ghost use Rattle.cf_ranges.specs.Steps.{added, begun, blocks_from, cut_of, ended, missing_of, piece, span as span_of};

use cf_base::{OutOfMemory, Span};
use std::alloc::Global;

const BLOCK: u64 = 4096;

const LIMIT: u64 = 1 << 40;

pub(crate) fn are_runs(runs: &[Span]) -> bool
    ensures { IsTrue result ↔ IsRuns runs.now }
{
    let mut low = 0;
    for run in runs {
        if run.start < low || run.len == 0 || run.start > LIMIT || run.len > LIMIT - run.start {
            return false;
        }
        low = run.start + run.len + 1;
    }
    true
}

// Only the last run that begins by then may have it.
pub(crate) fn has(runs: &[Span], at: u64) -> bool
    requires { IsRuns runs.now }
    ensures { result ≡ contains runs.now at }
{
    let next = runs.partition_point(|run| run.start <= at);
    if next == 0 {
        return false;
    }
    let run = runs[next - 1];
    at - run.start < run.len
}

// Only the last run that begins by the end of the block may reach into it.
pub(crate) fn touches(runs: &[Span], block: u64) -> bool
    requires runs { IsRuns runs.now }
    requires block { block < 2 ^ 40 }
    ensures { result ≡ touches runs.now block }
{
    let start = BLOCK * block;
    let last = start + (BLOCK - 1);
    let next = runs.partition_point(|run| run.start <= last);
    if next == 0 {
        return false;
    }
    reaches(runs[next - 1], start)
}

/// Whether the run, which is not empty, has the position or a later one.
pub fn reaches(run: Span, start: u64) -> bool
    ensures { result ≡ (nat_lt start run.start || nat_lt (start - run.start) run.len) }
{
    start < run.start || start - run.start < run.len
}

pub(crate) fn blocks(runs: &[Span]) -> u64
    requires { IsRuns runs.now }
    ensures { result ≡ blocks_from 0 runs.now }
{
    let mut count = 0;
    let mut next = 0;
    for run in runs {
        let end = (run.start + run.len + (BLOCK - 1)) / BLOCK;
        count += end - (run.start / BLOCK).max(next);
        next = end;
    }
    count
}

// How many runs begin by the position.
fn begun(runs: &[Span], at: u64) -> usize
    requires { IsRuns runs.now }
    ensures count { result ≡ begun at runs.now }
    ensures bound { result ≤ length runs.now }
{
    runs.partition_point(|run| run.start <= at)
}

// How many runs end before the position.
fn ended(runs: &[Span], at: u64) -> usize
    requires { IsRuns runs.now }
    ensures count { result ≡ ended at runs.now }
    ensures bound { result ≤ length runs.now }
{
    let next = begun(runs, at);
    if next == 0 {
        return 0;
    }
    let run = runs[next - 1];
    if at - run.start > run.len {
        next
    } else {
        next - 1
    }
}

// The run that a span and the runs that it meets make, which are those from first on and before last.
#[tactic(auto, using(crate::proofs::Sets::small_runs))]
fn joined(runs: &[Span], span: Span, first: usize, last: usize) -> Span
    requires runs { IsRuns runs.now }
    requires small { span.start + span.len ≤ 2 ^ 40 }
    requires some { first < last }
    requires within { last ≤ length runs.now }
    ensures { (d : Run) → result ≡ span_of (min span.start (get_or runs.now first d).start) (max (span.start + span.len) ((get_or runs.now (last - 1) d).start + (get_or runs.now (last - 1) d).len)) }
{
    let start = span.start.min(runs[first].start);
    let run = runs[last - 1];
    let end = (span.start + span.len).max(run.start + run.len);
    Span {
        start,
        len: end - start,
    }
}

// Takes the runs of a range of places out. Those behind it move.
fn take_out(runs: &mut Vec<Span>, from: usize, to: usize)
    requires order { from ≤ to }
    requires within { to ≤ length runs.old.items }
    ensures { runs.new.items ≡ remove_range runs.old.items from to }
{
    let kept = runs.len() - (to - from);
    runs.copy_within(to.., from);
    runs.truncate(kept);
}

// In place: the runs that the span meets become one with it. Takes memory where it meets none.
pub(crate) fn put_span(runs: &mut Vec<Span>, span: Span) -> Result<(), OutOfMemory>
    requires runs { IsRuns runs.old.items }
    requires some { 0 < span.len }
    requires small { span.start + span.len ≤ 2 ^ 40 }
    ensures ok { OnOk result (runs.new.items ≡ added span.start (span.start + span.len) runs.old.items) }
    ensures err { OnErr result (runs.new.items ≡ runs.old.items) }
{
    let first = ended(runs, span.start);
    let last = begun(runs, span.start + span.len);
    if first >= last {
        runs.insert(first, span)?;
        return Ok(());
    }
    runs[first] = joined(runs, span, first, last);
    take_out(runs, first + 1, last);
    Ok(())
}

// One pass: of each run, what lies before the span and what lies behind it.
#[tactic(auto, using(crate::proofs::Sets::small_runs))]
pub(crate) fn without_span(
    alloc: Global,
    runs: &[Span],
    span: Span,
) -> Result<Vec<Span>, OutOfMemory>
    requires runs { IsRuns runs.now }
    requires some { 0 < span.len }
    requires small { span.start + span.len ≤ 2 ^ 40 }
    ensures { IfOk result (λ v. v.items ≡ cut_of span.start (span.start + span.len) runs.now) }
{
    let mut out = Vec::new(alloc);
    let end = span.start + span.len;
    for run in runs {
        push_piece(&mut out, run.start, span.start.min(run.start + run.len))?;
        push_piece(&mut out, end.max(run.start), run.start + run.len)?;
    }
    Ok(out)
}

// The runs from this index on.
fn from_index(runs: &[Span], first: usize) -> &[Span]
    requires { first ≤ length runs.now }
    ensures { result.now ≡ drop first runs.now }
{
    &runs[first..]
}

// The runs from the last one on that begins by the position: no run before it reaches so far.
fn near_runs(runs: &[Span], at: u64) -> &[Span]
    requires { IsRuns runs.now }
    ensures runs { IsRuns result.now }
    ensures missing { (end : ℕ) → missing_of at end result.now ≡ missing_of at end runs.now }
{
    let next = runs.partition_point(|run| run.start <= at);
    from_index(runs, next.saturating_sub(1))
}

// Looks at the runs near the span alone.
#[tactic(auto, using(crate::proofs::Sets::small_runs))]
pub(crate) fn missing_in(alloc: Global, runs: &[Span], span: Span) -> Result<Vec<Span>, OutOfMemory>
    requires runs { IsRuns runs.now }
    requires small { span.start + span.len ≤ 2 ^ 40 }
    ensures { IfOk result (λ v. v.items ≡ missing_of span.start (span.start + span.len) runs.now) }
{
    let mut out = Vec::new(alloc);
    let end = span.start + span.len;
    let mut at = span.start;
    let near = near_runs(runs, at);
    for run in near {
        if end <= run.start {
            break;
        }
        push_piece(&mut out, at, end.min(run.start))?;
        at = at.max(run.start + run.len);
    }
    push_piece(&mut out, at, end)?;
    Ok(out)
}

fn push_piece(out: &mut Vec<Span>, from: u64, to: u64) -> Result<(), OutOfMemory>
    ensures { OnOk result (out.new.items ≡ out.old.items ++ piece from to []) }
{
    if from < to {
        out.push(Span {
            start: from,
            len: to - from,
        })?;
    }
    Ok(())
}

// A short name for the tests.
