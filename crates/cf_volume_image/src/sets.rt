//! Tests of sets of places, which stand as their maximal runs.

ghost use Rattle.std.specs.Prelude.{◌≡◌, ◌<◌, ◌+◌, MatchOption, true, false};
ghost use Rattle.std.specs.Bool.{Decides};
ghost use Rattle.cf_volume_image.specs.Sets.{HasAll, HasSpan, IsRunAt};
ghost use Rattle.cf_ranges.specs.Positions.{IsBelow, IsRuns, contains};

use cf_base::Span;

// The run that has the place. By a binary search.
fn run_at(runs: &[Span], at: u64) -> Option<Span>
    requires { IsRuns runs.now }
    ensures { MatchOption result (contains runs.now at ≡ false) (IsRunAt runs.now at) }
{
    let next = runs.partition_point(|run| run.start <= at);
    if next == 0 {
        return None;
    }
    let run = runs[next - 1];
    if at - run.start < run.len {
        Some(run)
    } else {
        None
    }
}

/// Whether the set has the places from one on to another, which it has where there are none.
pub(crate) fn has_span(runs: &[Span], from: u64, to: u64) -> bool
    requires runs { IsRuns runs.now }
    ensures { Decides result (HasSpan runs.now from to) }
{
    if to <= from {
        return true;
    }
    match run_at(runs, from) {
        None => false,
        Some(run) => to - run.start <= run.len,
    }
}

/// Whether the first set has all places of the second.
#[tactic(auto, using(cf_ranges::proofs::Sets::small_runs))]
pub(crate) fn has_all(outer: &[Span], inner: &[Span]) -> bool
    requires outer { IsRuns outer.now }
    requires inner { IsRuns inner.now }
    ensures { Decides result (HasAll outer.now inner.now) }
{
    for run in inner {
        if !has_span(outer, run.start, run.start + run.len) {
            return false;
        }
    }
    true
}

/// Whether each place of the set is below this one.
pub(crate) fn is_below(runs: &[Span], top: u64) -> bool
    requires { IsRuns runs.now }
    ensures { Decides result (IsBelow runs.now top) }
{
    if runs.is_empty() {
        return true;
    }
    let last = runs[runs.len() - 1];
    last.start + last.len <= top
}
