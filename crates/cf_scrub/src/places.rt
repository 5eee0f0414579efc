//! Tests of sets of places, which stand as their maximal runs.

ghost use Rattle.std.specs.Prelude.{◌≡◌, ◌+◌, ℕ, MatchOption, false, nat_le};
ghost use Rattle.cf_ranges.specs.Positions.{IsRuns};
ghost use Rattle.cf_scrub.specs.Places.{IsLastBegun, ends_by, has_all, has_run, has_span, spans};

use cf_base::Span;

/// The last run that begins by the place, which is the one that ends last. By a binary search.
pub(crate) fn last_begun(runs: &[Span], by: u64) -> Option<Span>
    requires { IsRuns runs.now }
    ensures { MatchOption result ((to : ℕ) → spans runs.now by to ≡ false) (IsLastBegun runs.now by) }
{
    let next = runs.partition_point(|run| run.start <= by);
    if next == 0 {
        return None;
    }
    Some(runs[next - 1])
}

/// Whether the set has all places of a run.
pub(crate) fn has_run(runs: &[Span], run: Span) -> bool
    requires { IsRuns runs.now }
    ensures { result ≡ has_run runs.now run }
{
    match last_begun(runs, run.start) {
        None => false,
        Some(last) => {
            let before = run.start - last.start;
            before <= last.len && run.len <= last.len - before
        }
    }
}

/// Whether the set has the places from one on to another, which it has where there are none.
pub(crate) fn has_span(runs: &[Span], from: u64, to: u64) -> bool
    requires { IsRuns runs.now }
    ensures { result ≡ has_span runs.now from to }
{
    if to <= from {
        return true;
    }
    let len = to - from;
    has_run(runs, Span { start: from, len })
}

/// Whether the first set has all places of the second.
pub(crate) fn has_all(outer: &[Span], inner: &[Span]) -> bool
    requires { IsRuns outer.now }
    ensures { result ≡ has_all outer.now inner.now }
{
    inner.iter().all(|run| has_run(outer, *run))
}

fn run_ends_by(run: Span, top: u64) -> bool
    ensures { result ≡ nat_le (run.start + run.len) top }
{
    run.start <= top && run.len <= top - run.start
}

/// Whether each place of the set is below this one.
pub(crate) fn ends_by(runs: &[Span], top: u64) -> bool
    ensures { result ≡ ends_by runs.now top }
{
    runs.iter().all(|run| run_ends_by(*run, top))
}
