//! Where later runs are as earlier ones, and where they may have less.
ghost use Rattle.std.specs.Prelude.{◌≡◌, ℕ, true, false, ◌+◌, ◌-◌, ◌^◌, ◌≤◌, ◌&&◌, drop, length, max, min, nat_le, take, IfSome, IsTrue};
ghost use Rattle.std.specs.List.{AllByRecursion, list_all, list_any};
ghost use Rattle.cf_ask_rule.specs.Narrowing.{IsCut};
ghost use Rattle.cf_ranges.specs.Positions.{contains, in_span, within};

use cf_base::Span;

/// The positions from a start up to an end.
#[derive(Clone, Copy)]
pub struct Change {
    pub start: u64,
    pub end: u64,
}

impl Change {
    /// The least that has the positions of both.
    pub fn with(&self, other: Change) -> Change
        ensures start { result.start ≡ min self.now.start other.start }
        ensures end { result.end ≡ max self.now.end other.end }
    {
        Change {
            start: self.start.min(other.start),
            end: self.end.max(other.end),
        }
    }
}

/// No position of a file is as far.
pub const FAR: u64 = 1 << 32;

// So many runs between those that stayed are compared one by one.
const MOST_CHANGED: usize = 16;

/// The positions outside of which the later runs are as the earlier ones. Nothing where they may have a position that
/// those lack. It takes the time of the shorter list.
pub fn change_of(old: &[Span], new: &[Span]) -> Option<Change>
    ensures { IfSome result (λ c. IsCut old.now new.now c.start c.end) }
{
    let front = equal_front(old, new);
    let old_rest = without_front(old, front);
    let new_rest = without_front(new, front);
    let back = equal_back(old_rest, new_rest);
    let before = without_back(old_rest, back);
    let after = without_back(new_rest, back);
    if before.len() <= MOST_CHANGED && after.len() <= MOST_CHANGED && are_in(after, before) {
        Some(trimmed(hull(before), after))
    } else {
        None
    }
}

fn is_same(a: Span, b: Span) -> bool
    ensures { IsTrue result → a ≡ b }
{
    a.start == b.start && a.len == b.len
}

fn without_front(runs: &[Span], count: usize) -> &[Span]
    requires { count ≤ length runs.now }
    ensures { result.now ≡ drop count runs.now }
{
    &runs[count..]
}

fn without_back(runs: &[Span], count: usize) -> &[Span]
    requires { count ≤ length runs.now }
    ensures { result.now ≡ take (length runs.now - count) runs.now }
{
    &runs[..runs.len() - count]
}

// How many runs at the front are the same.
fn equal_front(a: &[Span], b: &[Span]) -> usize
    ensures in_a { result ≤ length a.now }
    ensures in_b { result ≤ length b.now }
    ensures same { take result a.now ≡ take result b.now }
{
    let least = a.len().min(b.len());
    let mut n = 0;
    while n < least {
        if !is_same(a[n], b[n]) {
            return n;
        }
        n += 1;
    }
    n
}

// How many runs at the end are the same.
fn equal_back(a: &[Span], b: &[Span]) -> usize
    ensures in_a { result ≤ length a.now }
    ensures in_b { result ≤ length b.now }
    ensures same { drop (length a.now - result) a.now ≡ drop (length b.now - result) b.now }
{
    let least = a.len().min(b.len());
    let mut n = 0;
    while n < least {
        if !is_same(a[a.len() - 1 - n], b[b.len() - 1 - n]) {
            return n;
        }
        n += 1;
    }
    n
}

fn covers(run: Span, other: Span) -> bool
    ensures { result ≡ (nat_le run.start other.start && nat_le (other.start + other.len) (run.start + run.len)) }
{
    run.start <= other.start
        && other.start - run.start <= run.len
        && other.len <= run.len - (other.start - run.start)
}

fn is_in(run: Span, runs: &[Span]) -> bool
    ensures { result ≡ list_any (λ r. nat_le r.start run.start && nat_le (run.start + run.len) (r.start + r.len)) runs.now }
{
    runs.iter().any(|r| covers(*r, run))
}

// Whether each run lies in one of the others.
fn are_in(runs: &[Span], others: &[Span]) -> bool
    ensures { result ≡ list_all (λ s. list_any (λ r. nat_le r.start s.start && nat_le (s.start + s.len) (r.start + r.len)) others.now) runs.now }
{
    runs.iter().all(|run| is_in(*run, others))
}

/// The positions from the first to the last of the runs.
pub fn hull(runs: &[Span]) -> Change
    ensures start { AllByRecursion (λ r. result.start ≤ r.start) runs.now }
    ensures end { AllByRecursion (λ r. min (r.start + r.len) (2 ^ 32) ≤ result.end) runs.now }
{
    Change {
        start: least_start(runs),
        end: greatest_end(runs),
    }
}

// Without what the first and the last of the later runs have of it.
fn trimmed(hull: Change, after: &[Span]) -> Change
    ensures { (p : ℕ) → within hull.start hull.end p ≡ true → within result.start result.end p ≡ false → contains after.now p ≡ true }
{
    let count = after.len();
    if count == 0 {
        return hull;
    }
    cut_last(cut_first(hull, after[0]), after[count - 1])
}

// Without what the run has of its front.
fn cut_first(hull: Change, run: Span) -> Change
    ensures { (p : ℕ) → within hull.start hull.end p ≡ true → within result.start result.end p ≡ false → in_span run p ≡ true }
{
    if run.start > hull.start {
        return hull;
    }
    Change {
        start: hull.start.max(run.start.saturating_add(run.len)),
        end: hull.end,
    }
}

// Without what the run has of its end.
fn cut_last(hull: Change, run: Span) -> Change
    ensures { (p : ℕ) → within hull.start hull.end p ≡ true → within result.start result.end p ≡ false → in_span run p ≡ true }
{
    if run.start.saturating_add(run.len) < hull.end {
        return hull;
    }
    Change {
        start: hull.start,
        end: hull.end.min(run.start),
    }
}

fn least_start(runs: &[Span]) -> u64
    ensures { AllByRecursion (λ r. result ≤ r.start) runs.now }
{
    let mut least = u64::MAX;
    for run in runs {
        least = least.min(run.start);
    }
    least
}

/// No run has a position from there on, up to 2^32.
pub fn greatest_end(runs: &[Span]) -> u64
    ensures { AllByRecursion (λ r. min (r.start + r.len) (2 ^ 32) ≤ result) runs.now }
{
    let mut greatest = 0;
    for run in runs {
        greatest = greatest.max(run.start.saturating_add(run.len).min(FAR));
    }
    greatest
}
