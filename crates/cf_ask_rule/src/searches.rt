//! The next of something, from a number on.
ghost use Rattle.std.specs.Prelude.{◌≡◌, ℕ, Bool, cond, ◌||◌, ◌&&◌, ◌+◌, ◌≤◌, ◌^◌, nat_le, nat_lt, IfSome, IsTrue};
ghost use Rattle.cf_ask_rule.specs.Nexts.{IsEnd, IsFirstRun, IsNext, IsPlaceBeyond};
ghost use Rattle.cf_ranges.specs.Positions.{contains, IsRuns};

use cf_base::Span;

/// Places of needs and of the runs of a sight, from which a search goes on. Each serves; near ones are quick.
#[derive(Clone, Copy)]
pub struct Hint {
    pub need: usize,
    pub absent: usize,
    pub bare: usize,
}

impl Hint {
    /// The places of the first runs.
    pub fn first() -> Hint {
        Hint {
            need: 0,
            absent: 0,
            bare: 0,
        }
    }
}

/// How many runs end by a number. A place is tried first, and the one after it, and then a binary search finds it.
pub fn place_beyond(runs: &[Span], near: usize, from: u64) -> usize
    requires { IsRuns runs.now }
    ensures { IsPlaceBeyond from runs.now result }
{
    if is_place(runs, near, from) {
        return near;
    }
    let after = near.saturating_add(1);
    if is_place(runs, after, from) {
        return after;
    }
    place_of(runs, from)
}

// Whether the first run that ends beyond a number stands at the place.
fn is_place(runs: &[Span], place: usize, from: u64) -> bool
    requires { IsRuns runs.now }
    ensures { IsTrue result → IsPlaceBeyond from runs.now place }
{
    if place >= runs.len() {
        return false;
    }
    if ends_by(runs[place], from) {
        return false;
    }
    if place == 0 {
        return true;
    }
    ends_by(runs[place - 1], from)
}

fn place_of(runs: &[Span], from: u64) -> usize
    requires { IsRuns runs.now }
    ensures { IsPlaceBeyond from runs.now result }
{
    runs.partition_point(|run| ends_by(*run, from))
}

// The first run that ends beyond a number. It is sought from a place on.
fn first_beyond(runs: &[Span], near: usize, from: u64) -> Option<Span>
    requires { IsRuns runs.now }
    ensures { IsFirstRun runs.now from result }
{
    let next = place_beyond(runs, near, from);
    if next == runs.len() {
        return None;
    }
    Some(runs[next])
}

fn ends_by(run: Span, at: u64) -> bool
    ensures { result ≡ nat_le (run.start + run.len) at }
{
    run.start <= at && run.len <= at - run.start
}

/// The first position from a number on that the runs have. It is sought from a place of the runs on.
pub fn next_in(runs: &[Span], near: usize, from: u64) -> Option<u64>
    requires { IsRuns runs.now }
    ensures next { IsNext (contains runs.now) from result }
    ensures small { IfSome result (λ n. n ≤ 2 ^ 40) }
{
    match first_beyond(runs, near, from) {
        Some(run) => Some(run.start.max(from)),
        None => None,
    }
}

/// The end of the run that has the position, and the position where none has it. It is sought from a place of the runs on.
pub fn end_of(runs: &[Span], near: usize, at: u64) -> u64
    requires { IsRuns runs.now }
    ensures { IsEnd runs.now at result }
{
    match first_beyond(runs, near, at) {
        Some(run) => end_from(run, at),
        None => at,
    }
}

fn end_from(run: Span, at: u64) -> u64
    requires { run.start + run.len ≤ 2 ^ 40 }
    ensures { result ≡ cond (nat_le run.start at) (run.start + run.len) at }
{
    if run.start <= at {
        run.start + run.len
    } else {
        at
    }
}

/// The lesser of two numbers that may be there.
pub fn lesser(a: Option<u64>, b: Option<u64>) -> Option<u64>
    ensures { (f g : ℕ → Bool) (from : ℕ) → IsNext f from a → IsNext g from b → IsNext (λ p. f p || g p) from result }
{
    match a {
        None => b,
        Some(x) => Some(match b {
            None => x,
            Some(y) => x.min(y),
        }),
    }
}

/// The number, where it is below an end.
pub fn below(a: Option<u64>, end: u64) -> Option<u64>
    ensures { (f : ℕ → Bool) (from : ℕ) → IsNext f from a → IsNext (λ p. nat_lt p end && f p) from result }
{
    match a {
        None => None,
        Some(x) => { if x < end { Some(x) } else { None } }
    }
}
