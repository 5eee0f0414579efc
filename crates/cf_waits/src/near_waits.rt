//! The waits that need something of a span. One pass over all, which takes no memory.
ghost use Rattle.std.specs.Prelude.{◌≡◌, ◌≤◌, ◌&&◌, ◌==◌, false, drop, length, take};
ghost use Rattle.std.specs.List.{AllByRecursion, list_any};
ghost use Rattle.cf_ask_rule.specs.Narrowing.{AreNear, reaches_into};
ghost use Rattle.cf_model.specs.Missing.{needed};

use cf_ask_rule::{Change, LiveWait, Sight, is_needing};
use cf_base::ItemId;

/// Waits among which are all on the item that need something of the span: the one that does, where no other does.
pub(crate) fn near_of<'a>(
    waits: &'a [LiveWait],
    item: ItemId,
    v: &Sight,
    span: Change,
) -> &'a [LiveWait]
    ensures { AreNear item v.now span.start span.end result.now waits.now }
{
    let first = count_far(waits, item, v, span);
    let rest = &waits[first..];
    let count = count_near(rest, item, v, span);
    &rest[..count]
}

// How many come before the first that needs something there.
fn count_far(waits: &[LiveWait], item: ItemId, v: &Sight, span: Change) -> usize
    ensures few { result ≤ length waits.now }
    ensures far { AllByRecursion (λ w. ((w.item.0 == item.0) && reaches_into (needed v.now w) span.start span.end) ≡ false) (take result waits.now) }
{
    let mut n = 0;
    while n < waits.len() {
        if is_needing(item, v, span, &waits[n]) {
            return n;
        }
        n += 1;
    }
    n
}

// One, where none behind the first needs something there, and else all.
#[tactic(auto, using(crate::proofs::Skipped::none_behind))]
fn count_near(rest: &[LiveWait], item: ItemId, v: &Sight, span: Change) -> usize
    ensures few { result ≤ length rest.now }
    ensures far { list_any (λ w. (w.item.0 == item.0) && reaches_into (needed v.now w) span.start span.end) (drop result rest.now) ≡ false }
{
    let all = rest.len();
    if all < 2 {
        return all;
    }
    if has_near(&rest[1..], item, v, span) {
        return all;
    }
    1
}

fn has_near(waits: &[LiveWait], item: ItemId, v: &Sight, span: Change) -> bool
    ensures { result ≡ list_any (λ w. (w.item.0 == item.0) && reaches_into (needed v.now w) span.start span.end) waits.now }
{
    waits.iter().any(|w| is_needing(item, v, span, w))
}
