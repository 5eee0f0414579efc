//! Reads that wait each behind the one before, as they do where a file is read from its front to its end.
ghost use Rattle.std.specs.Prelude.{◌≡◌, List, ◌+◌, ◌++◌, ◌∷◌, [], ◌^◌, ◌≤◌, false, true, filter, nat_le, Bool, IfSome};
ghost use Rattle.cf_ask_rule.specs.Narrowing.{AreNear};
ghost use Rattle.cf_model.specs.Missing.{Wait};
ghost use Rattle.cf_waits.specs.Lines.{InLine, IsLine, is_read};

use crate::near_waits::near_of;
use cf_ask_rule::{Change, LiveWait, Sight};
use cf_base::{ItemId, WaitKind};

const MOST: u64 = 1 << 52;

/// Where the waits end with one more, if all are reads each of which begins behind the one before.
pub(crate) fn line_with(line: Option<u64>, w: &LiveWait) -> Option<u64>
    ensures { (ws : List Wait) → InLine line ws → InLine result (ws ++ w.now ∷ []) }
{
    match line {
        Some(end) => end_behind(end, w),
        None => None,
    }
}

fn end_behind(end: u64, w: &LiveWait) -> Option<u64>
    ensures { IfSome result (λ e. (is_read w.now.kind ≡ true) × (end ≤ w.now.span.start) × (w.now.span.start + w.now.span.len ≤ e) × (e ≤ 2 ^ 52)) }
{
    let span = w.span();
    if !is_read(w.kind()) || span.start < end {
        return None;
    }
    if span.start > MOST || span.len > MOST - span.start {
        return None;
    }
    Some(span.start + span.len)
}

fn is_read(kind: WaitKind) -> bool
    ensures { result ≡ is_read kind }
{
    match kind {
        WaitKind::Read => true,
        _ => false,
    }
}

/// Where the waits end that are left. A line begins anew where none is.
#[tactic(auto, using(crate::proofs::Lined::line_kept, crate::proofs::Lined::line_none))]
pub(crate) fn line_left(line: Option<u64>, left: &[LiveWait]) -> Option<u64>
    ensures { (p : Wait → Bool) (ws : List Wait) → InLine line ws → left.now ≡ filter p ws → InLine result left.now }
{
    match left {
        [] => Some(0),
        _ => line,
    }
}

fn ends_by(w: &LiveWait, at: u64) -> bool
    ensures { result ≡ nat_le (w.now.span.start + w.now.span.len) at }
{
    let span = w.span();
    span.start <= at && span.len <= at - span.start
}

/// Waits among which are all on the item that need something of the span: by halves where they stand in line, and else by a pass.
pub(crate) fn near_by<'a>(
    waits: &'a [LiveWait],
    line: Option<u64>,
    item: ItemId,
    v: &Sight,
    span: Change,
) -> &'a [LiveWait]
    requires { InLine line waits.now }
    ensures { AreNear item v.now span.start span.end result.now waits.now }
{
    match line {
        Some(_) => near_in_line(waits, item, v, span),
        None => near_of(waits, item, v, span),
    }
}

// No read needs the whole file, or all waits are looked at.
fn near_in_line<'a>(waits: &'a [LiveWait], item: ItemId, v: &Sight, span: Change) -> &'a [LiveWait]
    requires { IsLine waits.now }
    ensures { AreNear item v.now span.start span.end result.now waits.now }
{
    if v.is_whole() {
        return near_of(waits, item, v, span);
    }
    let first = waits.partition_point(|w| ends_by(w, span.start));
    let rest = &waits[first..];
    let count = rest.partition_point(|w| w.span().start < span.end);
    &rest[..count]
}
