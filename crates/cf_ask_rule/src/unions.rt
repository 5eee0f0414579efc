//! Unions of spans.
ghost use Rattle.std.specs.Prelude.{◌≡◌, ℕ, ◌++◌, [], All, IfOk, OnOk};
ghost use Rattle.std.specs.List.{AllByRecursion};
ghost use Rattle.cf_ask_rule.specs.Unions.{IsSmall, joined_on};
ghost use Rattle.cf_ranges.specs.Positions.{contains, IsRuns};
ghost use Rattle.cf_ranges.specs.Steps.{piece};

use cf_base::{OutOfMemory, Span};
use std::alloc::Global;

/// The maximal runs of the positions that some of the spans have.
pub fn union_of(alloc: Global, mut spans: Vec<Span>) -> Result<Vec<Span>, OutOfMemory>
    requires { All IsSmall spans.items }
    ensures same { IfOk result (λ r. (p : ℕ) → contains r.items p ≡ contains spans.items p) }
    ensures maximal { IfOk result (λ r. IsRuns r.items) }
{
    spans.sort_unstable_by_key(|span| span.start);
    let runs = joined(alloc, &spans)?;
    Ok(runs)
}

// One pass over spans in order of their starts.
fn joined(alloc: Global, spans: &[Span]) -> Result<Vec<Span>, OutOfMemory>
    requires { AllByRecursion IsSmall spans.now }
    ensures { IfOk result (λ r. r.items ≡ joined_on 0 0 spans.now) }
{
    let mut out = Vec::new(alloc);
    let mut start = 0;
    let mut end = 0;
    for span in spans {
        if span.start <= end {
            end = end.max(span.start + span.len);
        } else {
            push_piece(&mut out, start, end)?;
            start = span.start;
            end = span.start + span.len;
        }
    }
    push_piece(&mut out, start, end)?;
    Ok(out)
}

fn push_piece(out: &mut Vec<Span>, from: u64, to: u64) -> Result<(), OutOfMemory>
    ensures { OnOk result (out.new.items ≡ out.old.items ++ piece from to []) }
{
    if from < to {
        out.push(Span {
            start: from,
            len: to - from,
        })?;
    }
    Ok(())
}
