//! What follows a change, worked out before it is made.

ghost use Rattle.std.specs.Prelude.{◌≡◌, ◌≤◌, ◌+◌, ◌^◌, IfOk, OnOk, min};
ghost use Rattle.cf_ask_rule.specs.Deeds.{deed_of};
ghost use Rattle.cf_model.specs.Items.{Item};
ghost use Rattle.cf_waits.specs.Steps.{IsPlanned};
ghost use Rattle.cf_filter_steps.specs.Looking.{FitsSpans, effect_on};
ghost use Rattle.cf_filter_steps.specs.Settled.{LooksAfter};
ghost use Rattle.cf_table.specs.Means.{Means};

use crate::ask_steps::{look_at, look_gone};
use crate::steps::Steps;
use cf_ask_rule::Act;
use cf_base::{Change, ItemId, OutOfMemory, Span};
use cf_table::Row;
use cf_waits::Step;
use std::alloc::Global;

/// A bound far above each file.
const FAR: u64 = 1 << 39;

// Spans of changes that suit are far below the bound.
fn near(start: u64, len: u64) -> Span
    ensures value { result ≡ record { start = min start 549755813888; len = min len 549755813888 } }
    ensures near { result.start + result.len ≤ 2 ^ 40 }
{
    Span {
        start: start.min(FAR),
        len: len.min(FAR),
    }
}

// What a change that gives or takes bytes, a mark or a keep makes of the row of its item.
fn change_row(alloc: Global, row: &mut Row, change: &Change) -> Result<(), OutOfMemory>
    ensures { OnOk result ((i : Item) → FitsSpans change.now → Means row.old i → Means row.new (effect_on change.now i)) }
{
    match change {
        Change::Filled {
            item: _,
            start,
            bytes,
        } => row.fill(near(*start, bytes.as_slice().len() as u64)),
        Change::Validated {
            item: _,
            start,
            len,
        } => row.validate(alloc, near(*start, *len)),
        Change::Emptied {
            item: _,
            start,
            len,
        } => row.empty(near(*start, *len)),
        Change::Mark { item: _, number: _ } => {
            row.mark(alloc);
            Ok(())
        }
        Change::Keep { item: _, on } => {
            row.set_keep(*on);
            Ok(())
        }
        _ => Ok(()),
    }
}

/// Works out a step on an item as it is once a change was made that gives or takes bytes, a mark or a keep. Changes nothing.
pub fn look_after<S: Steps>(
    s: &S,
    item: ItemId,
    change: &Change,
    act: Act,
) -> Result<Step, OutOfMemory>
    ensures planned { IfOk result (λ p. IsPlanned p (S.waiting s.now)) }
    ensures looks { IfOk result (λ p. LooksAfter S.sense item change.now (deed_of act) p s.now) }
{
    match s.rows().get(item) {
        Some(row) => {
            let mut after = row.copy()?;
            change_row(s.alloc(), &mut after, change)?;
            look_at(s, item, &after, act)
        }
        None => look_gone(s, item, act),
    }
}
