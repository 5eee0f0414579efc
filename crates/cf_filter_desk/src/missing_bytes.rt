//! Whether a call misses something of its item, and waits that begin.

ghost use Rattle.std.specs.Prelude.{◌≡◌, IfOk, OnErr};
ghost use Rattle.cf_model.specs.Items.{Item};
ghost use Rattle.cf_model.specs.Missing.{is_met, view_of};
ghost use Rattle.cf_model.specs.Requests.{wait_after};
ghost use Rattle.cf_model.specs.Settling.{no_view};
ghost use Rattle.cf_waits.specs.Steps.{Begins, background_id, begun, limits_by};
ghost use Rattle.cf_filter_steps.specs.Good.{IsSmall};
ghost use Rattle.cf_table.specs.Means.{Means};

use cf_base::{CallError, OutOfMemory, Policy, WaitId};
use cf_filter_steps::{Need, no_view, view_of};
use cf_ranges::RangeSet;
use cf_table::Row;
use cf_waits::{Moves, Requests};
use std::alloc::Global;

/// Whether nothing is missing of an item as this row says it.
pub fn is_met_on(
    requests: &Requests,
    policy: Policy,
    row: &Row,
    need: &Need,
) -> Result<bool, OutOfMemory>
    ensures { IfOk result (λ met. (i : Item) → Means row.now i → IsSmall i → met ≡ is_met (view_of policy i) (wait_after requests.now 0 need.now.kind need.now.item need.now.handle need.now.span)) }
{
    let v = view_of(row, policy);
    requests.is_met(need.kind, need.item, need.handle, need.span, &v)
}

/// Whether nothing is missing of an item that is gone.
pub fn is_met_gone(alloc: Global, requests: &Requests, need: &Need) -> Result<bool, OutOfMemory>
    ensures { IfOk result (λ met. met ≡ is_met no_view (wait_after requests.now 0 need.now.kind need.now.item need.now.handle need.now.span)) }
{
    let none = RangeSet::new(alloc);
    let v = no_view(&none);
    requests.is_met(need.kind, need.item, need.handle, need.span, &v)
}

/// Begins a wait on an item as this row says it.
pub(crate) fn start_on(
    requests: &mut Requests,
    policy: Policy,
    row: &Row,
    need: &Need,
) -> Result<(WaitId, Moves), CallError>
    ensures err { OnErr result (requests.new ≡ requests.old) }
    ensures begins { (i : Item) → Means row.now i → IsSmall i → Begins (limits_by need.now.kind) (background_id need.now.background need.now.item requests.old) (begun need.now.kind need.now.item need.now.handle need.now.span need.now.background (view_of policy i) requests.old) requests.old result requests.new }
{
    let v = view_of(row, policy);
    requests.start(
        need.kind,
        need.item,
        need.handle,
        need.span,
        need.background,
        &v,
    )
}

/// Begins a wait on an item that is gone.
pub(crate) fn start_gone(
    alloc: Global,
    requests: &mut Requests,
    need: &Need,
) -> Result<(WaitId, Moves), CallError>
    ensures err { OnErr result (requests.new ≡ requests.old) }
    ensures begins { Begins (limits_by need.now.kind) (background_id need.now.background need.now.item requests.old) (begun need.now.kind need.now.item need.now.handle need.now.span need.now.background no_view requests.old) requests.old result requests.new }
{
    let none = RangeSet::new(alloc);
    let v = no_view(&none);
    requests.start(
        need.kind,
        need.item,
        need.handle,
        need.span,
        need.background,
        &v,
    )
}
