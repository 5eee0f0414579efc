//! How calls that wait end.

ghost use Rattle.std.specs.Prelude.{◌≡◌, ◌≤◌, ◌+◌, ◌^◌, false, List, Some, IfErr, IfOk, OnOk, map, option_copied, slice_range};
ghost use Rattle.cf_base.specs.declared.waits.Cause.TheVariants as cause;
ghost use Rattle.cf_disk.specs.Disk.{Leaves};
ghost use Rattle.cf_filter_desk.specs.Desks.{ended};
ghost use Rattle.cf_filter_machine.specs.Ends.{IsCutHere, cut_at};
ghost use Rattle.cf_filter_machine.specs.Showing.{StaysBy};
ghost use Rattle.cf_model.specs.Numbers.{same_key};
ghost use Rattle.cf_model.specs.Words.{says};
ghost use Rattle.cf_model.specs.Items.{Item, item_of};
ghost use Rattle.cf_model.specs.Missing.{Wait as model_wait};
ghost use Rattle.cf_model.specs.Settling.{end_met, end_of, is_access, with_access_to};
ghost use Rattle.cf_model.specs.State.{Volume as model};
ghost use Rattle.cf_volume_points.specs.At.{At, StandsLast};
ghost use Rattle.cf_table.specs.Tables.{MeansAll, row_of};
ghost use Rattle.cf_tree.specs.Trees.{RiseFrom};
ghost use Rattle.cf_volume.specs.Calls.{IsCause, IsHere, Runs, StopsOnly};

use crate::entries::entries_of;
use cf_ask_rule::Wait;
use cf_base::{Blob, CallError, Cause, End, ItemId, OutOfMemory, Span, WaitKind};
use cf_filter_desk::Desk;
use cf_table::{Row, Rows};
use cf_volume::VolumeOn;
use cf_volume_ground::Ground;
use std::alloc::Global;

/// Whether a wait of this kind that ends so reads, which is an access.
pub(crate) fn is_access(kind: WaitKind, cause: Cause) -> bool
    ensures { result ≡ is_access kind cause }
{
    matches!(kind, WaitKind::Read) && matches!(cause, Cause::Met)
}

// A span as far as a size.
fn cut_at(asked: Span, size: u32) -> Span
    ensures cuts { result ≡ cut_at asked size }
    ensures near { result.start + result.len ≤ 2 ^ 40 }
{
    let size = size as u64;
    let start = asked.start.min(size);
    let end = asked.start.saturating_add(asked.len).min(size);
    Span {
        start,
        len: end - start,
    }
}

/// A span as far as a file's size, where each byte of it is here. OutOfMemory also where one is not, or there is no such file.
pub(crate) fn cut_here(row: Option<&Row>, asked: Span) -> Result<Span, OutOfMemory>
    ensures { IfOk result (IsCutHere (option_copied row.entry) asked) }
{
    let Some(row) = row else {
        return Err(OutOfMemory);
    };
    let cut = cut_at(asked, row.size);
    let missing = row.here.missing_in(cut)?;
    if !missing.is_empty() {
        return Err(OutOfMemory);
    }
    Ok(cut)
}

/// The bytes of a span of a file, all of which are here. It is an access.
pub(crate) fn read_here<G: Ground>(
    volume: &mut VolumeOn<G>,
    item: ItemId,
    span: Span,
) -> Result<Blob, CallError>
    requires end { span.start + span.len ≤ 2 ^ 40 }
    requires here { IsHere (row_of volume.old.known.table.rows item) span.start (span.start + span.len) }
    ensures bytes { (v : model) (i : Item) → At (G.state volume.old.disk) volume.old.known v → item_of v.items item ≡ Some i → IfOk result (λ b. map Some b ≡ slice_range i.held span.start (span.start + span.len)) }
    ensures ok { (v : model) → At (G.state volume.old.disk) volume.old.known v → OnOk result (At (G.state volume.new.disk) volume.new.known (with_access_to item v)) }
    ensures only { volume.old.known.broken ≡ false → IfErr result StopsOnly }
    ensures cause { IfErr result (λ e. IsCause e (G.state volume.old.disk) (G.state volume.new.disk)) }
    ensures crash { (v : model) → At (G.state volume.old.disk) volume.old.known v → Leaves (G.state volume.old.disk) (G.state volume.new.disk) (StandsLast v) }
    ensures runs { Runs (G.state volume.old.disk) (G.state volume.new.disk) }
    ensures stays { IfErr result (λ e. StaysBy e volume.old.known volume.new.known) }
    ensures usable { OnOk result (volume.new.known.broken ≡ false) }
{
    let bytes = volume.bytes(item, span)?;
    volume.touch(item)?;
    Ok(bytes)
}

/// How a wait ends, where nothing that it needs is missing any more and it does not read.
pub(crate) fn end_met(
    alloc: Global,
    rows: &Rows,
    kind: WaitKind,
    item: ItemId,
) -> Result<End, OutOfMemory>
    requires { is_access kind cause.Met ≡ false }
    ensures { IfOk result (λ end. (items : List Item) (w : model_wait) → MeansAll rows.now.rows items → RiseFrom 1 items → w.item ≡ item → end ≡ end_met kind items w) }
{
    match kind {
        WaitKind::Read => unreachable!(),
        WaitKind::Hydrate => Ok(End::Hydrated),
        WaitKind::Background => Ok(End::Full),
        WaitKind::List => Ok(End::Listed(entries_of(alloc, rows, item)?)),
        WaitKind::Dehydrate => Ok(End::Emptied),
    }
}

// How a wait ends, where it does not read.
fn end_of(alloc: Global, rows: &Rows, wait: &Wait, cause: Cause) -> Result<End, OutOfMemory>
    requires { is_access wait.now.kind cause ≡ false }
    ensures { IfOk result (λ end. (items : List Item) → MeansAll rows.now.rows items → RiseFrom 1 items → end ≡ end_of items wait.now cause) }
{
    match cause {
        Cause::Met => end_met(alloc, rows, wait.kind(), wait.item()),
        Cause::Emptied => Ok(End::Emptied),
        Cause::Failed(status) => Ok(End::Failed(status)),
        Cause::TimedOut => Ok(End::TimedOut),
        Cause::Cancelled => Ok(End::Cancelled),
        Cause::Closed => Ok(End::Closed),
        Cause::Down => Ok(End::Down),
        Cause::Refused(code) => Ok(End::Refused(code)),
    }
}

/// Tells how a wait ends, where it does not read.
pub(crate) fn tell_unread(
    desk: &mut Desk,
    rows: &Rows,
    wait: &Wait,
    cause: Cause,
) -> Result<(), OutOfMemory>
    requires { is_access wait.now.kind cause ≡ false }
    ensures { (items : List Item) → MeansAll rows.now.rows items → RiseFrom 1 items → OnOk result (desk.new ≡ ended wait.now.id (end_of items wait.now cause) (says (λ own. same_key own.0 wait.now.id.0) desk.old.own) desk.old) }
{
    let found = end_of(desk.alloc(), rows, wait, cause)?;
    desk.end(wait.id(), found)
}
