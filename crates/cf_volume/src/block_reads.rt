//! Bytes of files, read from their clusters.

ghost use Rattle.std.specs.Prelude.{◌≡◌, ◌≤◌, ◌<◌, ◌+◌, ◌^◌, ℕ, None, Some, length, IfErr, IfOk};
ghost use Rattle.cf_clusters.specs.Area.{place};
ghost use Rattle.cf_disk.specs.Disk.{Keeps, Leaves, size_of};
ghost use Rattle.cf_ranges.specs.Pairs.{cluster_at};
ghost use Rattle.cf_table.specs.Tables.{row_of};
ghost use Rattle.cf_table.specs.declared.rows.Row.{Row};
ghost use Rattle.cf_volume.specs.Reads.{HasRead};
ghost use Rattle.cf_volume_points.specs.Runs.{IsStop, Ran};

use crate::stay::blocks::load;
use cf_base::{Blob, ItemId, Span};
use cf_clusters::Data;
use cf_ranges::ExtentMap;
use cf_table::Rows;
use cf_volume_ground::Ground;
use cf_volume_points::Stop;
use std::alloc::Global;

/// Reads the bytes of a span of a file from the clusters of its extents.
pub(crate) fn read_span<G: Ground>(
    alloc: Global,
    ground: &mut G,
    held: &Data,
    extents: &ExtentMap,
    span: Span,
) -> Result<Blob, Stop>
    requires room { place (length held.now) ≤ size_of (G.state ground.old) }
    requires inside { (b k : ℕ) → cluster_at extents.now b ≡ Some k → k < length held.now }
    requires end { span.start + span.len ≤ 2 ^ 40 }
    ensures bytes { IfOk result (λ b. HasRead extents.now span.start (span.start + span.len) (span.start + span.len) b (G.state ground.old) (G.state ground.new)) }
    ensures keeps { Keeps (G.state ground.old) (G.state ground.new) }
    ensures crash { Leaves (G.state ground.old) (G.state ground.new) (G.state ground.old).may_leave }
    ensures ran { Ran 0 (G.state ground.old) (G.state ground.new) }
    ensures cause { IfErr result (λ e. IsStop e (G.state ground.old) (G.state ground.new)) }
{
    let end = span.start + span.len;
    let mut at = span.start;
    let mut bytes = Vec::with_capacity(alloc, span.len as usize)?;
    while at < end {
        let number = at / 4096;
        let next = end.min(4096 * number + 4096);
        let from = (at % 4096) as usize;
        let mut block = [0u8; 4096];
        load(ground, held, extents.get(number as u32), &mut block)?;
        bytes.extend_from_slice(&block[from..from + (next - at) as usize])?;
        at = next;
    }
    Ok(Blob::from_vec(bytes))
}

/// Reads the bytes of a span of an item.
pub(crate) fn read_item<G: Ground>(
    alloc: Global,
    ground: &mut G,
    held: &Data,
    rows: &Rows,
    id: ItemId,
    span: Span,
) -> Result<Blob, Stop>
    requires there { row_of rows.now.rows id ≡ None → ⊥ }
    requires room { place (length held.now) ≤ size_of (G.state ground.old) }
    requires inside { (r : Row) → row_of rows.now.rows id ≡ Some r → (b k : ℕ) → cluster_at r.extents b ≡ Some k → k < length held.now }
    requires end { span.start + span.len ≤ 2 ^ 40 }
    ensures bytes { IfOk result (λ b. (r : Row) × (row_of rows.now.rows id ≡ Some r) × HasRead r.extents span.start (span.start + span.len) (span.start + span.len) b (G.state ground.old) (G.state ground.new)) }
    ensures keeps { Keeps (G.state ground.old) (G.state ground.new) }
    ensures crash { Leaves (G.state ground.old) (G.state ground.new) (G.state ground.old).may_leave }
    ensures ran { Ran 0 (G.state ground.old) (G.state ground.new) }
    ensures cause { IfErr result (λ e. IsStop e (G.state ground.old) (G.state ground.new)) }
{
    match rows.get(id) {
        None => unreachable!(),
        Some(row) => read_span(alloc, ground, held, &row.extents, span),
    }
}
