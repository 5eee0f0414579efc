//! Lists of rows in order of id.

ghost use Rattle.std.specs.Prelude.{◌≡◌, ◌≤◌, ◌<◌, ◌^◌, ◌+◌, ◌++◌, ◌∷◌, [], ℕ, Option, IfOk, IfErr, OnOk, OnErr, All, length, get_or, remove};
ghost use Rattle.cf_ranges.specs.Pairs.{cluster_at, IsRising};
ghost use Rattle.cf_ranges.specs.Positions.{IsRuns};
ghost use Rattle.cf_table.specs.Applied.{FitsRow, IsSpellable, Moves, SetsAnchor, SetsExtent, Steps, Touches};
ghost use Rattle.cf_table.specs.Means.{IsLater};
ghost use Rattle.cf_table.specs.Tables.{IsRowAt, IsRowGap, IsTable, IsTableRow, pin_at, RisesFrom, row_len, SetsAt, with_row};
ghost use Rattle.cf_table.specs.declared.rows.Row.{Row};

use crate::ranges::is_in_range;
use crate::rows::Row;
use cf_base::{Blob, Change, ItemId, OutOfMemory, Pin, Usn};
use cf_collections::SpareList;
use cf_ranges::RangeSet;
use std::alloc::Global;

fn run_count(set: &RangeSet) -> u64
    ensures value { result ≡ length set.now }
    ensures maximal { IsRuns set.now }
    ensures small { result ≤ 2 ^ 41 }
{
    set.runs().len() as u64
}

fn pair_count(pairs: &[(u32, u32)]) -> u64
    requires { IsRising pairs.now }
    ensures value { result ≡ length pairs.now }
    ensures small { result ≤ 2 ^ 41 }
{
    if pairs.is_empty() {
        return 0;
    }
    // No block comes twice, so there are no more pairs than blocks up to the last one.
    let last = pairs[pairs.len() - 1].0;
    (pairs.len() as u64).min(last as u64 + 1)
}

impl Row {
    /// How many bytes spell the row.
    pub fn len(&self) -> u64
        requires { IsSpellable self.now }
        ensures value { result ≡ row_len self.now }
        ensures kept { IsTableRow self.now }
        ensures small { result ≤ 2 ^ 47 }
    {
        is_in_range(self);
        let runs = run_count(&self.here)
            + run_count(&self.valid)
            + run_count(&self.modified)
            + run_count(&self.modified_since)
            + pair_count(self.extents.pairs());
        74 + self.name.as_slice().len() as u64 + self.identity.as_slice().len() as u64 + 8 * runs
    }
}

// The rows before this place have lower ids. From it on there are no more rows than ids up to the last one.
fn lowest_place(rows: &[Row], id: u64) -> usize
    requires { RisesFrom 0 rows.now }
    ensures within { result ≤ length rows.now }
    ensures lower { (k : ℕ) (d : Row) → k < result → (get_or rows.now k d).id.0 < id }
{
    let Some(last) = rows.last() else {
        return 0;
    };
    if last.id.0 < id {
        return rows.len();
    }
    (rows.len() - 1).saturating_sub((last.id.0 - id) as usize)
}

// The rows from this place on have higher ids. Before it there are no more rows than ids from the first one on.
fn end_place(rows: &[Row], id: u64) -> usize
    requires { RisesFrom 0 rows.now }
    ensures within { result ≤ length rows.now }
    ensures higher { (k : ℕ) (d : Row) → result ≤ k → k < length rows.now → id < (get_or rows.now k d).id.0 }
{
    let Some(first) = rows.first() else {
        return 0;
    };
    if id < first.id.0 {
        return 0;
    }
    let place = (id - first.id.0) as usize;
    if place < rows.len() {
        place + 1
    } else {
        rows.len()
    }
}

// Where the row with the id is, or where it would go, by a search by halves.
fn search_rows(rows: &[Row], id: u64) -> Result<usize, usize>
    requires { RisesFrom 0 rows.now }
    ensures found { IfOk result (IsRowAt rows.now id) }
    ensures absent { IfErr result (IsRowGap rows.now id) }
{
    rows.binary_search_by_key(&id, |row| row.id.0)
}

/// Where the row with the id is, or where it would go. It is searched for where it can be at all: at one place, where no id between
/// the first one and the last one was left out.
pub(crate) fn find_row(rows: &[Row], id: u64) -> Result<usize, usize>
    requires { RisesFrom 0 rows.now }
    ensures found { IfOk result (IsRowAt rows.now id) }
    ensures absent { IfErr result (IsRowGap rows.now id) }
{
    let low = lowest_place(rows, id);
    let end = end_place(rows, id);
    match search_rows(&rows[low..end], id) {
        Ok(place) => Ok(low + place),
        Err(place) => Err(low + place),
    }
}

/// The pin of the row with the id, and Unspecified where there is none.
pub(crate) fn pin_of(rows: &[Row], id: ItemId) -> Pin
    requires { RisesFrom 0 rows.now }
    ensures { result ≡ pin_at rows.now id }
{
    match find_row(rows, id.0) {
        Ok(place) => rows[place].pin,
        Err(_) => Pin::Unspecified,
    }
}

/// Applies a change to the row at a place. Gives how many bytes spell the rows then, `len` being how many did before.
pub(crate) fn change_at(
    alloc: Global,
    rows: &mut SpareList<Row>,
    place: usize,
    len: u128,
    change: &Change,
    pin: Pin,
    number: Usn,
) -> Result<u128, OutOfMemory>
    requires place { place < length rows.old }
    requires table { IsTable rows.old len }
    requires fits { (d : Row) → FitsRow change.now (get_or rows.old place d) }
    requires later { (d : Row) → IsLater number (get_or rows.old place d) }
    ensures table { IfOk result (IsTable rows.new) }
    ensures sets { OnOk result (SetsAt (Steps change.now pin number) place rows.old rows.new) }
    ensures err { OnErr result (rows.new ≡ rows.old) }
    ensures few { length rows.old < 2 ^ 63 }
{
    let row = rows.item_mut(place);
    let before = row.len() as u128;
    row.apply(alloc, change, pin, number)?;
    Ok(len - before + row.len() as u128)
}

/// Gives the item of the row at a place another parent and name.
pub(crate) fn move_at(
    rows: &mut SpareList<Row>,
    place: usize,
    len: u128,
    parent: ItemId,
    name: Blob,
    pin: Pin,
    number: Usn,
) -> u128
    requires place { place < length rows.old }
    requires table { IsTable rows.old len }
    requires name { length name ≤ 255 }
    requires later { (d : Row) → IsLater number (get_or rows.old place d) }
    ensures table { IsTable rows.new result }
    ensures moves { SetsAt (Moves parent name pin number) place rows.old rows.new }
    ensures few { length rows.old < 2 ^ 63 }
{
    let row = rows.item_mut(place);
    let before = row.len() as u128;
    row.move_to(parent, name, pin, number);
    len - before + row.len() as u128
}

/// Adds a row at the end.
pub(crate) fn push_row(rows: &mut SpareList<Row>, row: Row, len: u128) -> Result<u128, OutOfMemory>
    requires table { IsTable rows.old len }
    requires above { All (λ r. r.id.0 < row.id.0) rows.old }
    requires spellable { IsSpellable row }
    ensures table { IfOk result (IsTable rows.new) }
    ensures adds { OnOk result (rows.new ≡ rows.old ++ row ∷ []) }
    ensures err { OnErr result (rows.new ≡ rows.old) }
    ensures few { length rows.old < 2 ^ 63 }
{
    let more = row.len() as u128;
    rows.push(row)?;
    Ok(len + more)
}

/// Takes the row at a place out.
pub(crate) fn remove_at(rows: &mut SpareList<Row>, place: usize, len: u128) -> u128
    requires place { place < length rows.old }
    requires table { IsTable rows.old len }
    ensures table { IsTable rows.new result }
    ensures removes { rows.new ≡ remove rows.old place }
{
    // The row of a root has no bytes, so that it takes no memory.
    let filler = Row::root(rows.allocator()).ok();
    let row = rows.remove(place, filler);
    len - row.len() as u128
}

/// Makes the cluster that of a block in the row at a place, or takes the block out where there is none, and gives the
/// one before. `len` is how many bytes spell the rows.
pub(crate) fn extent_at(
    rows: &mut SpareList<Row>,
    place: usize,
    len: &mut u128,
    block: u32,
    cluster: Option<u32>,
) -> Result<Option<u32>, OutOfMemory>
    requires place { place < length rows.old }
    requires table { IsTable rows.old len.old }
    ensures table { IsTable rows.new len.new }
    ensures before { (d : Row) → IfOk result (λ before. before ≡ cluster_at (get_or rows.old place d).extents block) }
    ensures sets { OnOk result (SetsAt (SetsExtent block cluster) place rows.old rows.new) }
    ensures err { OnErr result ((rows.new ≡ rows.old) × (len.new ≡ len.old)) }
{
    let row = rows.item_mut(place);
    let old_len = row.len() as u128;
    let before = row.set_extent(block, cluster)?;
    *len = *len - old_len + row.len() as u128;
    Ok(before)
}

/// Makes the anchor of the row at a place its number.
pub(crate) fn anchor_at(alloc: Global, rows: &mut SpareList<Row>, place: usize, len: u128) -> u128
    requires place { place < length rows.old }
    requires table { IsTable rows.old len }
    ensures table { IsTable rows.new result }
    ensures sets { SetsAt SetsAnchor place rows.old rows.new }
{
    let row = rows.item_mut(place);
    let before = row.len() as u128;
    row.set_anchor(alloc);
    len - before + row.len() as u128
}

/// Sets the last access of the row at a place.
pub(crate) fn touch_at(rows: &mut SpareList<Row>, place: usize, clock: u64)
    requires place { place < length rows.old }
    ensures table { (n : ℕ) → IsTable rows.old n → IsTable rows.new n }
    ensures sets { SetsAt (Touches clock) place rows.old rows.new }
{
    let row = rows.item_mut(place);
    row.touch(clock);
}

/// Puts a row in place of the one at a place, which has its id.
pub(crate) fn replace_at(rows: &mut SpareList<Row>, place: usize, row: Row, len: u128) -> u128
    requires place { IsRowAt rows.old row.id.0 place }
    requires table { IsTable rows.old len }
    requires spellable { IsSpellable row }
    ensures table { IsTable rows.new result }
    ensures puts { rows.new ≡ with_row row rows.old }
    ensures few { length rows.old < 2 ^ 63 }
{
    let after = row.len() as u128;
    let before = rows.replace(place, row).len() as u128;
    len - before + after
}

/// Puts a row at a place between those with ids below and above.
pub(crate) fn insert_at(
    rows: &mut SpareList<Row>,
    place: usize,
    row: Row,
    len: u128,
) -> Result<u128, OutOfMemory>
    requires place { IsRowGap rows.old row.id.0 place }
    requires table { IsTable rows.old len }
    requires spellable { IsSpellable row }
    ensures table { IfOk result (IsTable rows.new) }
    ensures puts { OnOk result (rows.new ≡ with_row row rows.old) }
    ensures err { OnErr result (rows.new ≡ rows.old) }
    ensures few { length rows.old < 2 ^ 63 }
{
    let more = row.len() as u128;
    rows.insert(place, row)?;
    Ok(len + more)
}
