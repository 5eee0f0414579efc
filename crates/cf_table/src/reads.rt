//! Rows read from bytes.

ghost use Rattle.std.specs.Prelude.{◌≡◌, ◌<◌, ◌++◌, ℕ, List, Option, None, Some, All, IfOk, IfErr, length, map};
ghost use Rattle.cf_codec.specs.Left.{Takes};
ghost use Rattle.cf_model.specs.Rows as model;
ghost use Rattle.cf_table.specs.Faults.{AreTable, AtIdentity, AtName, AtRow, AtRows, AtTable, AtWhole, IsTold};
ghost use Rattle.cf_table.specs.Reading.{AreRowsIn, IsIdentity, IsName, IsRowIn, identity_bytes, name_bytes, row_of};
ghost use Rattle.cf_table.specs.Spelling.{HasRoom, row_value, spell_each_in, spell_row_in, spell_rows_in};
ghost use Rattle.cf_table.specs.Tables.{RisesFrom};

use crate::failures::RowError;
use crate::heads::{Head, read_head};
use crate::plain_fields::{read_1, read_2, read_4, read_bytes};
use crate::rows::Row;
use crate::set_reads::{Sets, read_sets};
use crate::tables::Rows;
use crate::unindexed_rows::UnindexedRows;
use cf_base::{Blob, Identity, ItemId};
use cf_codec::{Format, Reader};
use std::alloc::Global;

// How many rows room is taken for before they are read. A count that is no count of rows takes no more.
const MOST_AT_ONCE: usize = 1024;

fn read_name(alloc: Global, r: &mut Reader) -> Result<Blob, RowError>
    ensures took { IfOk result (λ name. Takes (name_bytes name) r.old r.new) }
    ensures fits { IfOk result IsName }
    ensures fault { IfErr result (AtName r.old) }
{
    let count = read_1(r)?;
    let bytes = read_bytes(r, count as usize)?;
    Ok(Blob::from_slice(alloc, bytes)?)
}

fn read_identity(alloc: Global, r: &mut Reader) -> Result<Identity, RowError>
    ensures took { IfOk result (λ identity. Takes (identity_bytes identity) r.old r.new) }
    ensures fits { IfOk result IsIdentity }
    ensures fault { IfErr result (AtIdentity r.old) }
{
    let count = read_2(r)?;
    let bytes = read_bytes(r, count as usize)?;
    Ok(Identity::new(alloc, bytes)?)
}

fn row_of(head: Head, name: Blob, identity: Identity, sets: Sets) -> Row
    ensures { result ≡ row_of head name identity sets }
{
    let basics = head.basics;
    let flags = basics.flags;
    Row {
        id: head.who.id,
        parent: head.who.parent,
        dir: flags.dir,
        placeholder: flags.placeholder,
        populated: flags.populated,
        in_sync: flags.in_sync,
        dirty: flags.dirty,
        dirty_since: flags.dirty_since,
        keep: flags.keep,
        pin: basics.pin,
        size: basics.lengths.size,
        base: basics.lengths.base,
        number: head.numbers.number,
        anchor: head.numbers.anchor,
        last: head.numbers.last,
        name,
        identity,
        here: sets.here,
        valid: sets.valid,
        modified: sets.modified,
        modified_since: sets.modified_since,
        extents: sets.extents,
    }
}

// A row whose id is above this one, if there is one.
fn read_row(
    alloc: Global,
    r: &mut Reader,
    format: Format,
    before: Option<u64>,
) -> Result<Row, RowError>
    ensures took { IfOk result (λ row. Takes (spell_row_in format (row_value row)) r.old r.new) }
    ensures fits { IfOk result (λ row. IsRowIn format before (row_value row)) }
    ensures fault { IfErr result (AtRow format before r.old) }
{
    let head = read_head(r, format, before)?;
    let name = read_name(alloc, r)?;
    let identity = read_identity(alloc, r)?;
    let sets = read_sets(alloc, r)?;
    Ok(row_of(head, name, identity, sets))
}

// So many rows, whose ids rise.
fn read_rows(
    alloc: Global,
    r: &mut Reader,
    format: Format,
    count: u32,
) -> Result<UnindexedRows, RowError>
    ensures took { IfOk result (λ t. Takes (spell_each_in format t) r.old r.new) }
    ensures count { IfOk result (λ t. length t ≡ count) }
    ensures rows { IfOk result (λ t. AreRowsIn format None (map row_value t)) }
    ensures room { IfOk result (λ t. All HasRoom t) }
    ensures fault { IfErr result (AtRows format None count r.old) }
{
    let mut rows = UnindexedRows::with_capacity(alloc, (count as usize).min(MOST_AT_ONCE))?;
    let mut before = None;
    for _ in 0..count {
        let row = read_row(alloc, r, format, before)?;
        before = Some(row.id.0);
        rows.push_row(row)?;
    }
    Ok(rows)
}

// So many rows, whose ids rise, in a list.
fn read_each(
    alloc: Global,
    r: &mut Reader,
    format: Format,
    count: u32,
) -> Result<Vec<Row>, RowError>
    ensures took { IfOk result (λ v. Takes (spell_each_in format v.items) r.old r.new) }
    ensures count { IfOk result (λ v. length v.items ≡ count) }
    ensures rows { IfOk result (λ v. AreRowsIn format None (map row_value v.items)) }
    ensures room { IfOk result (λ v. All HasRoom v.items) }
    ensures fault { IfErr result (AtRows format None count r.old) }
{
    let mut rows = Vec::new(alloc);
    let mut before = None;
    for _ in 0..count {
        let row = read_row(alloc, r, format, before)?;
        before = Some(row.id.0);
        rows.push(row)?;
    }
    Ok(rows)
}

impl Row {
    /// Reads a row that is spelled in the format, as `spell` does in format 2, and leaves what stands behind it. Short or
    /// BadField at the first field that lacks bytes or is not spelled, and then no row is spelled at the front of what is left.
    pub fn read(alloc: Global, r: &mut Reader, format: Format) -> Result<Row, RowError>
        ensures took { IfOk result (λ row. Takes (spell_row_in format (row_value row)) r.old r.new) }
        ensures fits { IfOk result (λ row. IsRowIn format None (row_value row)) }
        ensures room { IfOk result HasRoom }
        ensures fault { IfErr result (AtRow format None r.old) }
        ensures none { IfErr result (λ e. IsTold e → (row : model.Row) (more : List ℕ) → IsRowIn format None row → r.old.rest ≡ spell_row_in format row ++ more → ⊥) }
    {
        read_row(alloc, r, format, None)
    }

    /// Reads how many rows there are, and the rows, whose ids rise; leaves what stands behind them. They come as a list in
    /// order of id, without what a table keeps beside them. Short or BadField at the first field that lacks bytes or is not
    /// spelled, and then no rows are spelled at the front of what is left.
    pub fn read_list(alloc: Global, r: &mut Reader, format: Format) -> Result<Vec<Row>, RowError>
        ensures took { IfOk result (λ v. Takes (spell_rows_in format (map row_value v.items)) r.old r.new) }
        ensures fits { IfOk result (λ v. AreTable format (map row_value v.items)) }
        ensures room { IfOk result (λ v. All HasRoom v.items) }
        ensures fault { IfErr result (AtTable format r.old) }
        ensures none { IfErr result (λ e. IsTold e → (rows : List model.Row) (more : List ℕ) → AreTable format rows → r.old.rest ≡ spell_rows_in format rows ++ more → ⊥) }
    {
        let count = read_4(r)?;
        read_each(alloc, r, format, count)
    }
}

impl UnindexedRows {
    /// Reads how many rows there are, and the rows, whose ids rise; leaves what stands behind them. Short or BadField at
    /// the first field that lacks bytes or is not spelled, and then no rows are spelled at the front of what is left.
    pub fn read_front(
        alloc: Global,
        r: &mut Reader,
        format: Format,
    ) -> Result<UnindexedRows, RowError>
        ensures took { IfOk result (λ t. Takes (spell_rows_in format (map row_value t)) r.old r.new) }
        ensures fits { IfOk result (λ t. AreTable format (map row_value t)) }
        ensures room { IfOk result (λ t. All HasRoom t) }
        ensures fault { IfErr result (AtTable format r.old) }
        ensures none { IfErr result (λ e. IsTold e → (rows : List model.Row) (more : List ℕ) → AreTable format rows → r.old.rest ≡ spell_rows_in format rows ++ more → ⊥) }
    {
        let count = read_4(r)?;
        read_rows(alloc, r, format, count)
    }
}

impl Rows {
    /// The rows in order of id.
    pub fn as_slice(&self) -> &[Row]
        ensures value { result.now ≡ self.now.rows }
        ensures rises { RisesFrom 0 self.now.rows }
    {
        self.rows.as_slice()
    }

    /// Reads rows that are spelled in the format, as `spell` does in format 2. Short or BadField at the first field that
    /// lacks bytes or is not spelled, or at the first byte behind the rows, and then the bytes spell no rows.
    pub fn read(alloc: Global, b: &[u8], format: Format, next: ItemId) -> Result<Rows, RowError>
        ensures spelled { IfOk result (λ t. b.now ≡ spell_rows_in format (map row_value t.rows)) }
        ensures fits { IfOk result (λ t. AreTable format (map row_value t.rows)) }
        ensures room { IfOk result (λ t. All HasRoom t.rows) }
        ensures next { IfOk result (λ t. t.next ≡ next) }
        ensures fault { IfErr result (AtWhole format (record { place = 0; rest = b.now })) }
        ensures none { IfErr result (λ e. IsTold e → (rows : List model.Row) → AreTable format rows → b.now ≡ spell_rows_in format rows → ⊥) }
    {
        let mut r = Reader::new(b);
        let rows = UnindexedRows::read_front(alloc, &mut r, format)?;
        r.end()?;
        Ok(rows.into_rows(next)?)
    }
}
