//! Lines of JSON.

ghost use Rattle.std.specs.Prelude.{◌≡◌, ◌++◌, false, List, map, IfOk, OnOk};
ghost use Rattle.cf_model.specs.Items.{Item};
ghost use Rattle.cf_state_rows.specs.Rows.{row_facts, with_rows};
ghost use Rattle.cf_state_rows.specs.Values.{document, facts_value, line_of, list_value, off_value, volume_value};
ghost use Rattle.cf_table.specs.Tables.{MeansAll};
ghost use Rattle.serde_json.specs.View.{members_view, view};
ghost use Rattle.serde_json.specs.Written.{has_float};

use crate::members::row_value;
use cf_base::{Blob, OutOfMemory};
use cf_table::{Row, Rows};
use serde_json::{Map, Value, json, push, put};
use std::alloc::Global;

fn push_rows(alloc: Global, list: &mut Vec<Value>, rows: &[Row]) -> Result<(), OutOfMemory>
    ensures { OnOk result (map view list.new.items ≡ map view list.old.items ++ map facts_value (map row_facts rows.now)) }
{
    for row in rows {
        push(list, row_value(alloc, row)?)?;
    }
    Ok(())
}

fn rows_value(alloc: Global, rows: &[Row]) -> Result<Value, OutOfMemory>
    ensures { IfOk result (λ v. view v ≡ list_value (map facts_value (map row_facts rows.now))) }
{
    let mut list = Vec::new(alloc);
    match push_rows(alloc, &mut list, rows) {
        Ok(()) => Ok(Value::Array(list)),
        Err(fail) => {
            drop(list);
            Err(fail)
        }
    }
}

// The members are put from the last to the first.
fn put_members(
    alloc: Global,
    members: &mut Map<String, Value>,
    count: u64,
    epoch: u32,
    rows: &[Row],
) -> Result<(), OutOfMemory>
    ensures { OnOk result (members_view members.new.entries ≡ with_rows count epoch (map row_facts rows.now) (members_view members.old.entries)) }
{
    put(members, alloc, "items", rows_value(alloc, rows)?)?;
    put(members, alloc, "epoch", Value::from(epoch))?;
    put(members, alloc, "count", Value::from(count))?;
    Ok(())
}

fn document(alloc: Global, count: u64, epoch: u32, rows: &[Row]) -> Result<Value, OutOfMemory>
    ensures { IfOk result (λ v. view v ≡ document count epoch (map row_facts rows.now)) }
{
    let mut members = Map::new(alloc);
    match put_members(alloc, &mut members, count, epoch, rows) {
        Ok(()) => Ok(Value::Object(members)),
        Err(fail) => {
            drop(members);
            Err(fail)
        }
    }
}

fn line(alloc: Global, value: &Value) -> Result<Blob, OutOfMemory>
    ensures { IfOk result (λ b. has_float (view value.now) ≡ false → b ≡ line_of (view value.now)) }
{
    let mut text = value.to_vec(alloc)?;
    text.push(b'\n')?;
    Ok(Blob::from_vec(text))
}

fn line_of_rows(alloc: Global, count: u64, epoch: u32, rows: &[Row]) -> Result<Blob, OutOfMemory>
    ensures { IfOk result (λ b. b ≡ line_of (document count epoch (map row_facts rows.now))) }
{
    let value = document(alloc, count, epoch, rows)?;
    let written = line(alloc, &value);
    drop(value);
    written
}

/// The state of a volume as a line of JSON: how many changes were accepted, the epoch, and what is shown of the items that the
/// rows mean, in order of id. The work grows with the rows and their runs.
pub fn volume_line(alloc: Global, count: u64, epoch: u32, rows: &Rows) -> Result<Blob, OutOfMemory>
    ensures { (items : List Item) → MeansAll rows.now.rows items → IfOk result (λ b. b ≡ line_of (volume_value count epoch items)) }
{
    let _ = rows.image_len();
    line_of_rows(alloc, count, epoch, rows.as_slice())
}

/// The line of JSON that shows no volume, since the power was cut.
pub fn off_line(alloc: Global) -> Result<Blob, OutOfMemory>
    ensures { IfOk result (λ b. b ≡ line_of off_value) }
{
    let value = json!(in alloc; {"off": true})?;
    let written = line(alloc, &value);
    drop(value);
    written
}
