//! Rows as objects.

ghost use Rattle.std.specs.Prelude.{◌≡◌, ◌++◌, map, IfOk, OnOk};
ghost use Rattle.cf_state_rows.specs.Rows.{row_facts, with_first, with_last, with_middle};
ghost use Rattle.cf_state_rows.specs.Values.{facts_value, list_value, run_value};
ghost use Rattle.serde_json.specs.View.{members_view, view};

use crate::texts::{bytes_value, name_value, usn_value};
use cf_base::{OutOfMemory, Span};
use cf_report::{kind_word, pin_word};
use cf_table::{Row, kind_of};
use serde_json::{Map, Value, json, push, put};
use std::alloc::Global;

fn run_value(alloc: Global, run: Span) -> Result<Value, OutOfMemory>
    ensures { IfOk result (λ v. view v ≡ run_value run) }
{
    Ok(json!(in alloc; [run.start, run.len])?)
}

fn push_runs(alloc: Global, list: &mut Vec<Value>, runs: &[Span]) -> Result<(), OutOfMemory>
    ensures { OnOk result (map view list.new.items ≡ map view list.old.items ++ map run_value runs.now) }
{
    for run in runs {
        push(list, run_value(alloc, *run)?)?;
    }
    Ok(())
}

fn runs_value(alloc: Global, runs: &[Span]) -> Result<Value, OutOfMemory>
    ensures { IfOk result (λ v. view v ≡ list_value (map run_value runs.now)) }
{
    let mut list = Vec::new(alloc);
    match push_runs(alloc, &mut list, runs) {
        Ok(()) => Ok(Value::Array(list)),
        Err(fail) => {
            drop(list);
            Err(fail)
        }
    }
}

fn put_last(alloc: Global, members: &mut Map<String, Value>, row: &Row) -> Result<(), OutOfMemory>
    ensures { OnOk result (members_view members.new.entries ≡ with_last (row_facts row.now) (members_view members.old.entries)) }
{
    put(members, alloc, "size", Value::from(row.size))?;
    let pin = Value::try_from_str(alloc, pin_word(row.pin))?;
    put(members, alloc, "pin", pin)?;
    put(members, alloc, "parent", Value::from(row.parent.0))?;
    put(members, alloc, "number", usn_value(alloc, row.number)?)?;
    Ok(())
}

fn put_middle(alloc: Global, members: &mut Map<String, Value>, row: &Row) -> Result<(), OutOfMemory>
    ensures { OnOk result (members_view members.new.entries ≡ with_middle (row_facts row.now) (members_view members.old.entries)) }
{
    let kind = kind_of(row);
    put(
        members,
        alloc,
        "name",
        name_value(alloc, row.name.as_slice())?,
    )?;
    put(
        members,
        alloc,
        "kind",
        Value::try_from_str(alloc, kind_word(kind))?,
    )?;
    put(members, alloc, "insync", Value::from(row.in_sync))?;
    Ok(())
}

fn put_first(alloc: Global, members: &mut Map<String, Value>, row: &Row) -> Result<(), OutOfMemory>
    ensures { OnOk result (members_view members.new.entries ≡ with_first (row_facts row.now) (members_view members.old.entries)) }
{
    put(
        members,
        alloc,
        "identity",
        bytes_value(alloc, row.identity.as_slice())?,
    )?;
    put(members, alloc, "id", Value::from(row.id.0))?;
    put(members, alloc, "here", runs_value(alloc, row.here.runs())?)?;
    Ok(())
}

// The members are put from the last to the first.
fn put_members(
    alloc: Global,
    members: &mut Map<String, Value>,
    row: &Row,
) -> Result<(), OutOfMemory>
    ensures { OnOk result (members_view members.new.entries ≡ with_first (row_facts row.now) (with_middle (row_facts row.now) (with_last (row_facts row.now) (members_view members.old.entries)))) }
{
    put_last(alloc, members, row)?;
    put_middle(alloc, members, row)?;
    put_first(alloc, members, row)?;
    Ok(())
}

/// The object of a row.
pub fn row_value(alloc: Global, row: &Row) -> Result<Value, OutOfMemory>
    ensures { IfOk result (λ v. view v ≡ facts_value (row_facts row.now)) }
{
    let mut members = Map::new(alloc);
    match put_members(alloc, &mut members, row) {
        Ok(()) => Ok(Value::Object(members)),
        Err(fail) => {
            drop(members);
            Err(fail)
        }
    }
}
