//! The path of a row.

ghost use Rattle.std.specs.Prelude.{◌≡◌, ◌++◌, ◌∷◌, IfOk, OnOk, Some, string_bytes};
ghost use Rattle.cf_pair_paths.specs.PathsByRows.{path_in};
ghost use Rattle.cf_table.specs.Tables.{row_of};

use cf_base::{ItemId, OutOfMemory, Text, no_such_state};
use cf_table::{ROOT, Row, Rows};
use cf_tree::MOST_NAMES;
use std::alloc::Global;

// Adds a slash and the name. Each name is a text; what is none is answered as out of memory.
fn push_name(path: &mut String, name: &[u8]) -> Result<(), OutOfMemory>
    ensures { OnOk result (string_bytes path.new ≡ string_bytes path.old ++ 47 ∷ name.now) }
{
    match str::from_utf8(name) {
        Ok(name) => {
            path.push('/')?;
            path.push_str(name)?;
            Ok(())
        }
        Err(_) => Err(no_such_state()),
    }
}

// A slash and a name for each item on the way down to this one, `most` at most.
fn names_to(alloc: Global, rows: &Rows, id: ItemId, most: usize) -> Result<String, OutOfMemory>
    ensures { IfOk result (λ s. string_bytes s ≡ path_in most rows.now.rows (row_of rows.now.rows id)) }
{
    if most == 0 {
        return Ok(String::new(alloc));
    }
    let Some(row) = rows.get(id) else {
        return Ok(String::new(alloc));
    };
    if row.id == ROOT {
        return Ok(String::new(alloc));
    }
    let mut path = names_to(alloc, rows, row.parent, most - 1)?;
    push_name(&mut path, row.name.as_slice())?;
    Ok(path)
}

/// The path of a row: a slash and a name for each item on the way down to it. It takes time by the depth.
pub(crate) fn path_of(alloc: Global, rows: &Rows, row: &Row) -> Result<Text, OutOfMemory>
    ensures { IfOk result (λ t. t ≡ path_in 33 rows.now.rows (Some row.now)) }
{
    if row.id == ROOT {
        return Text::from_str(alloc, "");
    }
    let mut path = names_to(alloc, rows, row.parent, MOST_NAMES)?;
    push_name(&mut path, row.name.as_slice())?;
    Text::from_str(alloc, path.as_str())
}
