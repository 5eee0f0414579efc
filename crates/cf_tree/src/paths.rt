//! The path of an item.

ghost use Rattle.std.specs.Prelude.{◌≡◌, ◌++◌, ◌∷◌, List, IfOk, OnOk, Ok, Some, string_bytes, true};
ghost use Rattle.cf_base.specs.Names.{is_name};
ghost use Rattle.cf_model.specs.Items.{Item, item_of};
ghost use Rattle.cf_model.specs.LookUp.{find_path};
ghost use Rattle.cf_table.specs.Tables.{MeansAll};
ghost use Rattle.cf_tree.specs.Lines.{path_in};
ghost use Rattle.cf_tree.specs.Trees.{AreOpen, HaveNames, IsTree};

use crate::names::MOST_NAMES;
use cf_base::{ItemId, OutOfMemory, Text};
use cf_table::{ROOT, Rows};
use std::alloc::Global;

// Adds a slash and the name. What is no text is left out.
fn push_name(path: &mut String, name: &[u8]) -> Result<(), OutOfMemory>
    ensures { OnOk result (is_name name.now ≡ true → string_bytes path.new ≡ string_bytes path.old ++ 47 ∷ name.now) }
{
    match str::from_utf8(name) {
        Ok(name) => {
            path.push('/')?;
            path.push_str(name)?;
            Ok(())
        }
        Err(_) => Ok(()),
    }
}

// A slash and a name for each item on the way down to this one, `most` at most.
fn names_to(alloc: Global, rows: &Rows, id: ItemId, most: usize) -> Result<String, OutOfMemory>
    ensures { IfOk result (λ s. HaveNames rows.now.rows → string_bytes s ≡ path_in most rows.now.rows id) }
{
    if most == 0 {
        return Ok(String::new(alloc));
    }
    let Some(row) = rows.get(id) else {
        return Ok(String::new(alloc));
    };
    if row.id == ROOT {
        return Ok(String::new(alloc));
    }
    let mut path = names_to(alloc, rows, row.parent, most - 1)?;
    push_name(&mut path, row.name.as_slice())?;
    Ok(path)
}

/// The path by which `find` leads to the item, where each item but the root has a name and no directory whose entries have
/// not come has a child. It takes time by the depth.
pub fn path_of(alloc: Global, rows: &Rows, id: ItemId) -> Result<Text, OutOfMemory>
    ensures { IfOk result (λ t. (items : List Item) (i : Item) → HaveNames rows.now.rows → MeansAll rows.now.rows items → IsTree items → AreOpen items → item_of items id ≡ Some i → find_path items t ≡ Ok i) }
{
    if id == ROOT {
        return Ok(Text::from_str(alloc, "/")?);
    }
    let path = names_to(alloc, rows, id, MOST_NAMES)?;
    Ok(Text::from_str(alloc, path.as_str())?)
}
