//! Who stands at a name.

ghost use Rattle.std.specs.Prelude.{◌≡◌, List, IfOk, true};
ghost use Rattle.cf_base.specs.Names.{is_name};
ghost use Rattle.cf_model.specs.Items.{Item};
ghost use Rattle.cf_engine_feed_plan.specs.Lists.{off};
ghost use Rattle.cf_table.specs.Tables.{MeansAll};

use cf_base::{Change, ItemId, Name, OutOfMemory};
use cf_table::Rows;
use cf_tree::conflict_name;
use std::alloc::Global;

/// The name that the bytes are. Bytes that are none, which no entry and no item has, are answered as out of memory.
pub(crate) fn name_of(alloc: Global, bytes: &[u8]) -> Result<Name, OutOfMemory>
    ensures { IfOk result (λ n. (n ≡ bytes.now) × (is_name bytes.now ≡ true)) }
{
    match Name::read(alloc, bytes) {
        Ok(name) => Ok(name),
        Err(_) => Err(OutOfMemory),
    }
}

/// The move by which whoever stands at the name, but for one item, comes to its conflict name.
pub(crate) fn off(
    alloc: Global,
    rows: &Rows,
    parent: ItemId,
    name: &Name,
    but: ItemId,
) -> Result<Option<Change>, OutOfMemory>
    requires { is_name name.now ≡ true }
    ensures { IfOk result (λ o. (items : List Item) → MeansAll rows.now.rows items → o ≡ off items parent name.now but) }
{
    match rows.child(parent, name.as_slice()) {
        None => Ok(None),
        Some(item) => {
            if item == but {
                return Ok(None);
            }
            let name = conflict_name(alloc, rows, parent, name)?;
            Ok(Some(Change::Move { item, parent, name }))
        }
    }
}
