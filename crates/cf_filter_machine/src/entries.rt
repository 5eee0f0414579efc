//! The entries of a directory.

ghost use Rattle.std.specs.Prelude.{◌≡◌, List, MatchOption, IfOk, option_copied};
ghost use Rattle.cf_filter_machine.specs.Ends.{AreEntriesOf, entry_of};
ghost use Rattle.cf_model.specs.Items.{Item};
ghost use Rattle.cf_model.specs.Settling.{entries_at};
ghost use Rattle.cf_table.specs.Tables.{MeansAll};
ghost use Rattle.cf_tree.specs.Trees.{RiseFrom};

use cf_base::{ItemId, ListedItem, Name, OutOfMemory, Sequence};
use cf_table::{Row, Rows};
use std::alloc::Global;

fn entry_of(alloc: Global, row: Option<&Row>) -> Result<ListedItem, OutOfMemory>
    ensures { IfOk result (λ e. MatchOption (option_copied row.entry) ⊥ (λ r. e ≡ entry_of r)) }
{
    let Some(row) = row else {
        return Err(OutOfMemory);
    };
    // All but the root have a name.
    let Ok(name) = Name::read(alloc, row.name.as_slice()) else {
        return Err(OutOfMemory);
    };
    Ok(ListedItem { name, dir: row.dir })
}

fn list_all(alloc: Global, rows: &Rows, ids: &[ItemId]) -> Result<Sequence<ListedItem>, OutOfMemory>
    ensures { IfOk result (AreEntriesOf rows.now.rows ids.now) }
{
    let mut list = Sequence::new(alloc);
    for id in ids {
        let entry = entry_of(alloc, rows.get(*id))?;
        list.push(entry)?;
    }
    Ok(list)
}

/// The entries of a directory, by name.
pub(crate) fn entries_of(
    alloc: Global,
    rows: &Rows,
    dir: ItemId,
) -> Result<Sequence<ListedItem>, OutOfMemory>
    ensures { IfOk result (λ list. (items : List Item) → MeansAll rows.now.rows items → RiseFrom 1 items → list ≡ entries_at items dir) }
{
    let ids = rows.children(dir)?;
    list_all(alloc, rows, &ids)
}
