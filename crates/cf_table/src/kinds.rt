//! Kinds of changes and of items.

ghost use Rattle.std.specs.Prelude.{◌≡◌};
ghost use Rattle.cf_model.specs.Given.{named_by};
ghost use Rattle.cf_table.specs.Changing.{item_of_change, stays};
ghost use Rattle.cf_table.specs.Kinds.{kind_in};

use crate::rows::Row;
use cf_base::{Change, ItemId, Kind};

/// The item that the change is of.
pub fn item_of(change: &Change) -> ItemId
    ensures of { result ≡ item_of_change change.now }
    ensures named { result ≡ named_by change.now }
{
    match change {
        Change::Make { item, .. } => *item,
        Change::Remove { item, .. } => *item,
        Change::Move { item, .. } => *item,
        Change::Write { item, .. } => *item,
        Change::Size { item, .. } => *item,
        Change::Filled { item, .. } => *item,
        Change::Validated { item, .. } => *item,
        Change::Emptied { item, .. } => *item,
        Change::SetPin { item, .. } => *item,
        Change::Mark { item, .. } => *item,
        Change::Clear { item, .. } => *item,
        Change::Convert { item, .. } => *item,
        Change::Revert { item, .. } => *item,
        Change::Rebase { item, .. } => *item,
        Change::Take { item, .. } => *item,
        Change::Copy { item, .. } => *item,
        Change::Populated { item, .. } => *item,
        Change::Keep { item, .. } => *item,
    }
}

/// Whether the item was there before the change, and stays.
pub fn stays(change: &Change) -> bool
    ensures { result ≡ stays change.now }
{
    !matches!(
        change,
        Change::Make { .. } | Change::Remove { .. } | Change::Copy { .. }
    )
}

/// The kind of the row's item.
pub fn kind_of(row: &Row) -> Kind
    ensures { result ≡ kind_in row.now }
{
    if row.dir && !row.populated {
        return Kind::UnpopulatedDir;
    }
    match (row.dir, row.placeholder) {
        (true, true) => Kind::PlaceholderDir,
        (true, false) => Kind::Dir,
        (false, true) => Kind::PlaceholderFile,
        (false, false) => Kind::File,
    }
}
