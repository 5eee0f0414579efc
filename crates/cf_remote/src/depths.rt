//! How deep items are.

ghost use Rattle.std.specs.Prelude.{◌≡◌, ◌≤◌, ◌-◌, length};
ghost use Rattle.cf_model.specs.Growth.{CountsFrom};
ghost use Rattle.cf_model.specs.Store.{stored_at};
ghost use Rattle.cf_model.specs.Words.{says};
ghost use Rattle.cf_remote.specs.Depths.{deepest, depth_in, is_under_in};
ghost use Rattle.cf_remote.specs.Order.{StandInDirectories};

use crate::lookups::find;
use crate::stored::StoredItem;
use cf_base::Rid;

/// How many names the path of an item has. It goes up to the root.
pub(crate) fn depth_of(items: &[StoredItem], rid: Rid) -> usize
    requires { CountsFrom 1 items.now }
    ensures depth { result ≡ depth_in items.now rid }
    ensures small { result ≤ length items.now }
{
    let mut depth = 0;
    let mut at = rid;
    while depth < items.len() {
        let Some(item) = find(items, at) else {
            return depth;
        };
        if item.rid().0 == 1 {
            return depth;
        }
        depth += 1;
        at = item.parent();
    }
    depth
}

/// The item is the other or below it. It goes up to the root.
pub(crate) fn is_under(items: &[StoredItem], rid: Rid, top: Rid) -> bool
    requires { CountsFrom 1 items.now }
    ensures { result ≡ is_under_in items.now rid top }
{
    let mut steps = 0;
    let mut at = rid;
    while steps < items.len() {
        let Some(item) = find(items, at) else {
            return false;
        };
        if item.rid().0 == 1 {
            return false;
        }
        if item.rid().0 == top.0 {
            return true;
        }
        steps += 1;
        at = item.parent();
    }
    false
}

/// The depth of the deepest live item that is the item or below it.
fn deepest_of(items: &[StoredItem], top: Rid) -> usize
    requires { CountsFrom 1 items.now }
    ensures deepest { result ≡ deepest items.now top items.now }
    ensures small { result ≤ length items.now }
{
    let mut deepest = 0;
    for item in items {
        if item.is_live() && is_under(items, item.rid(), top) {
            deepest = deepest.max(depth_of(items, item.rid()));
        }
    }
    deepest
}

fn is_directory(items: &[StoredItem], rid: Rid) -> bool
    requires { CountsFrom 1 items.now }
    ensures { result ≡ says (λ s. s.directory) (stored_at items.now rid) }
{
    match find(items, rid) {
        None => false,
        Some(item) => item.is_directory(),
    }
}

/// How many names the longest path of a live item below has more. Of a directory it goes through all items. Nothing is below a file.
pub(crate) fn height_of(items: &[StoredItem], rid: Rid) -> usize
    requires counted { CountsFrom 1 items.now }
    requires directories { StandInDirectories items.now }
    ensures height { result ≡ deepest items.now rid items.now - depth_in items.now rid }
    ensures small { result ≤ length items.now }
{
    if !is_directory(items, rid) {
        return 0;
    }
    deepest_of(items, rid).saturating_sub(depth_of(items, rid))
}
