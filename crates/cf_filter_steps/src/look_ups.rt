//! Where a path leads.

ghost use Rattle.cf_model.specs.Calls.{below_at, place_at};
ghost use Rattle.cf_model.specs.Waits.{at_path};
ghost use Rattle.cf_filter_steps.specs.Finding.{Finds, FindsBelow, FindsPlace};

use crate::steps::Steps;
use cf_base::{CallError, Code, ItemId, Name};
use cf_tree::{find, find_below, find_parent};

/// The item at a path.
pub fn find_at<S: Steps>(s: &S, path: &str) -> Result<ItemId, Code>
    ensures { Finds S.sense (at_path path.now) s.now result }
{
    find(s.rows(), path)
}

/// The item at a path that is not the root's.
pub fn find_below_root<S: Steps>(s: &S, path: &str) -> Result<ItemId, Code>
    ensures { FindsBelow S.sense (below_at path.now) s.now result }
{
    find_below(s.rows(), path)
}

/// The directory and the name of a path at which something is made, or to which it moves.
pub fn find_place<S: Steps>(s: &S, path: &str) -> Result<(ItemId, Name), CallError>
    ensures { FindsPlace S.sense (place_at path.now) s.now result }
{
    find_parent(s.alloc(), s.rows(), path)
}
