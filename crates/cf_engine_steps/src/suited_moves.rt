//! Whether an item can move, tested where it is moved.

ghost use Rattle.std.specs.Prelude.{IfOk};
ghost use Rattle.cf_base.specs.declared.changes.Change.TheVariants as change;
ghost use Rattle.cf_engine_steps.specs.Suited.{IsSuited, MoveChecked, MoveIf};

use crate::item_tests::is_open_directory;
use crate::paths_seen::is_here;
use cf_base::{CallError, Code, ItemId, Name, OutOfMemory, is_name, no_such_state};
use cf_filter_steps::Steps;
use cf_table::ROOT;
use cf_tree::check_move;

// Whether the item is there and not the root, and the directory is open.
#[tactic(auto, using(crate::proofs::SuitedMoves::never_a_move))]
fn is_move<S: Steps>(s: &S, item: ItemId, parent: ItemId, name: &Name) -> bool
    ensures { MoveIf S.sense item parent name.now s.now result }
{
    if item.0 == ROOT.0 {
        return false;
    }
    if !is_here(s, item) {
        return false;
    }
    if !is_name(name.as_slice()) {
        return false;
    }
    is_open_directory(s, parent)
}

// Whether nothing hinders an item that is there (none), or it leads too deep.
fn check<S: Steps>(
    s: &S,
    item: ItemId,
    parent: ItemId,
    name: &Name,
) -> Result<Option<Code>, OutOfMemory>
    ensures { IfOk result (MoveChecked S.sense item parent name.now s.now) }
{
    match check_move(s.alloc(), s.rows(), item, parent, name) {
        Ok(_) => Ok(None),
        Err(CallError::No(Code::TooDeep)) => Ok(Some(Code::TooDeep)),
        Err(_) => Err(no_such_state()),
    }
}

/// Whether a move suits (none), or leads too deep. One that neither suits nor leads too deep is never to be made: then it is out of
/// memory.
pub(crate) fn move_suited<S: Steps>(
    s: &S,
    item: ItemId,
    parent: ItemId,
    name: &Name,
) -> Result<Option<Code>, OutOfMemory>
    ensures { IfOk result (IsSuited S.sense (change.Move item parent name.now) s.now) }
{
    if !is_move(s, item, parent, name) {
        return Err(no_such_state());
    }
    check(s, item, parent, name)
}
