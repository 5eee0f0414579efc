//! Items that move off a name.

ghost use Rattle.std.specs.Prelude.{◌≡◌, IfOk, true};
ghost use Rattle.cf_base.specs.Names.{is_name};
ghost use Rattle.cf_engine_steps.specs.Answering.{Answers, Any, On};
ghost use Rattle.cf_engine_steps.specs.Occupants.{HasConflictName, IsConflict, IsOccupant};
ghost use Rattle.cf_engine_steps.specs.States.{whole};
ghost use Rattle.cf_filter_steps.specs.Answering.{IsAt};
ghost use Rattle.cf_model.specs.Items.{Item};
ghost use Rattle.cf_model.specs.Skips.{to_conflict, try_clear_name};

use crate::changes::try_change;
use crate::engines::Engine;
use cf_base::{CallError, Change, ItemId, Name, OutOfMemory, no_such_state};
use cf_engine_host::EngineHost;
use cf_filter_steps::Steps;
use cf_remote::Remote;
use cf_table::Row;
use cf_tree::conflict_name;
use std::alloc::Global;

// The name of a row that is not the root's.
fn name_of(alloc: Global, row: &Row) -> Result<Name, OutOfMemory>
    ensures { IfOk result (λ n. (n ≡ row.now.name) × (is_name n ≡ true)) }
{
    match Name::read(alloc, row.name.as_slice()) {
        Ok(name) => Ok(name),
        Err(_) => Err(no_such_state()),
    }
}

// The name under which an item would come into its directory once more.
fn conflict_name_of<S: Steps>(s: &S, row: &Row) -> Result<Name, OutOfMemory>
    ensures { IfOk result (HasConflictName S.sense row.now s.now) }
{
    let name = name_of(s.alloc(), row)?;
    conflict_name(s.alloc(), s.rows(), row.parent, &name)
}

// The move of an item to the conflict name in its directory.
fn conflict_of<S: Steps>(s: &S, item: ItemId) -> Result<Change, OutOfMemory>
    ensures { IfOk result (IsConflict S.sense item s.now) }
{
    let Some(row) = s.rows().get(item) else {
        return Err(no_such_state());
    };
    let parent = row.parent;
    let name = conflict_name_of(s, row)?;
    Ok(Change::Move { item, parent, name })
}

/// Moves an item to the conflict name in its directory, or leaves that out where it finds no room. Whether it was moved. An item that
/// is gone, or the root, is never to be moved: then it is out of memory, and all is as before. A stop of the device leaves what
/// that of a change leaves.
pub fn to_conflict<S: EngineHost, R: Remote>(
    s: &mut S,
    e: &mut Engine<R>,
    item: ItemId,
) -> Result<bool, CallError>
    ensures { (i : Item) → Answers (whole S.sense R.told) (On (IsAt item i)) (to_conflict i) (s.old, e.old) result (s.new, e.new) }
{
    let change = conflict_of(s, item)?;
    let done = try_change(s, e, &change);
    drop(change);
    done
}

// Whoever stands at the name, but for one item.
fn occupant<S: Steps>(s: &S, parent: ItemId, name: &Name, but: ItemId) -> Option<ItemId>
    ensures { IsOccupant S.sense parent name.now but s.now result }
{
    let Some(found) = s.rows().child(parent, name.as_slice()) else {
        return None;
    };
    if found.0 == but.0 {
        return None;
    }
    Some(found)
}

/// Moves whoever stands at the name in the directory, but for one item, to its conflict name, or leaves that out where it finds no
/// room. True where nobody else stands there, and where the one who does was moved.
pub fn try_clear_name<S: EngineHost, R: Remote>(
    s: &mut S,
    e: &mut Engine<R>,
    parent: ItemId,
    name: &Name,
    but: ItemId,
) -> Result<bool, CallError>
    ensures { Answers (whole S.sense R.told) Any (try_clear_name parent name.now but) (s.old, e.old) result (s.new, e.new) }
{
    match occupant(s, parent, name, but) {
        Some(item) => to_conflict(s, e, item),
        None => Ok(true),
    }
}
