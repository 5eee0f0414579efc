//! What an entry's turn is, on the rows as they are at it.

ghost use Rattle.std.specs.Prelude.{IfOk, OnOk, option_copied};
ghost use Rattle.cf_engine_feed.specs.Plans.{IsFound, IsUsedAt, PlansTurn, SeenAt};
ghost use Rattle.cf_engine_feed_plan.specs.Premises.{IsProper};
ghost use Rattle.cf_engine_feed_plan.specs.Turns.{IsTurn};
ghost use Rattle.cf_model.specs.State.{State};

use crate::indexes::Targets;
use crate::targets::{find_item, find_parent};
use cf_base::{Entry, ItemId, OutOfMemory, SeenPath, no_such_state};
use cf_engine_feed_plan::{Known, Turn, steps};
use cf_engine_host::EngineHost;
use cf_engine_steps::{in_use, seen};
use cf_filter_steps::Steps;

fn check_parent(entry: &Entry) -> Result<(), OutOfMemory>
    ensures { OnOk result (IsProper entry.now) }
{
    if entry.rid.0 == entry.parent.0 {
        return Err(no_such_state());
    }
    Ok(())
}

// Where the item was seen in the remote, of an item that may be there.
fn seen_of<S: EngineHost>(s: &S, item: Option<ItemId>) -> Result<Option<SeenPath>, OutOfMemory>
    ensures { IfOk result (SeenAt S.sense s.now item) }
{
    match item {
        Some(item) => seen(s, item),
        None => Ok(None),
    }
}

fn is_used_of<S: EngineHost>(s: &S, item: Option<ItemId>) -> bool
    ensures { IsUsedAt S.sense s.now item result }
{
    match item {
        Some(item) => in_use(s, item),
        None => false,
    }
}

// The turn, by what was found of the entry's item.
fn steps_of<S: EngineHost>(
    s: &S,
    entry: &Entry,
    item: Option<ItemId>,
    parent: Option<ItemId>,
    path: Option<&SeenPath>,
    last: bool,
) -> Result<Turn, OutOfMemory>
    ensures { IfOk result (λ turn. (s' : State) → S.sense.means s.now s'.filter → IsProper entry.now → IsFound item parent (option_copied path.entry) entry.now s' → IsTurn last entry.now s' turn) }
{
    let known = Known {
        item,
        parent,
        seen: path,
        in_use: is_used_of(s, item),
    };
    let turn = steps(s.alloc(), s.rows(), &s.policy(), &known, entry, last)?;
    Ok(turn)
}

/// The turn of an entry. `last` says that it is the second turn of a dead directory. An entry of its own parent, which no reply that fits
/// has, is out of memory.
pub(crate) fn plan<S: EngineHost>(
    s: &S,
    targets: &Targets,
    entry: &Entry,
    last: bool,
) -> Result<Turn, OutOfMemory>
    ensures { IfOk result (PlansTurn S.sense last entry.now s.now targets.now) }
{
    check_parent(entry)?;
    let rows = s.rows();
    let item = find_item(targets, rows, entry.rid)?;
    let parent = find_parent(targets, rows, entry.parent)?;
    let path = seen_of(s, item)?;
    let turn = steps_of(s, entry, item, parent, path.as_ref(), last);
    drop(path);
    turn
}
