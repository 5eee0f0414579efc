//! Placeholders: an item becomes one, ceases to be one, gets another identity or version, is not in sync.

ghost use Rattle.cf_model.specs.Arrows.{reading};
ghost use Rattle.cf_model.specs.Items.{Item};
ghost use Rattle.cf_model.specs.Placements.{convert, convert_item, planned_on, revert, revert_item, revert_plan, unmark, unmark_item, update, update_item, update_plan};
ghost use Rattle.cf_model.specs.Waits.{on_ok};
ghost use Rattle.cf_filter_calls.specs.Planned.{Plan, PlansSuit, by_convert, by_unmark};
ghost use Rattle.cf_filter_steps.specs.Answering.{Answers, Any, IsAt};
ghost use Rattle.cf_filter_steps.specs.Finding.{Plans};
ghost use Rattle.cf_filter_steps.specs.Suiting.{Suiting};

use crate::items::{is_used, number_at, refused_by};
use cf_base::{CallError, Change, Code, Identity, ItemId, Sequence, Shown};
use cf_filter_steps::{Steps, change_all, find_at, find_below_root};
use cf_item_rules::{plan_convert, plan_revert, plan_unmark, plan_update};

// Makes the changes, and gives the item's number.
fn make_on<S: Steps>(s: &mut S, id: ItemId, changes: &[Change]) -> Result<Shown, CallError>
    ensures { Answers S.sense (Suiting changes.now) (planned_on id changes.now) s.old result s.new }
{
    match change_all(s, changes)? {
        Some(code) => Ok(Shown::Refused(code)),
        None => Ok(Shown::Number(number_at(s, id))),
    }
}

// Makes the changes of a plan on the item, and gives its number.
fn make_planned<S: Steps>(
    s: &mut S,
    id: ItemId,
    plan: Result<Sequence<Change>, CallError>,
) -> Result<Shown, CallError>
    ensures { (f : Plan) → Plans S.sense id f s.old plan → PlansSuit id f → (i : Item) → Answers S.sense (IsAt id i) (reading (f i) (on_ok (planned_on i.id))) s.old result s.new }
{
    match plan {
        Ok(changes) => make_on(s, id, changes.as_slice()),
        Err(fail) => refused_by(fail),
    }
}

fn convert_plan<S: Steps>(
    s: &S,
    id: ItemId,
    identity: &Identity,
) -> Result<Sequence<Change>, CallError>
    ensures { Plans S.sense id (by_convert identity.now) s.now result }
{
    // What was found has a row.
    match s.rows().get(id) {
        Some(row) => plan_convert(s.alloc(), row, identity),
        None => Err(CallError::No(Code::NotFound)),
    }
}

fn convert_item<S: Steps>(s: &mut S, id: ItemId, identity: &Identity) -> Result<Shown, CallError>
    ensures { (i : Item) → Answers S.sense (IsAt id i) (convert_item identity.now i) s.old result s.new }
{
    let plan = convert_plan(s, id, identity);
    make_planned(s, id, plan)
}

/// An item becomes a placeholder (CfConvertToPlaceholder). Gives its number. Refused as the look-up of a path that is not
/// the root's, AlreadyPlaceholder, IdentityTooLong, Exhausted, TableFull.
pub fn convert<S: Steps>(s: &mut S, path: &str, identity: &Identity) -> Result<Shown, CallError>
    ensures { Answers S.sense Any (convert path.now identity.now) s.old result s.new }
{
    match find_below_root(s, path) {
        Ok(id) => convert_item(s, id, identity),
        Err(code) => Ok(Shown::Refused(code)),
    }
}

fn revert_plan<S: Steps>(s: &S, id: ItemId) -> Result<Sequence<Change>, CallError>
    ensures { Plans S.sense id revert_plan s.now result }
{
    match s.rows().get(id) {
        Some(row) => plan_revert(s.alloc(), row, is_used(s, id)),
        None => Err(CallError::No(Code::NotFound)),
    }
}

fn revert_item<S: Steps>(s: &mut S, id: ItemId) -> Result<Shown, CallError>
    ensures { (i : Item) → Answers S.sense (IsAt id i) (revert_item i) s.old result s.new }
{
    let plan = revert_plan(s, id);
    make_planned(s, id, plan)
}

/// A placeholder becomes a plain file or directory (CfRevertPlaceholder). Gives its number. Refused as the look-up,
/// NotPlaceholder, NotPopulated, NotHydrated, InUse, Exhausted, TableFull.
pub fn revert<S: Steps>(s: &mut S, path: &str) -> Result<Shown, CallError>
    ensures { Answers S.sense Any (revert path.now) s.old result s.new }
{
    match find_at(s, path) {
        Ok(id) => revert_item(s, id),
        Err(code) => Ok(Shown::Refused(code)),
    }
}

fn update_plan<S: Steps>(
    s: &S,
    id: ItemId,
    identity: &Identity,
    size: Option<u64>,
) -> Result<Sequence<Change>, CallError>
    ensures { Plans S.sense id (update_plan identity.now size) s.now result }
{
    let policy = s.policy();
    match s.rows().get(id) {
        Some(row) => plan_update(s.alloc(), &policy, row, identity, size, is_used(s, id)),
        None => Err(CallError::No(Code::NotFound)),
    }
}

fn update_item<S: Steps>(
    s: &mut S,
    id: ItemId,
    identity: &Identity,
    size: Option<u64>,
) -> Result<Shown, CallError>
    ensures { (i : Item) → Answers S.sense (IsAt id i) (update_item identity.now size i) s.old result s.new }
{
    let plan = update_plan(s, id, identity, size);
    make_planned(s, id, plan)
}

/// A placeholder gets another identity, and with a size another version of so many bytes in place of its own
/// (CfUpdatePlaceholder). Gives its number. Refused as the look-up, with a size as IsDirectory, as NotPlaceholder,
/// IdentityTooLong, with a size as PolicyDenied, NotInSync, InUse, TooLarge, then as Exhausted, TableFull.
pub fn update<S: Steps>(
    s: &mut S,
    path: &str,
    identity: &Identity,
    size: Option<u64>,
) -> Result<Shown, CallError>
    ensures { Answers S.sense Any (update path.now identity.now size) s.old result s.new }
{
    match find_at(s, path) {
        Ok(id) => update_item(s, id, identity, size),
        Err(code) => Ok(Shown::Refused(code)),
    }
}

fn unmark_plan<S: Steps>(s: &S, id: ItemId) -> Result<Sequence<Change>, CallError>
    ensures { Plans S.sense id by_unmark s.now result }
{
    match s.rows().get(id) {
        Some(row) => plan_unmark(s.alloc(), row),
        None => Err(CallError::No(Code::NotFound)),
    }
}

fn unmark_item<S: Steps>(s: &mut S, id: ItemId) -> Result<Shown, CallError>
    ensures { (i : Item) → Answers S.sense (IsAt id i) (unmark_item i) s.old result s.new }
{
    let plan = unmark_plan(s, id);
    make_planned(s, id, plan)
}

/// A placeholder is not in sync (CfSetInSyncState). Gives its number. Refused as the look-up, NotPlaceholder, Exhausted.
pub fn unmark<S: Steps>(s: &mut S, path: &str) -> Result<Shown, CallError>
    ensures { Answers S.sense Any (unmark path.now) s.old result s.new }
{
    match find_at(s, path) {
        Ok(id) => unmark_item(s, id),
        Err(code) => Ok(Shown::Refused(code)),
    }
}
