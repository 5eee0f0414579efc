//! New items.

ghost use Rattle.std.specs.Prelude.{◌≡◌};
ghost use Rattle.cf_filter_calls.specs.Planned.{IsLastPlaceAt, IsNumberedPlaceAt, IsPlaceAt, unnumbered};
ghost use Rattle.cf_model.specs.LookUp.{Place};
ghost use Rattle.cf_model.specs.Placements.{create, create_at, show_item};
ghost use Rattle.cf_item_rules.specs.PlaceholderPlans.{meant};
ghost use Rattle.cf_filter_steps.specs.Answering.{Answers, Any};
ghost use Rattle.cf_filter_steps.specs.Suiting.{Suiting};

use crate::items::refused_by;
use cf_base::{CallError, Change, Code, ItemId, Name, Sequence, Shown, Usn};
use cf_filter_steps::{Steps, change_all, find_place};
use cf_item_rules::{Creation, plan_create};
use cf_table::NO_USN;

// Makes the changes, and tells the id of the new item.
fn make_item<S: Steps>(s: &mut S, item: ItemId, changes: &[Change]) -> Result<Shown, CallError>
    ensures { Answers S.sense (Suiting changes.now) (show_item changes.now item) s.old result s.new }
{
    match change_all(s, changes)? {
        Some(code) => Ok(Shown::Refused(code)),
        None => Ok(Shown::Item(item)),
    }
}

// A new item under the next number.
fn create_with<S: Steps>(
    s: &mut S,
    next: Usn,
    parent: ItemId,
    name: &Name,
    what: &Creation,
) -> Result<Shown, CallError>
    ensures { (p : Place) → Answers S.sense (IsNumberedPlaceAt next parent name.now p) (create_at (meant what.now) p) s.old result s.new }
{
    let item = s.rows().next();
    let policy = s.policy();
    match plan_create(s.alloc(), s.rows(), &policy, next, parent, name, what) {
        Ok(changes) => make_item(s, item, changes.as_slice()),
        Err(fail) => refused_by(fail),
    }
}

// Where no number is left: whatever else refuses it comes first.
fn create_none<S: Steps>(
    s: &mut S,
    parent: ItemId,
    name: &Name,
    what: &Creation,
) -> Result<Shown, CallError>
    ensures { (p : Place) → Answers S.sense (IsLastPlaceAt parent name.now p) (create_at (meant what.now) p) s.old result s.new }
{
    let policy = s.policy();
    let plan = plan_create(s.alloc(), s.rows(), &policy, NO_USN, parent, name, what);
    unnumbered(plan)
}

fn unnumbered(plan: Result<Sequence<Change>, CallError>) -> Result<Shown, CallError>
    ensures { result ≡ unnumbered plan }
{
    match plan {
        Ok(_) => Ok(Shown::Refused(Code::Exhausted)),
        Err(fail) => refused_by(fail),
    }
}

fn create_at<S: Steps>(
    s: &mut S,
    parent: ItemId,
    name: &Name,
    what: &Creation,
) -> Result<Shown, CallError>
    ensures { (p : Place) → Answers S.sense (IsPlaceAt parent name.now p) (create_at (meant what.now) p) s.old result s.new }
{
    match s.next_number() {
        Some(next) => create_with(s, next, parent, name, what),
        None => create_none(s, parent, name, what),
    }
}

/// A new item at a path (CfCreatePlaceholders, and an application's own files and directories). Gives its id. Refused as
/// the look-up of a path at which something is made, as Exists, of a placeholder as IdentityTooLong, of a placeholder
/// file as TooLarge beyond 16,777,216 bytes and as PolicyDenied where the policy keeps files full and it has bytes, then
/// as Exhausted, TableFull.
pub fn create<S: Steps>(s: &mut S, path: &str, what: &Creation) -> Result<Shown, CallError>
    ensures { Answers S.sense Any (create path.now (meant what.now)) s.old result s.new }
{
    match find_place(s, path) {
        Ok(place) => create_at(s, place.0, &place.1, what),
        Err(fail) => refused_by(fail),
    }
}
