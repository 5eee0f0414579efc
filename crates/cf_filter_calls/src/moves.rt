//! Moves.

ghost use Rattle.std.specs.Prelude.{◌≡◌, ◌==◌, ◌&&◌};
ghost use Rattle.cf_filter_calls.specs.Moved.{IsBelowAt, IsMoveAt, MayMoveAt, stands_in};
ghost use Rattle.cf_filter_calls.specs.Planned.{ReadsAt};
ghost use Rattle.cf_model.specs.Calls.{changing, move_of, rename, rename_item, rename_to};
ghost use Rattle.cf_model.specs.Items.{Item};
ghost use Rattle.cf_model.specs.LookUp.{Place};
ghost use Rattle.cf_model.specs.Operations.{done};
ghost use Rattle.cf_model.specs.Words.{same};
ghost use Rattle.cf_filter_steps.specs.Answering.{Answers, Any};

use crate::items::refused_by;
use crate::pins::make_all;
use cf_base::{CallError, Change, ItemId, Name, Shown};
use cf_filter_steps::{Steps, find_below_root, find_place};
use cf_table::Row;
use cf_tree::check_move;
use std::slice;

// Whether an item that is there stands at the place already.
fn stands_there<S: Steps>(s: &S, id: ItemId, parent: ItemId, name: &Name) -> bool
    ensures { ReadsAt S.sense id (stands_in parent name.now) s.now result }
{
    match s.rows().get(id) {
        Some(row) => stands_in(row, parent, name),
        None => false,
    }
}

fn stands_in(row: &Row, parent: ItemId, name: &Name) -> bool
    ensures { result ≡ ((row.now.parent.0 == parent.0) && same row.now.name name.now) }
{
    row.parent.0 == parent.0 && has_name(row, name)
}

fn has_name(row: &Row, name: &Name) -> bool
    ensures { result ≡ same row.now.name name.now }
{
    row.name.as_slice() == name.as_slice()
}

fn move_now<S: Steps>(
    s: &mut S,
    id: ItemId,
    parent: ItemId,
    name: &Name,
) -> Result<Shown, CallError>
    ensures { (i : Item) (p : Place) → Answers S.sense (MayMoveAt id parent name.now i p) (changing (move_of i p) done) s.old result s.new }
{
    if stands_there(s, id, parent, name) {
        return make_all(s, &[]);
    }
    let change = Change::Move {
        item: id,
        parent,
        name: name.copy()?,
    };
    let made = make_all(s, slice::from_ref(&change));
    drop(change);
    made
}

fn rename_to<S: Steps>(
    s: &mut S,
    id: ItemId,
    parent: ItemId,
    name: &Name,
) -> Result<Shown, CallError>
    ensures { (i : Item) (p : Place) → Answers S.sense (IsMoveAt id parent name.now i p) (rename_to i p) s.old result s.new }
{
    match check_move(s.alloc(), s.rows(), id, parent, name) {
        Ok(_) => move_now(s, id, parent, name),
        Err(fail) => refused_by(fail),
    }
}

fn rename_item<S: Steps>(s: &mut S, id: ItemId, to: &str) -> Result<Shown, CallError>
    ensures { (i : Item) → Answers S.sense (IsBelowAt id i) (rename_item to.now i) s.old result s.new }
{
    match find_place(s, to) {
        Ok(place) => rename_to(s, id, place.0, &place.1),
        Err(fail) => refused_by(fail),
    }
}

/// Moves an item to a path, whose directory gives its pin where it is another. A move to where it stands changes nothing.
/// Refused as the look-ups of both, the first not the root's, as IntoItself, TooDeep, Exists, Exhausted, TableFull.
pub fn rename<S: Steps>(s: &mut S, from: &str, to: &str) -> Result<Shown, CallError>
    ensures { Answers S.sense Any (rename from.now to.now) s.old result s.new }
{
    match find_below_root(s, from) {
        Ok(id) => rename_item(s, id, to),
        Err(code) => Ok(Shown::Refused(code)),
    }
}
