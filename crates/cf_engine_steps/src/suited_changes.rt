//! Whether a change can be made, tested where it is made.

ghost use Rattle.std.specs.Prelude.{◌≡◌, IfOk, true};
ghost use Rattle.cf_base.specs.declared.changes.Change.TheVariants as change;
ghost use Rattle.cf_engine_steps.specs.Suited.{DeepIf, IsSuited, SuitsIf};
ghost use Rattle.cf_model.specs.Soundness.{MadeNeeds};

use crate::item_tests::{
    is_copied, is_high, is_next, is_place, is_placeholder, is_placeholder_file, is_short,
    takes_writes_in,
};
use crate::suited_moves::move_suited;
use cf_base::limits::MOST_FILE_BYTES;
use cf_base::{Change, Code, Identity, ItemId, Kind, Name, OutOfMemory, Usn, no_such_state};
use cf_engine_host::EngineHost;
use cf_filter_steps::Steps;

fn mark_suits<S: Steps>(s: &S, item: ItemId, number: Usn) -> bool
    ensures { SuitsIf S.sense (change.Mark item number) s.now result }
{
    is_placeholder(s, item)
}

#[tactic(auto, using(crate::proofs::Suited::never_suits))]
fn take_suits<S: Steps>(s: &S, item: ItemId, identity: &Identity, size: u64) -> bool
    ensures { SuitsIf S.sense (change.Take item identity.now size) s.now result }
{
    if !is_short(identity) {
        return false;
    }
    if size > MOST_FILE_BYTES {
        return false;
    }
    is_placeholder_file(s, item)
}

// Whether an item of this kind may have the identity.
fn kind_suits(kind: Kind, identity: &Identity) -> bool
    ensures { result ≡ true → MadeNeeds kind identity.now }
{
    match kind {
        Kind::File | Kind::Dir => identity.as_slice().is_empty(),
        Kind::PlaceholderFile | Kind::PlaceholderDir | Kind::UnpopulatedDir => true,
    }
}

#[tactic(auto, using(crate::proofs::Suited::never_suits))]
fn make_suits<S: Steps>(
    s: &S,
    item: ItemId,
    parent: ItemId,
    name: &Name,
    kind: Kind,
    size: u64,
    identity: &Identity,
) -> bool
    ensures { SuitsIf S.sense (change.Make item parent name.now kind size identity.now) s.now result }
{
    if !is_next(s, item) {
        return false;
    }
    if !is_short(identity) {
        return false;
    }
    if size > MOST_FILE_BYTES {
        return false;
    }
    if !kind_suits(kind, identity) {
        return false;
    }
    is_place(s, parent, name)
}

#[tactic(auto, using(crate::proofs::Suited::never_suits))]
fn copy_suits<S: Steps>(s: &S, item: ItemId, from: ItemId, parent: ItemId, name: &Name) -> bool
    ensures { SuitsIf S.sense (change.Copy item from parent name.now) s.now result }
{
    if !is_next(s, item) {
        return false;
    }
    if !is_copied(s, from) {
        return false;
    }
    is_place(s, parent, name)
}

fn convert_suits<S: Steps>(s: &S, item: ItemId, identity: &Identity) -> bool
    ensures { SuitsIf S.sense (change.Convert item identity.now) s.now result }
{
    is_short(identity)
}

#[tactic(auto, using(crate::proofs::Suited::never_suits))]
fn rebase_suits<S: EngineHost>(s: &S, item: ItemId, identity: &Identity, len: u64, at: Usn) -> bool
    ensures { SuitsIf S.sense (change.Rebase item identity.now len at) s.now result }
{
    if !is_short(identity) {
        return false;
    }
    if len > MOST_FILE_BYTES {
        return false;
    }
    takes_writes_in(s, item, len, at)
}

// Whether a change of an item that stays where it is suits. Of the kinds that no step of the engine makes here it is not tested, and
// false.
#[tactic(auto, using(crate::proofs::Suited::never_suits, crate::proofs::Suited::clear_by))]
fn stays_suited<S: EngineHost>(s: &S, change: &Change) -> bool
    ensures { SuitsIf S.sense change.now s.now result }
{
    match change {
        Change::Mark { item, number } => mark_suits(s, *item, *number),
        Change::Clear { .. } => true,
        Change::Convert { item, identity } => convert_suits(s, *item, identity),
        Change::Rebase {
            item,
            identity,
            len,
            at,
        } => rebase_suits(s, *item, identity, *len, *at),
        Change::Take {
            item,
            identity,
            size,
        } => take_suits(s, *item, identity, *size),
        _ => false,
    }
}

// Whether the change suits. Of the kinds that no step of the engine makes here it is not tested, and false.
fn suits<S: EngineHost>(s: &S, change: &Change) -> bool
    ensures { SuitsIf S.sense change.now s.now result }
{
    match change {
        Change::Make {
            item,
            parent,
            name,
            kind,
            size,
            identity,
        } => make_suits(s, *item, *parent, name, *kind, *size, identity),
        Change::Copy {
            item,
            from,
            parent,
            name,
        } => copy_suits(s, *item, *from, *parent, name),
        _ => stays_suited(s, change),
    }
}

// Whether more than 32 names would lead to the item that the change makes.
#[tactic(auto, using(crate::proofs::Suited::never_deep))]
fn is_deep<S: Steps>(s: &S, change: &Change) -> bool
    ensures { DeepIf S.sense change.now s.now result }
{
    match change {
        Change::Make { parent, .. } => !is_high(s, *parent),
        Change::Copy { parent, .. } => !is_high(s, *parent),
        _ => false,
    }
}

fn put_suited<S: EngineHost>(s: &S, change: &Change) -> Result<Option<Code>, OutOfMemory>
    ensures { IfOk result (IsSuited S.sense change.now s.now) }
{
    if is_deep(s, change) {
        return Ok(Some(Code::TooDeep));
    }
    if suits(s, change) {
        return Ok(None);
    }
    Err(no_such_state())
}

/// Why a change that is no removal is refused for its depth: TooDeep, or none, and then it suits the volume. One that neither suits nor
/// leads too deep is never to be made, and neither is one of a kind that no engine makes: then it is out of memory. It changes nothing.
pub fn refuse_depth<S: EngineHost>(s: &S, change: &Change) -> Result<Option<Code>, OutOfMemory>
    ensures { IfOk result (IsSuited S.sense change.now s.now) }
{
    match change {
        Change::Move { item, parent, name } => move_suited(s, *item, *parent, name),
        _ => put_suited(s, change),
    }
}
