//! Entries of a directory, which a provider gives to a list ask.

ghost use Rattle.std.specs.Prelude.{◌≡◌, IfOk, [], ◌∷◌, not};
ghost use Rattle.cf_base.specs.declared.answers.AuxRecord.{AuxRecord};
ghost use Rattle.cf_base.specs.declared.codes.Code.TheVariants as code;
ghost use Rattle.cf_base.specs.declared.ids.Key.{Key};
ghost use Rattle.cf_base.specs.declared.operations.Operation.TheVariants as operation;
ghost use Rattle.cf_filter_calls.specs.Entering.{IsListable, IsOpenList, HasPlace, entered, entered_by, is_too_deep, list_code, list_refusal, listed_by, put_listed};
ghost use Rattle.cf_filter_calls.specs.Operating.{IsLiveFor};
ghost use Rattle.cf_model.specs.Books.{Book};
ghost use Rattle.cf_model.specs.Calls.{number_next};
ghost use Rattle.cf_model.specs.Operations.{entries};
ghost use Rattle.cf_model.specs.Requests.{Live};
ghost use Rattle.cf_model.specs.Words.{first_of, is_empty};
ghost use Rattle.cf_filter_steps.specs.Answering.{Answers, Any, Reads};
ghost use Rattle.cf_filter_steps.specs.Listing.{Listing, ReadyListed};

use crate::consents::{finish, finish_now};
use crate::items::is_unlisted;
use crate::listings::{are_names, list_changes, refuse_entries};
use cf_base::{
    Ask, AuxRecord, CallError, Cause, Change, Code, ItemId, NewItem, OutOfMemory, Shown, Usn,
};
use cf_filter_steps::{Room, Steps};
use cf_table::NO_USN;
use cf_tree::line_of;

/// The most names that lead to an item.
const MOST_NAMES: usize = 32;

fn is_any(list: &[NewItem]) -> bool
    ensures { result ≡ not (is_empty list.now) }
{
    match list {
        [] => false,
        _ => true,
    }
}

// Whether an entry would be too deep.
fn is_too_deep<S: Steps>(s: &S, dir: ItemId, list: &[NewItem]) -> bool
    ensures { Reads S.sense Any (is_too_deep dir list.now) s.now result }
{
    if is_any(list) {
        line_of(s.rows(), dir, dir, MOST_NAMES).depth >= MOST_NAMES
    } else {
        false
    }
}

fn list_code(named: bool, why: Option<Code>, deep: bool) -> Option<Code>
    ensures { result ≡ list_code named why deep }
{
    if !named {
        return Some(Code::BadPath);
    }
    if let Some(code) = why {
        return Some(code);
    }
    if deep {
        return Some(Code::TooDeep);
    }
    None
}

// Why a list is refused, besides for want of room: BadPath, Exists, IdentityTooLong, TooLarge, PolicyDenied, TooDeep.
fn refuse_list<S: Steps>(s: &S, dir: ItemId, list: &[NewItem]) -> Result<Option<Code>, OutOfMemory>
    ensures { IfOk result (λ why. Reads S.sense Any (list_refusal dir list.now) s.now why) }
{
    let named = are_names(s.alloc(), list)?;
    let policy = s.policy();
    let why = refuse_entries(s.alloc(), &policy, list)?;
    let deep = is_too_deep(s, dir, list);
    Ok(list_code(named, why, deep))
}

fn room_code(room: Room) -> Option<Code>
    ensures { result ≡ first_of ((room.no_table, code.TableFull) ∷ (room.no_numbers, code.Exhausted) ∷ []) }
{
    if room.no_table {
        return Some(Code::TableFull);
    }
    if room.no_numbers {
        return Some(Code::Exhausted);
    }
    None
}

// Makes the changes, and the ask is answered.
fn enter_now<S: Steps>(
    s: &mut S,
    ask: &Ask,
    changes: &[Change],
    records: &[AuxRecord],
) -> Result<Shown, CallError>
    ensures { (f : Book → Book) → Answers S.sense (ReadyListed f ask.now.item changes.now records.now) (entered_by f ask.now changes.now) s.old result s.new }
{
    s.enter(ask.item, changes, records)?;
    finish_now(s, ask, Cause::Met)
}

// The same, or why not: TableFull, Exhausted.
fn put_listed<S: Steps>(
    s: &mut S,
    ask: &Ask,
    changes: &[Change],
    records: &[AuxRecord],
) -> Result<Shown, CallError>
    ensures { (f : Book → Book) → Answers S.sense (Listing f ask.now.item changes.now records.now) (put_listed f ask.now changes.now) s.old result s.new }
{
    let room = s.room_listed(ask.item, changes, records)?;
    match room_code(room) {
        Some(code) => Ok(Shown::Refused(code)),
        None => enter_now(s, ask, changes, records),
    }
}

// Without a number left the changes are refused whatever numbers they have.
fn first_number<S: Steps>(s: &S) -> Usn
    ensures { Reads S.sense HasPlace number_next s.now result }
{
    match s.next_number() {
        Some(number) => number,
        None => NO_USN,
    }
}

fn enter_list<S: Steps>(
    s: &mut S,
    ask: &Ask,
    list: &[NewItem],
    records: &[AuxRecord],
) -> Result<Shown, CallError>
    ensures { (f : Book → Book) → Answers S.sense (IsOpenList f ask.now.item list.now records.now) (entered f ask.now list.now) s.old result s.new }
{
    let policy = s.policy();
    let first = s.rows().next();
    // There are never so many items.
    if first.0 > u64::MAX - list.len() as u64 {
        return Err(CallError::OutOfMemory);
    }
    let number = first_number(s);
    let changes = list_changes(s.alloc(), &policy, ask.item, first, number, list)?;
    put_listed(s, ask, changes.as_slice(), records)
}

// The ask of a list is one of a directory whose entries are not known.
fn answer_list<S: Steps>(
    s: &mut S,
    ask: &Ask,
    list: &[NewItem],
    good: bool,
    records: &[AuxRecord],
) -> Result<Shown, CallError>
    ensures { (f : Book → Book) → Answers S.sense (IsListable f ask.now.item list.now records.now) (listed_by f ask.now list.now good) s.old result s.new }
{
    if !good {
        return finish(s, ask, Cause::Failed(1));
    }
    if !is_unlisted(s, ask.item) {
        return Err(CallError::OutOfMemory);
    }
    enter_list(s, ask, list, records)
}

/// The entries of a list ask come as one, with records beside the last change, or none where the list is not good. Refused as
/// BadPath, Exists where a name comes twice, IdentityTooLong, TooLarge, PolicyDenied, TooDeep, TableFull, Exhausted.
pub(crate) fn entries<S: Steps>(
    s: &mut S,
    ask: &Ask,
    list: &[NewItem],
    good: bool,
    records: &[AuxRecord],
) -> Result<Shown, CallError>
    ensures { (key : Key) (f : Book → Book) (a : Live) → Answers S.sense (IsLiveFor f (operation.Entries key list.now good) ask.now records.now a) (entries f a list.now good) s.old result s.new }
{
    match refuse_list(s, ask.item, list)? {
        Some(code) => Ok(Shown::Refused(code)),
        None => answer_list(s, ask, list, good, records),
    }
}
