//! What calls ask of an item.

ghost use Rattle.std.specs.Prelude.{◌≡◌, ◌&&◌, not};
ghost use Rattle.cf_filter_calls.specs.Executing.{base_at};
ghost use Rattle.cf_filter_calls.specs.Moved.{is_unlisted_at, lacks_place};
ghost use Rattle.cf_filter_calls.specs.Planned.{ReadsAt, has_entries, refusal_of, stands_for};
ghost use Rattle.cf_model.specs.Calls.{number_at, size_at};
ghost use Rattle.cf_model.specs.Dehydration.{in_use};
ghost use Rattle.cf_filter_steps.specs.Answering.{Any, Reads};

use cf_base::{CallError, ItemId, Shown, Usn};
use cf_filter_steps::{Steps, base_of};
use cf_table::{NO_USN, Row};

/// The number of an item, 0.0 of one that is not there.
pub(crate) fn number_at<S: Steps>(s: &S, id: ItemId) -> Usn
    ensures { Reads S.sense Any (number_at id) s.now result }
{
    match s.rows().get(id) {
        Some(row) => row.number,
        None => NO_USN,
    }
}

/// The size of an item, 0 of one that is not there.
pub(crate) fn size_at<S: Steps>(s: &S, id: ItemId) -> u64
    ensures { Reads S.sense Any (size_at id) s.now result }
{
    match s.rows().get(id) {
        Some(row) => row.size as u64,
        None => 0,
    }
}

/// Whether a handle is open on the item, or a wait on it is live.
#[tactic(auto, using(crate::proofs::Carried::used_open, crate::proofs::Carried::used_else))]
pub fn is_used<S: Steps>(s: &S, id: ItemId) -> bool
    ensures { Reads S.sense Any (in_use id) s.now result }
{
    if s.is_open(id) {
        return true;
    }
    s.requests().busy(id)
}

/// A refusal as what the call tells.
pub(crate) fn refused_by(fail: CallError) -> Result<Shown, CallError>
    ensures { result ≡ refusal_of fail }
{
    match fail {
        CallError::No(code) => Ok(Shown::Refused(code)),
        CallError::OutOfMemory => Err(CallError::OutOfMemory),
    }
}

/// Whether an item that is there is a directory.
pub(crate) fn is_directory<S: Steps>(s: &S, id: ItemId) -> bool
    ensures { ReadsAt S.sense id has_entries s.now result }
{
    match s.rows().get(id) {
        Some(row) => row.dir,
        None => false,
    }
}

/// The base length of an item, 0 of one that is not there.
pub(crate) fn base_at<S: Steps>(s: &S, id: ItemId) -> u64
    ensures { Reads S.sense Any (base_at id) s.now result }
{
    match s.rows().get(id) {
        Some(row) => base_of(row),
        None => 0,
    }
}

fn is_waiting(row: &Row) -> bool
    ensures { result ≡ (row.now.dir && not row.now.populated) }
{
    row.dir && !row.populated
}

/// Whether the item is a directory whose entries are not known.
pub(crate) fn is_unlisted<S: Steps>(s: &S, id: ItemId) -> bool
    ensures { Reads S.sense Any (is_unlisted_at id) s.now result }
{
    match s.rows().get(id) {
        Some(row) => is_waiting(row),
        None => false,
    }
}

/// Whether an item that is there is a placeholder.
pub(crate) fn is_placeholder<S: Steps>(s: &S, id: ItemId) -> bool
    ensures { ReadsAt S.sense id stands_for s.now result }
{
    match s.rows().get(id) {
        Some(row) => row.placeholder,
        None => false,
    }
}

/// Whether no number is left for a change.
pub(crate) fn lacks_place<S: Steps>(s: &S) -> bool
    ensures { Reads S.sense Any lacks_place s.now result }
{
    match s.next_number() {
        Some(_) => false,
        None => true,
    }
}
