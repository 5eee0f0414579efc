//! Answers of events.

ghost use Rattle.std.specs.Prelude.{◌≡◌, Ok, []};
ghost use Rattle.cf_filter_events.specs.Answered.{answer_with, answered_by};
ghost use Rattle.cf_filter_events.specs.Counted.{known_by, meets_device};
ghost use Rattle.cf_filter_events.specs.Faulted.{local_by, meets_remote};
ghost use Rattle.cf_base.specs.declared.answers.Shown.TheVariants as shown;

use cf_base::{Answer, CallError, Code, Notes, OutOfMemory, Sequence, Shown};
use std::alloc::Global;

/// The answer with these notes. Where memory runs out there is none.
pub fn answered(told: Result<Shown, CallError>, notes: Notes) -> Result<Answer, OutOfMemory>
    ensures { result ≡ answered_by told notes }
{
    match told {
        Ok(shown) => Ok(Answer {
            notes,
            shown,
            stray: None,
        }),
        Err(CallError::No(code)) => Ok(Answer {
            notes,
            shown: Shown::Refused(code),
            stray: None,
        }),
        Err(CallError::OutOfMemory) => Err(OutOfMemory),
    }
}

// Whether an answer tells of a device call that failed.
fn meets_device(shown: &Shown) -> bool
    ensures { result ≡ meets_device shown.now }
{
    matches!(shown, Shown::Refused(Code::Device))
}

/// The answer of a call, after which the filter is broken or not. A call that nothing stopped is not answered as Device: no
/// part of one is refused so. That is no law of the parts, so such an answer would be out of memory.
pub(crate) fn known(told: Result<Answer, OutOfMemory>, broken: bool) -> Result<Answer, OutOfMemory>
    ensures { result ≡ known_by broken told }
{
    let answer = told?;
    if !broken && meets_device(&answer.shown) {
        return Err(OutOfMemory);
    }
    Ok(answer)
}

// Whether an answer reports by its result that the remote failed.
fn meets_remote(shown: &Shown) -> bool
    ensures { result ≡ meets_remote shown.now }
{
    matches!(shown, Shown::Refused(Code::RemoteFault))
}

/// The answer of an event that acts on the open volume. Only an event of another device is refused as RemoteFault, and none of the
/// others has a part that is. That is no law of the parts, so such an answer would be out of memory.
pub(crate) fn local(told: Result<Answer, OutOfMemory>) -> Result<Answer, OutOfMemory>
    ensures { result ≡ local_by told }
{
    let answer = told?;
    if meets_remote(&answer.shown) {
        return Err(OutOfMemory);
    }
    Ok(answer)
}

/// The answer that shows this, without notes.
pub fn plainly(alloc: Global, shown: Shown) -> Answer
    ensures { result ≡ answer_with shown [] }
{
    Answer {
        notes: Sequence::new(alloc),
        shown,
        stray: None,
    }
}

/// The answer that an event is refused with this code, without notes.
pub fn refused(alloc: Global, code: Code) -> Answer
    ensures { result ≡ answer_with (shown.Refused code) [] }
{
    plainly(alloc, Shown::Refused(code))
}
