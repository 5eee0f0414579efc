//! What a part of a call shows, as the value that its caller is given.

ghost use Rattle.std.specs.Prelude.{◌≡◌};
ghost use Rattle.cf_base.specs.declared.answers.Shown.TheVariants as shown;
ghost use Rattle.cf_provider.specs.Acting.{shown_of};
ghost use Rattle.cf_filter.specs.Calling.{Takes, answer_of, shows_done};
ghost use Rattle.cf_filter.specs.Showing.{shows_blocks, shows_info, shows_waited};

use crate::answers::{Info, Waited};
use cf_base::{CallError, Code, Handle, ItemId, Sequence, Shown, Span, Usn};
use cf_provider::Outcome;

/// What a part of a call gave, or why it was refused; or that the device or memory stopped it. A part that shows what its
/// call can not give counts as stopped where memory runs out.
pub type Told<A> = Result<Result<A, Code>, CallError>;

/// What the caller is answered.
pub(crate) fn answer<A>(told: Told<A>) -> Result<A, CallError>
    ensures { result ≡ answer_of told }
{
    match told? {
        Ok(value) => Ok(value),
        Err(code) => Err(CallError::No(code)),
    }
}

#[tactic(auto, unfolding(crate::specs::Calling::shows_done))]
pub(crate) fn done(told: Result<Shown, CallError>) -> Told<()>
    ensures { Takes shows_done told result }
{
    let shown = told?;
    match shown {
        Shown::Done => Ok(Ok(())),
        Shown::Refused(code) => Ok(Err(code)),
        other => {
            drop(other);
            Err(CallError::OutOfMemory)
        }
    }
}

pub(crate) fn handle(told: Result<Shown, CallError>) -> Told<Handle>
    ensures { Takes shown.Opened told result }
{
    let shown = told?;
    match shown {
        Shown::Opened(handle) => Ok(Ok(handle)),
        Shown::Refused(code) => Ok(Err(code)),
        other => {
            drop(other);
            Err(CallError::OutOfMemory)
        }
    }
}

pub(crate) fn count(told: Result<Shown, CallError>) -> Told<u64>
    ensures { Takes shown.Count told result }
{
    let shown = told?;
    match shown {
        Shown::Count(count) => Ok(Ok(count)),
        Shown::Refused(code) => Ok(Err(code)),
        other => {
            drop(other);
            Err(CallError::OutOfMemory)
        }
    }
}

pub(crate) fn item(told: Result<Shown, CallError>) -> Told<ItemId>
    ensures { Takes shown.Item told result }
{
    let shown = told?;
    match shown {
        Shown::Item(item) => Ok(Ok(item)),
        Shown::Refused(code) => Ok(Err(code)),
        other => {
            drop(other);
            Err(CallError::OutOfMemory)
        }
    }
}

pub(crate) fn number(told: Result<Shown, CallError>) -> Told<Usn>
    ensures { Takes shown.Number told result }
{
    let shown = told?;
    match shown {
        Shown::Number(number) => Ok(Ok(number)),
        Shown::Refused(code) => Ok(Err(code)),
        other => {
            drop(other);
            Err(CallError::OutOfMemory)
        }
    }
}

pub(crate) fn clock(told: Result<Shown, CallError>) -> Told<u64>
    ensures { Takes shown.Used told result }
{
    let shown = told?;
    match shown {
        Shown::Used(clock) => Ok(Ok(clock)),
        Shown::Refused(code) => Ok(Err(code)),
        other => {
            drop(other);
            Err(CallError::OutOfMemory)
        }
    }
}

pub(crate) fn runs(told: Result<Shown, CallError>) -> Told<Sequence<Span>>
    ensures { Takes shown.Ranges told result }
{
    let shown = told?;
    match shown {
        Shown::Ranges(runs) => Ok(Ok(runs)),
        Shown::Refused(code) => Ok(Err(code)),
        other => {
            drop(other);
            Err(CallError::OutOfMemory)
        }
    }
}

pub(crate) fn blocks(told: Result<Shown, CallError>) -> Told<(u32, u32)>
    ensures { Takes shows_blocks told result }
{
    let shown = told?;
    match shown {
        Shown::Blocks { used, clusters } => Ok(Ok((used, clusters))),
        Shown::Refused(code) => Ok(Err(code)),
        other => {
            drop(other);
            Err(CallError::OutOfMemory)
        }
    }
}

pub(crate) fn info(told: Result<Shown, CallError>) -> Told<Info>
    ensures { Takes shows_info told result }
{
    let shown = told?;
    match shown {
        Shown::Info {
            item,
            kind,
            size,
            pin,
            in_sync,
            number,
            identity,
        } => Ok(Ok(Info {
            item,
            kind,
            size,
            pin,
            in_sync,
            number,
            identity,
        })),
        Shown::Refused(code) => Ok(Err(code)),
        other => {
            drop(other);
            Err(CallError::OutOfMemory)
        }
    }
}

pub(crate) fn waited(told: Result<Shown, CallError>) -> Told<Waited>
    ensures { Takes shows_waited told result }
{
    let shown = told?;
    match shown {
        Shown::Pending(wait) => Ok(Ok(Waited::Pending(wait))),
        Shown::Ended(end) => Ok(Ok(Waited::Ended(end))),
        Shown::Refused(code) => Ok(Err(code)),
        other => {
            drop(other);
            Err(CallError::OutOfMemory)
        }
    }
}

pub(crate) fn outcome(told: Result<Shown, CallError>) -> Told<Outcome>
    ensures { Takes shown_of told result }
{
    let shown = told?;
    match shown {
        Shown::Done => Ok(Ok(Outcome::Done)),
        Shown::Retrieved(bytes) => Ok(Ok(Outcome::Data(bytes))),
        Shown::Refused(code) => Ok(Err(code)),
        other => {
            drop(other);
            Err(CallError::OutOfMemory)
        }
    }
}
