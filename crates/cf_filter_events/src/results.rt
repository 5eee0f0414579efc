//! What calls of the filter give, as results of events.

ghost use Rattle.std.specs.Prelude.{◌≡◌};
ghost use Rattle.cf_filter_events.specs.Answered.{showing};
ghost use Rattle.cf_base.specs.declared.answers.Shown.TheVariants as shown;
ghost use Rattle.cf_provider.specs.Acting.{shown_of};
ghost use Rattle.cf_filter.specs.Calling.{shows_done};
ghost use Rattle.cf_filter.specs.Showing.{shows_blocks, shows_info, shows_waited};

use cf_base::{CallError, Handle, ItemId, Sequence, Shown, Span, Usn};
use cf_filter::{Info, Waited};
use cf_provider::Outcome;

/// The result of a call that gives nothing.
pub fn done(told: Result<(), CallError>) -> Result<Shown, CallError>
    ensures { result ≡ showing shows_done told }
{
    match told {
        Ok(()) => Ok(Shown::Done),
        Err(fail) => Err(fail),
    }
}

pub(crate) fn opened(told: Result<Handle, CallError>) -> Result<Shown, CallError>
    ensures { result ≡ showing shown.Opened told }
{
    match told {
        Ok(handle) => Ok(Shown::Opened(handle)),
        Err(fail) => Err(fail),
    }
}

/// The result of a call that counts.
pub fn count(told: Result<u64, CallError>) -> Result<Shown, CallError>
    ensures { result ≡ showing shown.Count told }
{
    match told {
        Ok(count) => Ok(Shown::Count(count)),
        Err(fail) => Err(fail),
    }
}

/// The result of a call that gives an item.
pub fn item(told: Result<ItemId, CallError>) -> Result<Shown, CallError>
    ensures { result ≡ showing shown.Item told }
{
    match told {
        Ok(item) => Ok(Shown::Item(item)),
        Err(fail) => Err(fail),
    }
}

/// The result of a call that gives a number.
pub fn number(told: Result<Usn, CallError>) -> Result<Shown, CallError>
    ensures { result ≡ showing shown.Number told }
{
    match told {
        Ok(number) => Ok(Shown::Number(number)),
        Err(fail) => Err(fail),
    }
}

pub(crate) fn used(told: Result<u64, CallError>) -> Result<Shown, CallError>
    ensures { result ≡ showing shown.Used told }
{
    match told {
        Ok(clock) => Ok(Shown::Used(clock)),
        Err(fail) => Err(fail),
    }
}

pub(crate) fn runs(told: Result<Sequence<Span>, CallError>) -> Result<Shown, CallError>
    ensures { result ≡ showing shown.Ranges told }
{
    match told {
        Ok(runs) => Ok(Shown::Ranges(runs)),
        Err(fail) => Err(fail),
    }
}

pub(crate) fn blocks(told: Result<(u32, u32), CallError>) -> Result<Shown, CallError>
    ensures { result ≡ showing shows_blocks told }
{
    match told {
        Ok((used, clusters)) => Ok(Shown::Blocks { used, clusters }),
        Err(fail) => Err(fail),
    }
}

pub(crate) fn info(told: Result<Info, CallError>) -> Result<Shown, CallError>
    ensures { result ≡ showing shows_info told }
{
    match told {
        Ok(
            Info {
                item,
                kind,
                size,
                pin,
                in_sync,
                number,
                identity,
            },
        ) => Ok(Shown::Info {
            item,
            kind,
            size,
            pin,
            in_sync,
            number,
            identity,
        }),
        Err(fail) => Err(fail),
    }
}

pub(crate) fn waited(told: Result<Waited, CallError>) -> Result<Shown, CallError>
    ensures { result ≡ showing shows_waited told }
{
    match told {
        Ok(Waited::Pending(wait)) => Ok(Shown::Pending(wait)),
        Ok(Waited::Ended(end)) => Ok(Shown::Ended(end)),
        Err(fail) => Err(fail),
    }
}

/// The result of an operation of the provider.
pub fn outcome(told: Result<Outcome, CallError>) -> Result<Shown, CallError>
    ensures { result ≡ showing shown_of told }
{
    match told {
        Ok(Outcome::Done) => Ok(Shown::Done),
        Ok(Outcome::Data(bytes)) => Ok(Shown::Retrieved(bytes)),
        Err(fail) => Err(fail),
    }
}
