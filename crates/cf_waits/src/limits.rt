//! Limits on what waits and is asked after a step.
ghost use Rattle.std.specs.Prelude.{◌≡◌, not, [], ◌∷◌, count_by, nat_lt, ◌+◌, ◌&&◌, ◌≤◌};
ghost use Rattle.cf_base.specs.declared.codes.Code.TheVariants as code;
ghost use Rattle.cf_base.specs.declared.limits.TheConstants.{MOST_NUMBER};
ghost use Rattle.cf_model.specs.Requests.{no_numbers, too_many_asks, too_many_waits, with_waits};
ghost use Rattle.cf_model.specs.Words.{first_of};
ghost use Rattle.cf_waits.specs.Books.{is_plain_ask, is_plain_wait};
ghost use Rattle.cf_waits.specs.Steps.{carried, is_ended, limit_of, limits_asks, limits_numbers, limits_waits};

use crate::requests::{Requests, Step};
use cf_ask_rule::{LiveAsk, LiveWait, is_dehydrate, is_dehydrate_wait};
use cf_base::{Cause, Code};

/// The greatest number of an epoch.
pub(crate) const MOST: u64 = 4_294_967_295;

const MOST_WAITS: usize = 1024;

const MOST_ASKS: usize = 4096;

/// Which limits a step is held to, in the order in which they are tested.
#[derive(Clone, Copy, Debug, PartialEq, Eq)]
pub enum Limits {
    /// Those on waits, asks and numbers: a wait begins.
    Begins,
    /// Those on asks and numbers.
    Asks,
    /// Those on numbers.
    Numbers,
    /// None.
    Free,
}

impl Limits {
    fn holds_waits(self) -> bool
        ensures { result ≡ limits_waits self }
    {
        match self {
            Limits::Begins => true,
            Limits::Asks => false,
            Limits::Numbers => false,
            Limits::Free => false,
        }
    }

    fn holds_asks(self) -> bool
        ensures { result ≡ limits_asks self }
    {
        match self {
            Limits::Begins => true,
            Limits::Asks => true,
            Limits::Numbers => false,
            Limits::Free => false,
        }
    }

    fn holds_numbers(self) -> bool
        ensures { result ≡ limits_numbers self }
    {
        match self {
            Limits::Begins => true,
            Limits::Asks => true,
            Limits::Numbers => true,
            Limits::Free => false,
        }
    }
}

impl Requests {
    /// The first limit that a step would pass with which these waits begin.
    pub(crate) fn limit_with(&self, step: &Step, begun: &[LiveWait], limits: Limits) -> Option<Code>
        ensures { result ≡ limit_of limits (carried step.now (with_waits begun.now self.now)).1 }
    {
        let waits = self.passes_waits(step, begun, limits);
        let asks = self.passes_asks(step, limits);
        let numbers = self.passes_numbers(step, begun, limits);
        first_limit(waits, asks, numbers)
    }

    fn passes_waits(&self, step: &Step, begun: &[LiveWait], limits: Limits) -> bool
        ensures { result ≡ (limits_waits limits && too_many_waits (carried step.now (with_waits begun.now self.now)).1) }
    {
        limits.holds_waits() && self.has_too_many_waits(step, begun)
    }

    fn passes_asks(&self, step: &Step, limits: Limits) -> bool
        ensures { result ≡ (limits_asks limits && too_many_asks (carried step.now self.now).1) }
    {
        limits.holds_asks() && self.has_too_many_asks(step)
    }

    fn passes_numbers(&self, step: &Step, begun: &[LiveWait], limits: Limits) -> bool
        ensures { result ≡ (limits_numbers limits && no_numbers (carried step.now (with_waits begun.now self.now)).1) }
    {
        limits.holds_numbers() && self.has_no_numbers_with(step, begun)
    }

    pub(crate) fn has_no_numbers_with(&self, step: &Step, begun: &[LiveWait]) -> bool
        ensures { result ≡ no_numbers (carried step.now (with_waits begun.now self.now)).1 }
    {
        let made = step.made.len();
        let more = begun.len();
        let keys = passes_most(self.key_count, made);
        let waits = passes_most(self.wait_count, more);
        keys || waits
    }

    // The waits are counted one by one only where some could be too many.
    fn has_too_many_waits(&self, step: &Step, begun: &[LiveWait]) -> bool
        ensures { result ≡ too_many_waits (carried step.now (with_waits begun.now self.now)).1 }
    {
        if self.waits.plain().saturating_add(begun.len()) <= MOST_WAITS {
            return false;
        }
        let live = plain_left(self.waits.waits(), &step.ended);
        live > MOST_WAITS || plain_left(begun, &step.ended) > MOST_WAITS - live
    }

    /// Whether more asks than may be live would be, were the step done.
    pub fn has_too_many_asks(&self, step: &Step) -> bool
        ensures { result ≡ too_many_asks (carried step.now self.now).1 }
    {
        if self.asks.plain().saturating_add(step.made.len()) <= MOST_ASKS {
            return false;
        }
        let live = self.asks.plain_but(&step.cancelled, step.dropped);
        live > MOST_ASKS || plain_asks(&step.made) > MOST_ASKS - live
    }
}

fn is_ended(ended: &[(LiveWait, Cause)], w: &LiveWait) -> bool
    ensures { result ≡ is_ended ended.now w.now }
{
    ended.iter().any(|e| e.0.id().is(w.id()))
}

fn plain_left(waits: &[LiveWait], ended: &[(LiveWait, Cause)]) -> usize
    ensures { result ≡ count_by (λ w. not (is_ended ended.now w) && is_plain_wait w) waits.now }
{
    waits
        .iter()
        .filter(|w| !is_ended(ended, w) && !is_dehydrate_wait(w.kind()))
        .count()
}

fn plain_asks(asks: &[LiveAsk]) -> usize
    ensures { result ≡ count_by is_plain_ask asks.now }
{
    asks.iter().filter(|a| !is_dehydrate(a.ask().kind)).count()
}

fn first_limit(waits: bool, asks: bool, numbers: bool) -> Option<Code>
    ensures { result ≡ first_of ((waits, code.TooManyWaits) ∷ (asks, code.TooManyAsks) ∷ (numbers, code.Exhausted) ∷ []) }
{
    if waits {
        return Some(Code::TooManyWaits);
    }
    if asks {
        return Some(Code::TooManyAsks);
    }
    if numbers {
        return Some(Code::Exhausted);
    }
    None
}

// Whether a count would be past the greatest number with so many more.
fn passes_most(count: u64, more: usize) -> bool
    requires { count ≤ MOST_NUMBER }
    ensures { result ≡ nat_lt MOST_NUMBER (count + more) }
{
    more as u64 > MOST - count
}
