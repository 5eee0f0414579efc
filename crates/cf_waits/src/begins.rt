//! Waits that begin.
ghost use Rattle.std.specs.Prelude.{◌≡◌, cond, false, None, Some, IfOk, OnErr, OnOk, ◌+◌, ◌++◌, ◌≤◌};
ghost use Rattle.cf_base.specs.declared.limits.TheConstants.{MOST_NUMBER};
ghost use Rattle.cf_base.specs.declared.waits.WaitKind.TheVariants as wait_kind;
ghost use Rattle.cf_model.specs.Missing.{no_span};
ghost use Rattle.cf_model.specs.Requests.{also_background, no_numbers, with_waits};
ghost use Rattle.cf_waits.specs.Rising.{AreNext};
ghost use Rattle.cf_waits.specs.Steps.{IsPlanned, begun_id, carried, first_waits, moved_of};

use crate::moves::Moves;
use crate::requests::{Requests, Step};
use cf_ask_rule::{LiveWait, WaitNumber};
use cf_base::{Handle, ItemId, Key, OutOfMemory, Span, WaitId, WaitKind};

impl Requests {
    /// A wait under the next number, and one for the rest of the file beside it where `beside` says so.
    pub(crate) fn first_waits(
        &self,
        kind: WaitKind,
        item: ItemId,
        handle: Option<Handle>,
        span: Span,
        beside: bool,
    ) -> Result<Vec<LiveWait>, OutOfMemory>
        ensures { IfOk result (λ v. v.items ≡ first_waits kind item handle span beside self.now) }
    {
        let id = WaitNumber::new(self.epoch, self.wait_count + 1);
        let mut waits = Vec::new(self.alloc);
        waits.push(LiveWait::new(id, kind, item, handle, span))?;
        if beside {
            let next = WaitNumber::new(self.epoch, self.wait_count + 2);
            waits.push(background(next, item))?;
        }
        Ok(waits)
    }

    /// Does a step with which these waits begin, the call's own and one beside it where `beside` says so.
    pub(crate) fn take_begun(
        &mut self,
        step: Step,
        begun: &[LiveWait],
        beside: bool,
    ) -> Result<(WaitId, Moves), OutOfMemory>
        requires planned { IsPlanned step (with_waits begun.now self.old) }
        requires next { AreNext begun.now self.old }
        requires numbers { no_numbers (carried step (with_waits begun.now self.old)).1 ≡ false }
        requires count { self.old.wait_count + 1 + cond beside 1 0 ≤ MOST_NUMBER }
        ensures id { IfOk result (λ m. m.0 ≡ begun_id 0 self.old) }
        ensures moves { IfOk result (λ m. m.1 ≡ moved_of (cond beside (Some (begun_id 1 self.old)) None) (carried step (with_waits begun.now self.old)).0) }
        ensures ok { OnOk result (self.new ≡ (carried step (with_waits begun.now self.old)).1) }
        ensures err { OnErr result (self.new ≡ self.old) }
    {
        let first = self.wait_count + 1;
        let id = wait_id(self.epoch, first);
        let background = background_id(beside, self.epoch, first);
        let moves = self.take_with(step, begun, background)?;
        Ok((id, moves))
    }

    /// Whether a background wait begins beside another on the item.
    pub(crate) fn is_beside(&self, background: bool, item: ItemId) -> bool
        ensures { result ≡ also_background background item self.now }
    {
        background && !self.waits.has_background(item)
    }
}

fn wait_id(epoch: u32, number: u64) -> WaitId
    requires { number ≤ MOST_NUMBER }
    ensures { result ≡ record { 0 = record { epoch = epoch; number = number } } }
{
    WaitId(Key {
        epoch,
        number: number as u32,
    })
}

// The number after the call's own, for the background wait where there is one.
fn background_id(beside: bool, epoch: u32, first: u64) -> Option<WaitId>
    requires { first + cond beside 1 0 ≤ MOST_NUMBER }
    ensures { result ≡ cond beside (Some (record { 0 = record { epoch = epoch; number = first + 1 } })) None }
{
    if beside {
        Some(wait_id(epoch, first + 1))
    } else {
        None
    }
}

/// The waits, and behind them those that begin.
pub(crate) fn with_begun(
    waits: Vec<LiveWait>,
    begun: &[LiveWait],
) -> Result<Vec<LiveWait>, OutOfMemory>
    ensures { IfOk result (λ v. v.items ≡ waits.items ++ begun.now) }
{
    let mut all = waits;
    all.extend_from_slice(begun)?;
    Ok(all)
}

fn background(id: WaitNumber, item: ItemId) -> LiveWait
    ensures { result ≡ record { id = id; kind = wait_kind.Background; item = item; handle = None; span = no_span } }
{
    let none = Span { start: 0, len: 0 };
    LiveWait::new(id, WaitKind::Background, item, None, none)
}
