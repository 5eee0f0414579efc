//! What a restart forgets.

ghost use Rattle.std.specs.Prelude.{◌≡◌, None, true, false, [], ◌∷◌, ◌++◌, ◌+◌, ◌==◌, ◌&&◌, filter, find, length, map, nat_le, not, IfErr, IfOk, OnErr, OnOk};
ghost use Rattle.std.specs.List.{list_any};
ghost use Rattle.cf_base.specs.declared.codes.Code.TheVariants as code;
ghost use Rattle.cf_filter_desk.specs.Desks.{BeginsBy, Desk, IfRefused, background_lines, ended};
ghost use Rattle.cf_model.specs.Asks.{downed};
ghost use Rattle.cf_model.specs.Items.{Item};
ghost use Rattle.cf_model.specs.Missing.{view_of};
ghost use Rattle.cf_model.specs.Numbers.{key_after, most, same_key};
ghost use Rattle.cf_model.specs.Requests.{none_waiting, ticked};
ghost use Rattle.cf_model.specs.Settling.{cancel_line, no_view};
ghost use Rattle.cf_model.specs.Words.{first_of, is_empty, says};
ghost use Rattle.cf_waits.specs.Steps.{IsPlanned, carried, moved_of};
ghost use Rattle.cf_filter_steps.specs.Good.{IsSmall};
ghost use Rattle.cf_filter_steps.specs.Needing.{meant};
ghost use Rattle.cf_filter_steps.specs.Readings.{asked_line, item_opened};
ghost use Rattle.cf_table.specs.Means.{Means};

mod running;

use crate::missing_bytes::{start_gone, start_on};
use crate::open_files::Open;
use cf_base::{
    Ask, CallError, Code, End, Handle, ItemId, Key, Notes, Notice, OutOfMemory, Policy, Sequence,
    WaitId,
};
use cf_filter_steps::Need;
use cf_table::Row;
use cf_waits::{Moves, Requests, Step};
use std::alloc::Global;
use std::collections::VecDeque;
use std::marker::Model;

/// How many handles may be open.
const MOST_HANDLES: usize = 1024;

/// What stands in memory beside a volume.
#[derive(Drop)]
pub struct Desk {
    alloc: Global,
    policy: Policy,
    connected: bool,
    handles: Vec<Open>,
    handle_count: u32,
    requests: Requests,
    outbox: VecDeque<Ask>,
    own: Option<WaitId>,
    ending: Option<End>,
    notes: Notes,
    broken: bool,
    lost: bool,
}

impl Model for Desk {
    ghost Value = { Desk };

    ghost view = { λ d. record { policy = d.policy; connected = d.connected; handles = d.handles.items; handle_count = d.handle_count; waiting = d.requests; outbox = d.outbox.items; own = d.own; ending = d.ending; notes = d.notes; broken = d.broken; lost = d.lost } };
}

impl Desk {
    /// The desk of a filter in which nothing is open and nothing waits.
    pub fn new(alloc: Global, epoch: u32, policy: Policy) -> Desk
        ensures { result ≡ record { policy = policy; connected = true; handles = []; handle_count = 0; waiting = none_waiting epoch; outbox = []; own = None; ending = None; notes = []; broken = false; lost = false } }
    {
        Desk {
            alloc,
            policy,
            connected: true,
            handles: Vec::new(alloc),
            handle_count: 0,
            requests: Requests::new(alloc, epoch),
            outbox: VecDeque::new(alloc),
            own: None,
            ending: None,
            notes: Sequence::new(alloc),
            broken: false,
            lost: false,
        }
    }

    /// Where its memory comes from.
    pub fn alloc(&self) -> Global {
        self.alloc
    }

    /// The policy of the sync root.
    pub fn policy(&self) -> Policy
        ensures { result ≡ self.now.policy }
    {
        self.policy
    }

    /// Whether a provider is connected.
    pub fn is_connected(&self) -> bool
        ensures { result ≡ self.now.connected }
    {
        self.connected
    }

    /// The calls that wait, and what the provider is asked.
    pub fn requests(&self) -> &Requests
        ensures { result.now ≡ self.now.waiting }
    {
        &self.requests
    }

    /// Whether a device call failed and no restart came since.
    pub fn is_broken(&self) -> bool
        ensures { result ≡ self.now.broken }
    {
        self.broken
    }

    /// Another policy, from now on. Nothing else changes.
    pub fn set_policy(&mut self, policy: Policy)
        ensures { self.new ≡ record self.old { policy = policy } }
    {
        self.policy = policy;
    }

    /// A provider is connected from now on, or none. Nothing else changes.
    pub fn set_connected(&mut self, on: bool)
        ensures { self.new ≡ record self.old { connected = on } }
    {
        self.connected = on;
    }

    /// The file of an open handle.
    pub fn opened(&self, handle: Handle) -> Option<ItemId>
        ensures { result ≡ item_opened (find (λ o. same_key o.handle.0 handle.0) self.now.handles) }
    {
        item_of(&self.handles, handle)
    }

    /// Whether a handle is open on the item.
    pub fn is_open(&self, item: ItemId) -> bool
        ensures { result ≡ list_any (λ h. h.item.0 == item.0) self.now.handles }
    {
        is_open(&self.handles, item)
    }

    /// Why no file can be opened now: TooManyHandles, Exhausted.
    pub fn refuse_open(&self) -> Option<Code>
        ensures { result ≡ first_of ((nat_le 1024 (length self.now.handles), code.TooManyHandles) ∷ (nat_le most self.now.handle_count, code.Exhausted) ∷ []) }
    {
        refuse_open(self.handles.len(), self.handle_count)
    }

    /// Whether nothing is open and nothing waits.
    pub fn is_idle(&self) -> bool
        ensures { result ≡ (is_empty self.now.handles && is_empty self.now.waiting.waits) }
    {
        self.handles.is_empty() && self.requests.is_idle()
    }

    /// Opens a file under the next number of the epoch, of which one is left.
    pub fn open(&mut self, item: ItemId, epoch: u32) -> Result<Handle, OutOfMemory>
        ensures ok { OnOk result (self.new ≡ record self.old { handles = self.old.handles ++ record { handle = record { 0 = key_after epoch self.old.handle_count }; item = item } ∷ []; handle_count = self.old.handle_count + 1 }) }
        ensures handle { IfOk result (λ h. h ≡ record { 0 = key_after epoch self.old.handle_count }) }
        ensures err { OnErr result (self.new ≡ self.old) }
    {
        if self.handle_count == u32::MAX {
            return Err(OutOfMemory);
        }
        let number = self.handle_count + 1;
        let handle = Handle(Key { epoch, number });
        self.handles.push(Open::new(handle, item))?;
        self.handle_count = number;
        Ok(handle)
    }

    /// The handle is open no more.
    pub fn forget(&mut self, handle: Handle)
        ensures { self.new ≡ record self.old { handles = filter (λ o. not (same_key o.handle.0 handle.0)) self.old.handles } }
    {
        forget(&mut self.handles, handle);
    }

    /// Adds a line.
    pub fn note(&mut self, n: Notice) -> Result<(), OutOfMemory>
        ensures ok { OnOk result (self.new ≡ record self.old { notes = self.old.notes ++ n ∷ [] }) }
        ensures err { OnErr result (self.new ≡ self.old) }
    {
        self.notes.push(n)
    }

    /// Tells how a wait ended: as the end of the running call where it is the call's own, else by a line.
    pub fn end(&mut self, wait: WaitId, end: End) -> Result<(), OutOfMemory>
        ensures { OnOk result (self.new ≡ ended wait end (says (λ own. same_key own.0 wait.0) self.old.own) self.old) }
    {
        if is_own(self.own, wait) {
            self.ending = Some(end);
            return Ok(());
        }
        self.notes.push(Notice::Done { wait, end })
    }

    /// Tells which asks were cancelled, and which were made. Their callbacks are still to be called.
    pub fn tell_asks(&mut self, cancelled: &[Key], asks: &[Ask]) -> Result<(), OutOfMemory>
        ensures { OnOk result (self.new ≡ record self.old { notes = self.old.notes ++ map cancel_line cancelled.now ++ map asked_line asks.now; outbox = self.old.outbox ++ asks.now }) }
    {
        note_cancels(&mut self.notes, cancelled)?;
        note_asks(&mut self.notes, asks)?;
        put_out(&mut self.outbox, asks)
    }

    /// Does a step of the ask rule that was worked out for what waits and is asked now.
    pub fn take(&mut self, step: Step) -> Result<Moves, OutOfMemory>
        requires { IsPlanned step self.old.waiting }
        ensures moves { IfOk result (λ m. m ≡ moved_of None (carried step self.old.waiting).0) }
        ensures ok { OnOk result (self.new ≡ record self.old { waiting = (carried step self.old.waiting).1 }) }
        ensures err { OnErr result (self.new ≡ self.old) }
    {
        if self.requests.has_no_numbers(&step) {
            return Err(OutOfMemory);
        }
        self.requests.take(step)
    }

    /// Begins a wait on an item as this row says it, and one for the rest of the file beside it where that is wanted and
    /// none is live.
    pub fn start_on(&mut self, row: &Row, need: &Need) -> Result<(WaitId, Moves), CallError>
        ensures begins { (i : Item) → Means row.now i → IsSmall i → BeginsBy (meant need.now) (view_of self.old.policy i) self.old result self.new }
        ensures refused { IfErr result (λ e. IfRefused e self.old self.new) }
    {
        let begun = start_on(&mut self.requests, self.policy, row, need)?;
        note_background(&mut self.notes, begun.1.background, need.item)?;
        self.own = Some(begun.0);
        self.ending = None;
        Ok(begun)
    }

    /// The same on an item that is gone.
    pub fn start_gone(&mut self, need: &Need) -> Result<(WaitId, Moves), CallError>
        ensures begins { BeginsBy (meant need.now) no_view self.old result self.new }
        ensures refused { IfErr result (λ e. IfRefused e self.old self.new) }
    {
        let begun = start_gone(self.alloc, &mut self.requests, need)?;
        note_background(&mut self.notes, begun.1.background, need.item)?;
        self.own = Some(begun.0);
        self.ending = None;
        Ok(begun)
    }

    /// So many ticks pass for each ask, where none is left on which 60 ticks have passed.
    pub fn pass(&mut self, ticks: u32) -> Result<(), OutOfMemory>
        ensures ok { OnOk result (self.new ≡ record self.old { waiting = ticked ticks self.old.waiting }) }
        ensures err { OnErr result (self.new ≡ self.old) }
    {
        // Whoever lets time pass ends such asks then.
        if self.requests.next_expired(0).is_some() {
            return Err(OutOfMemory);
        }
        self.requests.advance(ticks);
        Ok(())
    }

    /// All waits and asks end.
    pub fn take_down(&mut self) -> Result<Moves, OutOfMemory>
        ensures moves { IfOk result (λ m. m ≡ moved_of None (downed self.old.waiting).0) }
        ensures ok { OnOk result (self.new ≡ record self.old { waiting = (downed self.old.waiting).1 }) }
        ensures err { OnErr result (self.new ≡ self.old) }
    {
        self.requests.down()
    }
}

fn item_of(handles: &[Open], handle: Handle) -> Option<ItemId>
    ensures { result ≡ item_opened (find (λ o. same_key o.handle.0 handle.0) handles.now) }
{
    match handles.iter().find(|o| o.is(handle)) {
        Some(open) => Some(open.item()),
        None => None,
    }
}

fn is_open(handles: &[Open], item: ItemId) -> bool
    ensures { result ≡ list_any (λ h. h.item.0 == item.0) handles.now }
{
    handles.iter().any(|o| o.item().0 == item.0)
}

fn refuse_open(live: usize, given: u32) -> Option<Code>
    ensures { result ≡ first_of ((nat_le 1024 live, code.TooManyHandles) ∷ (nat_le most given, code.Exhausted) ∷ []) }
{
    if live >= MOST_HANDLES {
        return Some(Code::TooManyHandles);
    }
    if given == u32::MAX {
        return Some(Code::Exhausted);
    }
    None
}

fn forget(handles: &mut Vec<Open>, handle: Handle)
    ensures { handles.new.items ≡ filter (λ o. not (same_key o.handle.0 handle.0)) handles.old.items }
{
    handles.retain(|o| !o.is(handle));
}

fn is_own(own: Option<WaitId>, wait: WaitId) -> bool
    ensures { result ≡ says (λ o. same_key o.0 wait.0) own }
{
    match own {
        Some(o) => o.0.epoch == wait.0.epoch && o.0.number == wait.0.number,
        None => false,
    }
}

fn note_background(
    notes: &mut Notes,
    beside: Option<WaitId>,
    item: ItemId,
) -> Result<(), OutOfMemory>
    ensures { OnOk result (notes.new ≡ notes.old ++ background_lines item beside) }
{
    if let Some(wait) = beside {
        notes.push(Notice::Background { wait, item })?;
    }
    Ok(())
}

fn note_cancels(notes: &mut Notes, cancelled: &[Key]) -> Result<(), OutOfMemory>
    ensures { OnOk result (notes.new ≡ notes.old ++ map cancel_line cancelled.now) }
{
    for key in cancelled {
        notes.push(Notice::Cancel { key: *key })?;
    }
    Ok(())
}

fn note_asks(notes: &mut Notes, asks: &[Ask]) -> Result<(), OutOfMemory>
    ensures { OnOk result (notes.new ≡ notes.old ++ map asked_line asks.now) }
{
    for ask in asks {
        notes.push(Notice::Ask(*ask))?;
    }
    Ok(())
}

fn put_out(outbox: &mut VecDeque<Ask>, asks: &[Ask]) -> Result<(), OutOfMemory>
    ensures { OnOk result (outbox.new.items ≡ outbox.old.items ++ asks.now) }
{
    for ask in asks {
        outbox.push_back(*ask)?;
    }
    Ok(())
}
