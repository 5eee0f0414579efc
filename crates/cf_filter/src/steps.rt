//! A filter as the steps of which calls are made, for an engine that makes some of its own.

use crate::filters::FilterOn;
use cf_ask_rule::Wait;
use cf_base::{
    Ask, AuxRecord, Blob, CallError, Cause, Change, Code, End, Handle, ItemId, Key, OutOfMemory,
    Policy, Span, Usn, WaitId,
};
use cf_filter_steps::{Need, Room, Steps};
use cf_table::Rows;
use cf_volume_ground::Ground;
use cf_waits::{Moves, Requests, Step};
use std::alloc::Global;

impl<G: Ground> Steps for FilterOn<G> {
    ghost use Rattle.cf_filter_machine.specs.Sensing.{sense, waits_known};

    ghost sense = { sense G.state };

    ghost table = { λ f. f.known.table };

    ghost waiting = { λ f. f.desk.waiting };

    fn alloc(&self) -> Global {
        self.machine.alloc()
    }

    fn rows(&self) -> &Rows {
        self.machine.rows()
    }

    fn requests(&self) -> &Requests {
        self.machine.requests()
    }

    fn policy(&self) -> Policy {
        self.machine.policy()
    }

    fn is_connected(&self) -> bool {
        self.machine.is_connected()
    }

    fn opened(&self, handle: Handle) -> Option<ItemId> {
        self.machine.opened(handle)
    }

    fn is_open(&self, item: ItemId) -> bool {
        self.machine.is_open(item)
    }

    fn refuse_open(&self) -> Option<Code> {
        self.machine.refuse_open()
    }

    fn next_number(&self) -> Option<Usn> {
        self.machine.next_number()
    }

    fn room(&self, changes: &[Change]) -> Result<Room, OutOfMemory> {
        self.machine.room(changes)
    }

    fn change(&mut self, change: Change) -> Result<(), CallError> {
        self.machine.change(change)
    }

    fn put(&mut self, item: ItemId, change: Change) -> Result<(), CallError> {
        self.machine.put(item, change)
    }

    fn touch(&mut self, item: ItemId) -> Result<(), CallError> {
        self.machine.touch(item)
    }

    fn remove(&mut self, item: ItemId, bury: bool) -> Result<(), CallError> {
        self.machine.remove(item, bury)
    }

    fn retrieve(&mut self, item: ItemId, span: Span) -> Result<Blob, CallError> {
        self.machine.retrieve(item, span)
    }

    fn room_listed(
        &self,
        dir: ItemId,
        changes: &[Change],
        records: &[AuxRecord],
    ) -> Result<Room, OutOfMemory> {
        self.machine.room_listed(dir, changes, records)
    }

    fn enter(
        &mut self,
        dir: ItemId,
        changes: &[Change],
        records: &[AuxRecord],
    ) -> Result<(), CallError> {
        self.machine.enter(dir, changes, records)
    }

    fn pass(&mut self, ticks: u32) -> Result<(), CallError> {
        self.machine.pass(ticks)
    }

    fn take(&mut self, step: Step) -> Result<Moves, CallError> {
        self.machine.take(step)
    }

    fn is_met(&self, need: &Need) -> Result<bool, OutOfMemory> {
        self.machine.is_met(need)
    }

    fn answer(&mut self, need: &Need) -> Result<End, CallError> {
        self.machine.answer(need)
    }

    fn start(&mut self, need: &Need) -> Result<(WaitId, Moves), CallError> {
        self.machine.start(need)
    }

    fn open(&mut self, item: ItemId) -> Result<Handle, CallError> {
        self.machine.open(item)
    }

    fn forget(&mut self, handle: Handle) {
        self.machine.forget(handle);
    }

    fn set_policy(&mut self, policy: Policy) {
        self.machine.set_policy(policy);
    }

    fn set_connected(&mut self, on: bool) {
        self.machine.set_connected(on);
    }

    fn take_down(&mut self) -> Result<Moves, CallError> {
        self.machine.take_down()
    }

    fn is_idle(&self) -> bool {
        self.machine.is_idle()
    }

    fn has_unlisted(&self) -> bool {
        self.machine.has_unlisted()
    }

    fn last_access(&self, item: ItemId) -> u64 {
        self.machine.last_access(item)
    }

    fn used_blocks(&self) -> (u32, u32) {
        self.machine.used_blocks()
    }

    fn commit(&mut self) -> Result<(), CallError> {
        self.machine.commit()
    }

    fn count(&self) -> u64 {
        self.machine.count()
    }

    fn end_wait(&mut self, ended: &(Wait, Cause)) -> Result<(), CallError> {
        self.machine.end_wait(ended)
    }

    fn tell_asks(&mut self, cancelled: &[Key], asks: &[Ask]) -> Result<(), CallError> {
        self.machine.tell_asks(cancelled, asks)
    }

    ghost waits = { waits_known G.state };
}
