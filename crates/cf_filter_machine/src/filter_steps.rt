//! The steps of which calls are made, on a filter.

ghost use Rattle.std.specs.Prelude.{◌≡◌, not};

use crate::ends::{cut_here, end_met, is_access, read_here, tell_unread};
use crate::entry_lists::enter_all;
use crate::limits::fits;
use crate::machines::MachineOn;
use crate::removals::remove_item;
use crate::rows::last_of;
use cf_ask_rule::Wait;
use cf_base::{
    Ask, AuxRecord, Blob, CallError, Cause, Change, Code, End, Handle, ItemId, Key, Notice,
    OutOfMemory, Policy, Span, Usn, WaitId,
};
use cf_filter_desk::{is_met_gone, is_met_on};
use cf_filter_steps::{Need, Room, Steps};
use cf_table::Rows;
use cf_volume::are_short;
use cf_volume_ground::Ground;
use cf_waits::{Moves, Requests, Step};
use std::alloc::Global;

// What room there is, as what is lacking.
fn lacking(left: cf_volume::Room) -> Room
    ensures { result ≡ record { no_numbers = not left.places; no_table = not left.table; no_blocks = not left.blocks } }
{
    Room {
        no_numbers: !left.places,
        no_table: !left.table,
        no_blocks: !left.blocks,
    }
}

impl<G: Ground> Steps for MachineOn<G> {
    ghost use Rattle.cf_filter_machine.specs.Sensing.{sense, waits_known};

    ghost sense = { sense G.state };

    ghost table = { λ f. f.known.table };

    ghost waiting = { λ f. f.desk.waiting };

    fn alloc(&self) -> Global {
        self.desk.alloc()
    }

    fn rows(&self) -> &Rows {
        self.volume.rows()
    }

    fn requests(&self) -> &Requests {
        self.desk.requests()
    }

    fn policy(&self) -> Policy {
        self.desk.policy()
    }

    fn is_connected(&self) -> bool {
        self.desk.is_connected()
    }

    fn opened(&self, handle: Handle) -> Option<ItemId> {
        self.desk.opened(handle)
    }

    fn is_open(&self, item: ItemId) -> bool {
        self.desk.is_open(item)
    }

    fn refuse_open(&self) -> Option<Code> {
        self.desk.refuse_open()
    }

    fn next_number(&self) -> Option<Usn> {
        self.volume.next_usn()
    }

    fn room(&self, changes: &[Change]) -> Result<Room, OutOfMemory> {
        let room = self.volume.room(changes)?;
        Ok(lacking(room))
    }

    fn change(&mut self, change: Change) -> Result<(), CallError> {
        if !fits(&self.volume, &change) {
            drop(change);
            return Err(CallError::OutOfMemory);
        }
        let number = match self.volume.apply(&change) {
            Ok(number) => number,
            Err(error) => {
                drop(change);
                return Err(error);
            }
        };
        self.desk.note(Notice::Change { number, change })?;
        Ok(())
    }

    fn put(&mut self, item: ItemId, change: Change) -> Result<(), CallError> {
        if !fits(&self.volume, &change) {
            drop(change);
            return Err(CallError::OutOfMemory);
        }
        let number = match self.volume.apply(&change) {
            Ok(number) => number,
            Err(error) => {
                drop(change);
                return Err(error);
            }
        };
        if self.volume.row(item).is_none() {
            drop(change);
            return Err(CallError::OutOfMemory);
        }
        if let Err(error) = self.volume.touch(item) {
            drop(change);
            return Err(error);
        }
        self.desk.note(Notice::Change { number, change })?;
        Ok(())
    }

    fn touch(&mut self, item: ItemId) -> Result<(), CallError> {
        if self.volume.row(item).is_none() {
            return Err(CallError::OutOfMemory);
        }
        let Ok(()) = self.volume.touch(item) else {
            return Err(CallError::OutOfMemory);
        };
        Ok(())
    }

    fn remove(&mut self, item: ItemId, bury: bool) -> Result<(), CallError> {
        let number = remove_item(self.desk.alloc(), &mut self.volume, item, bury)?;
        let change = Change::Remove { item };
        self.desk.note(Notice::Change { number, change })?;
        Ok(())
    }

    fn retrieve(&mut self, item: ItemId, span: Span) -> Result<Blob, CallError> {
        let cut = cut_here(self.volume.row(item), span)?;
        self.volume.bytes(item, cut)
    }

    fn room_listed(
        &self,
        dir: ItemId,
        changes: &[Change],
        records: &[AuxRecord],
    ) -> Result<Room, OutOfMemory> {
        let _ = dir;
        if !are_short(records) {
            return Err(OutOfMemory);
        }
        let room = self.volume.room_with_records(changes, records)?;
        Ok(lacking(room))
    }

    fn enter(
        &mut self,
        dir: ItemId,
        changes: &[Change],
        records: &[AuxRecord],
    ) -> Result<(), CallError> {
        let _ = dir;
        enter_all(&mut self.volume, &mut self.desk, changes, records)
    }

    fn pass(&mut self, ticks: u32) -> Result<(), CallError> {
        let Ok(()) = self.volume.pass(ticks as u64) else {
            return Err(CallError::OutOfMemory);
        };
        self.desk.pass(ticks)?;
        Ok(())
    }

    fn take(&mut self, step: Step) -> Result<Moves, CallError> {
        let moves = self.desk.take(step)?;
        Ok(moves)
    }

    fn is_met(&self, need: &Need) -> Result<bool, OutOfMemory> {
        match self.volume.row(need.item) {
            Some(row) => is_met_on(self.desk.requests(), self.desk.policy(), row, need),
            None => is_met_gone(self.desk.alloc(), self.desk.requests(), need),
        }
    }

    fn answer(&mut self, need: &Need) -> Result<End, CallError> {
        if !is_access(need.kind, Cause::Met) {
            let end = end_met(self.desk.alloc(), self.volume.rows(), need.kind, need.item)?;
            return Ok(end);
        }
        let cut = cut_here(self.volume.row(need.item), need.span)?;
        let bytes = read_here(&mut self.volume, need.item, cut)?;
        Ok(End::Data(bytes))
    }

    fn start(&mut self, need: &Need) -> Result<(WaitId, Moves), CallError> {
        let row = match self.volume.row(need.item) {
            None => return self.desk.start_gone(need),
            Some(row) => row,
        };
        self.desk.start_on(row, need)
    }

    fn open(&mut self, item: ItemId) -> Result<Handle, CallError> {
        let epoch = self.volume.epoch();
        let handle = self.desk.open(item, epoch)?;
        Ok(handle)
    }

    fn forget(&mut self, handle: Handle) {
        self.desk.forget(handle);
    }

    fn set_policy(&mut self, policy: Policy) {
        self.desk.set_policy(policy);
    }

    fn set_connected(&mut self, on: bool) {
        self.desk.set_connected(on);
    }

    fn take_down(&mut self) -> Result<Moves, CallError> {
        let moves = self.desk.take_down()?;
        Ok(moves)
    }

    fn is_idle(&self) -> bool {
        self.desk.is_idle()
    }

    fn has_unlisted(&self) -> bool {
        self.volume.rows().has_unlisted()
    }

    fn last_access(&self, item: ItemId) -> u64 {
        last_of(self.volume.row(item))
    }

    fn used_blocks(&self) -> (u32, u32) {
        (self.volume.used(), self.volume.clusters())
    }

    fn commit(&mut self) -> Result<(), CallError> {
        self.volume.commit()?;
        Ok(())
    }

    fn count(&self) -> u64 {
        self.volume.count()
    }

    fn end_wait(&mut self, ended: &(Wait, Cause)) -> Result<(), CallError> {
        let wait = &ended.0;
        if !is_access(wait.kind(), ended.1) {
            tell_unread(&mut self.desk, self.volume.rows(), wait, ended.1)?;
            return Ok(());
        }
        let item = wait.item();
        let cut = cut_here(self.volume.row(item), wait.span())?;
        let bytes = read_here(&mut self.volume, item, cut)?;
        self.desk.end(wait.id(), End::Data(bytes))?;
        Ok(())
    }

    fn tell_asks(&mut self, cancelled: &[Key], asks: &[Ask]) -> Result<(), CallError> {
        self.desk.tell_asks(cancelled, asks)?;
        Ok(())
    }

    ghost waits = { waits_known G.state };
}
