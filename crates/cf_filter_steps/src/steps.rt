//! What the calls of a filter are made of.

ghost use Rattle.std.specs.Prelude.{◌≡◌, IfOk, OnOk, Ok};
ghost use Rattle.cf_model.specs.Arrows.{noted, one, unit};
ghost use Rattle.cf_model.specs.Asks.{downed};
ghost use Rattle.cf_model.specs.Calls.{count_now, next_handle, with_handle, with_policy};
ghost use Rattle.cf_model.specs.Books.{Book, with_access};
ghost use Rattle.cf_model.specs.Changes.{change as one_change, change_with};
ghost use Rattle.cf_model.specs.Dehydration.{is_connected};
ghost use Rattle.cf_model.specs.Items.{Item};
ghost use Rattle.cf_model.specs.Operations.{as_it_is, changes_with};
ghost use Rattle.cf_model.specs.Points.{commit};
ghost use Rattle.cf_model.specs.Requests.{Waiting};
ghost use Rattle.cf_model.specs.Settling.{accessed, end_wait, with_waiting};
ghost use Rattle.cf_model.specs.State.{Filter, in_volume};
ghost use Rattle.cf_model.specs.Waits.{accessed_now, is_met_now, with_time, without_handle};
ghost use Rattle.cf_waits.specs.Steps.{IsPlanned, carried, moved_of};
ghost use Rattle.cf_filter_steps.specs.Answering.{Answers, Any, Reads, Sense};
ghost use Rattle.cf_filter_steps.specs.Finding.{HasRows};
ghost use Rattle.cf_filter_steps.specs.Listing.{Listing, ReadyListed, room_listed};
ghost use Rattle.cf_filter_steps.specs.Needing.{IsMet, MayOpen, MayOpenFile, MayAnswer, Starts, end_told, meant, with_link};
ghost use Rattle.cf_filter_steps.specs.Putting.{IsFile, IsHere, MayGo, ReadyOn, bytes_there, removed};
ghost use Rattle.cf_filter_steps.specs.Readings.{has_handle, has_unlisted, is_idle, last_access, next_place, open_refusal, opened_item, policy_of, room_of, used_blocks, waiting_of, whether, with_asks};
ghost use Rattle.cf_filter_steps.specs.Settled.{IsEndOnFile};
ghost use Rattle.cf_filter_steps.specs.Suiting.{Ready, Suiting};
ghost use Rattle.cf_table.specs.Tables.{Table};

use crate::needs::Need;
use crate::rooms::Room;
use cf_ask_rule::Wait;
use cf_base::{
    Ask, AuxRecord, Blob, CallError, Cause, Change, Code, End, Handle, ItemId, Key, OutOfMemory,
    Policy, Span, Usn, WaitId,
};
use cf_table::Rows;
use cf_waits::{Moves, Requests, Step};
use std::alloc::Global;

/// What the calls of a filter act on: one step of it a method. A step meets Device only where a call of the device failed since
/// it began. After a step that met Device or found no memory no other is made.
pub trait Steps {
    /// How it stands for the states of a filter.
    ghost sense: { Sense Self };

    /// The volume's rows, and the id that the next item gets.
    ghost table: { Self → Table };

    /// What waits, and what is asked.
    ghost waiting: { Self → Waiting };

    /// What calls take memory from.
    fn alloc(&self) -> Global;

    /// The volume's rows as they are now.
    fn rows(&self) -> &Rows
        ensures value { result.now ≡ table self.now }
        ensures means { HasRows sense self.now result.now };

    /// The waits and asks as they are now.
    fn requests(&self) -> &Requests
        ensures value { result.now ≡ waiting self.now }
        ensures means { Reads sense Any waiting_of self.now result.now };

    /// The policy that stands.
    fn policy(&self) -> Policy
        ensures { Reads sense Any policy_of self.now result };

    /// Whether a provider is connected.
    fn is_connected(&self) -> bool
        ensures { Reads sense Any is_connected self.now result };

    /// The file of an open handle.
    fn opened(&self, handle: Handle) -> Option<ItemId>
        ensures { Reads sense Any (opened_item handle) self.now result };

    /// Whether a handle is open on the item.
    fn is_open(&self, item: ItemId) -> bool
        ensures { Reads sense Any (has_handle item) self.now result };

    /// Why no file can be opened now: TooManyHandles, Exhausted.
    fn refuse_open(&self) -> Option<Code>
        ensures { Reads sense Any open_refusal self.now result };

    /// The number that the next change gets, where a place is left in the epoch.
    fn next_number(&self) -> Option<Usn>
        ensures { Reads sense Any next_place self.now result };

    /// Whether changes that suit find no room.
    fn room(&self, changes: &[Change]) -> Result<Room, OutOfMemory>
        ensures { IfOk result (λ room. Reads sense (Suiting changes.now) (room_of changes.now) self.now room) };

    /// Makes a change that suits and finds room, and tells it. The change goes into its notice, so no byte of it is copied.
    fn change(&mut self, change: Change) -> Result<(), CallError>
        ensures does { Answers sense (Ready change) (one_change change) self.old result self.new }
        ensures same { OnOk result (waiting self.new ≡ waiting self.old) };

    /// Makes a write or a size of a file, which suits and finds room, and tells it. It is an access too. The change goes into its notice,
    /// as that of `change`.
    fn put(&mut self, item: ItemId, change: Change) -> Result<(), CallError>
        ensures does { Answers sense (ReadyOn item change) (change_with (with_access item) change) self.old result self.new }
        ensures same { OnOk result (waiting self.new ≡ waiting self.old) };

    /// A file is accessed now.
    fn touch(&mut self, item: ItemId) -> Result<(), CallError>
        ensures { Answers sense (IsFile item) (noted (accessed item)) self.old result self.new };

    /// Removes an item that has no child, that no handle is open on and no wait names, and tells it. With `bury` it leaves a tombstone in
    /// the same step, where its identity names a target.
    fn remove(&mut self, item: ItemId, bury: bool) -> Result<(), CallError>
        ensures does { (i : Item) → Answers sense (MayGo item i) (removed bury i) self.old result self.new }
        ensures same { OnOk result (waiting self.new ≡ waiting self.old) };

    /// Reads bytes that are here, as a step. Bytes past the size are none.
    fn retrieve(&mut self, item: ItemId, span: Span) -> Result<Blob, CallError>
        ensures does { Answers sense (IsHere item span) (one as_it_is) self.old (whether result) self.new }
        ensures tells { IfOk result (λ b. Reads sense (IsHere item span) (bytes_there item span) self.old b) }
        ensures same { OnOk result (waiting self.new ≡ waiting self.old) };

    /// Whether a list of entries of a directory finds no room, with these records beside the last of its changes.
    fn room_listed(
        &self,
        dir: ItemId,
        changes: &[Change],
        records: &[AuxRecord],
    ) -> Result<Room, OutOfMemory>
        ensures { IfOk result (λ room. (f : Book → Book) → Reads sense (Listing f dir changes.now records.now) (room_listed f changes.now) self.now room) };

    /// Makes the changes of a list of entries that finds room, and tells them. The records come with the last of them.
    fn enter(
        &mut self,
        dir: ItemId,
        changes: &[Change],
        records: &[AuxRecord],
    ) -> Result<(), CallError>
        ensures does { (f : Book → Book) → Answers sense (ReadyListed f dir changes.now records.now) (changes_with f changes.now) self.old result self.new }
        ensures same { OnOk result (waiting self.new ≡ waiting self.old) };

    /// So many ticks pass, for the clock and for each ask.
    fn pass(&mut self, ticks: u32) -> Result<(), CallError>
        ensures { Answers sense Any (noted (with_time ticks)) self.old result self.new };

    /// Does a step of the ask rule that was worked out for what waits and is asked now, but for what it tells.
    fn take(&mut self, step: Step) -> Result<Moves, CallError>
        requires { IsPlanned step (waiting self.old) }
        ensures does { Answers sense Any (noted (with_waiting (carried step (waiting self.old)).1)) self.old (whether result) self.new }
        ensures moves { IfOk result (λ m. m ≡ moved_of None (carried step (waiting self.old)).0) };

    /// Whether nothing is missing that the call needs.
    fn is_met(&self, need: &Need) -> Result<bool, OutOfMemory>
        ensures { IfOk result (λ met. Reads sense Any (is_met_now (meant need.now)) self.now met) };

    /// Answers a call that misses nothing. A read is of a file; it reads the device, and is an access.
    fn answer(&mut self, need: &Need) -> Result<End, CallError>
        ensures does { Answers sense (MayAnswer (meant need.now)) (one (accessed_now (meant need.now))) self.old (whether result) self.new }
        ensures tells { IfOk result (λ end. Reads sense (IsMet (meant need.now)) (end_told (meant need.now)) self.old end) };

    /// Begins a wait, of a read on a file, and one for the rest of the file beside it where that is wanted and none is live.
    /// Gives its number, and what the step on the item tells. Refused by the limits of its kind: TooManyWaits, TooManyAsks, Exhausted; a wait
    /// for consent to a dehydration as Exhausted alone.
    fn start(&mut self, need: &Need) -> Result<(WaitId, Moves), CallError>
        ensures { Starts sense (meant need.now) self.old result self.new };

    /// Opens a file, where one more handle may be open.
    fn open(&mut self, item: ItemId) -> Result<Handle, CallError>
        ensures does { Answers sense (MayOpenFile item) (noted (with_handle item)) self.old (whether result) self.new }
        ensures tells { IfOk result (λ h. Reads sense MayOpen next_handle self.old h) };

    /// The handle is open no more.
    fn forget(&mut self, handle: Handle)
        ensures { Answers sense Any (noted (without_handle handle)) self.old (Ok unit) self.new };

    /// This policy stands from now on.
    fn set_policy(&mut self, policy: Policy)
        ensures { Answers sense Any (noted (with_policy policy)) self.old (Ok unit) self.new };

    /// A provider is there, or none.
    fn set_connected(&mut self, on: bool)
        ensures { Answers sense Any (noted (with_link on)) self.old (Ok unit) self.new };

    /// All waits end, and all asks without a line, but for what that tells.
    fn take_down(&mut self) -> Result<Moves, CallError>
        ensures does { Answers sense Any (noted (with_waiting (downed (waiting self.old)).1)) self.old (whether result) self.new }
        ensures moves { IfOk result (λ m. m ≡ moved_of None (downed (waiting self.old)).0) };

    /// Whether nothing is open and nothing waits.
    fn is_idle(&self) -> bool
        ensures { Reads sense Any is_idle self.now result };

    /// Whether the entries of a directory are not known.
    fn has_unlisted(&self) -> bool
        ensures { Reads sense Any has_unlisted self.now result };

    /// The clock of a file's last access, 0 of none.
    fn last_access(&self, item: ItemId) -> u64
        ensures { Reads sense Any (last_access item) self.now result };

    /// The blocks that are used, and those that there are.
    fn used_blocks(&self) -> (u32, u32)
        ensures { Reads sense Any used_blocks self.now result };

    /// Commits all that was done.
    fn commit(&mut self) -> Result<(), CallError>
        ensures { Answers sense Any (in_volume commit) self.old result self.new };

    /// How many changes there are.
    fn count(&self) -> u64
        ensures { Reads sense Any count_now self.now result };

    /// Tells how a wait ended, which is on a file where it reads.
    fn end_wait(&mut self, ended: &(Wait, Cause)) -> Result<(), CallError>
        ensures { Answers sense (IsEndOnFile ended.now) (end_wait ended.now) self.old result self.new };

    /// Tells which asks were cancelled, and which were made. Their callbacks are still to be called.
    fn tell_asks(&mut self, cancelled: &[Key], asks: &[Ask]) -> Result<(), CallError>
        ensures { Answers sense Any (noted (with_asks cancelled.now asks.now)) self.old result self.new };

    /// What waits and is asked is known.
    ghost waits: { (x : Self) (s : Filter) → sense.means x s → waiting x ≡ s.waiting };
}
