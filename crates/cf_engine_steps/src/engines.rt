//! What an engine has of its own.

ghost use Rattle.std.specs.Prelude.{◌≡◌, IfOk, None, OnErr, OnOk, false, nat_le, not, true};
ghost use Rattle.cf_base.specs.declared.notices.Frame.TheVariants as frame;
ghost use Rattle.cf_engine_queue.specs.Books.{entry_value};
ghost use Rattle.cf_engine_steps.specs.States.{event_begun, with_clock_of, with_link_of, with_skip_counted, with_skips_shown, with_took_done, with_volatile_of};
ghost use Rattle.cf_link.specs.Linked.{Does, Posts, Rises, posted_line};
ghost use Rattle.cf_model.specs.Feeds.{all_released};
ghost use Rattle.cf_model.specs.Messages.{come};
ghost use Rattle.cf_model.specs.Numbers.{most};
ghost use Rattle.cf_model.specs.Passes.{with_round};
ghost use Rattle.cf_model.specs.PushReplies.{held_and_closed, not_in_row, round_closed, taken_from_row, with_not_empty, with_taken_name};
ghost use Rattle.cf_model.specs.Pushes.{with_token};
ghost use Rattle.cf_model.specs.State.{fresh};
ghost use Rattle.cf_wire.specs.Spelled.{HasRoom};

use crate::volatiles::Volatile;
use cf_base::{ItemId, OutOfMemory, Request, Usn, no_such_state};
use cf_engine_provider::Agent;
use cf_engine_queue::QueueEntry;
use cf_link::{Came, Link, Posted};
use cf_remote::Remote;
use std::alloc::Global;
use std::marker::Model;

/// The engine's own provider, which has the link to the remote; what the engine knows of the running event: whether a Done was taken, and
/// the clock of the first feed that was applied; and what it knows until the volume is opened again.
#[derive(Drop)]
pub struct Engine<R: Remote> {
    pub(crate) agent: Agent<R>,
    pub(crate) took_done: bool,
    pub(crate) first_clock: Option<u64>,
    pub(crate) volatile: Volatile,
}

impl<R: Remote> Model for Engine<R> {
    ghost use Rattle.cf_engine_steps.specs.States.{Own};

    ghost Value = { Own R };

    ghost view = { λ e. record { agent = e.agent; took_done = e.took_done; first_clock = e.first_clock; volatile = e.volatile } };
}

impl<R: Remote> Engine<R> {
    /// An engine on this link, of a volume that was just opened. Takes no memory.
    pub fn new(alloc: Global, link: Link<R>) -> Engine<R>
        ensures { result ≡ record { agent = record { link = link; shows_skips = false; skips = 0 }; took_done = false; first_clock = None; volatile = fresh } }
    {
        Engine {
            agent: Agent::new(alloc, link, false),
            took_done: false,
            first_clock: None,
            volatile: Volatile::new(alloc),
        }
    }

    /// An event begins, of which nothing is known yet. A step that is left out has no line in it.
    pub fn begin(&mut self)
        ensures { self.new ≡ event_begun self.old }
    {
        self.agent.begin(false);
        self.took_done = false;
        self.first_clock = None;
    }

    /// A step that is left out has a line in the running event, in which none was left out so far. One in which a step was left out
    /// already never asks for it: then it is out of memory, and all is as before.
    pub fn show_skips(&mut self) -> Result<(), OutOfMemory>
        ensures ok { OnOk result (self.new ≡ with_skips_shown self.old) }
        ensures err { OnErr result (self.new ≡ self.old) }
    {
        if self.agent.skips() != 0 {
            return Err(no_such_state());
        }
        self.agent.begin(true);
        Ok(())
    }

    /// The link to the remote.
    pub fn link(&self) -> &Link<R>
        ensures { result.now ≡ self.now.agent.link }
    {
        self.agent.link()
    }

    /// Whether a step that is left out has a line in the running event.
    pub fn shows_skips(&self) -> bool
        ensures { result ≡ self.now.agent.shows_skips }
    {
        self.agent.shows_skips()
    }

    /// How many steps were left out in the running event.
    pub fn skips(&self) -> u64
        ensures { result ≡ self.now.agent.skips }
    {
        self.agent.skips()
    }

    /// Whether a Done was taken in the running event.
    pub fn took_done(&self) -> bool
        ensures { result ≡ self.now.took_done }
    {
        self.took_done
    }

    /// The clock of the first feed that was applied in the running event.
    pub fn first_clock(&self) -> Option<u64>
        ensures { result ≡ self.now.first_clock }
    {
        self.first_clock
    }

    /// What is known until the volume is opened again.
    pub fn volatile(&self) -> &Volatile
        ensures { result.now ≡ self.now.volatile }
    {
        &self.volatile
    }

    /// A Done is taken in the running event.
    pub fn note_done(&mut self)
        ensures { self.new ≡ with_took_done true self.old }
    {
        self.took_done = true;
    }

    /// Forgets that a Done was taken, as before each pass.
    pub fn without_done(&mut self)
        ensures { self.new ≡ with_took_done false self.old }
    {
        self.took_done = false;
    }

    /// A feed with this clock is applied. Only the first of the event is kept.
    pub fn see_clock(&mut self, clock: u64)
        ensures { self.new ≡ with_clock_of clock self.old }
    {
        if self.first_clock.is_none() {
            self.first_clock = Some(clock);
        }
    }

    /// The reply to the latest round counts no more.
    pub fn close_round(&mut self)
        ensures { self.new ≡ with_volatile_of round_closed self.old }
    {
        self.volatile.close_round();
    }

    /// The entry was answered: closes the latest round, and forgets what its item or tombstone was refused for last time.
    pub fn take_from_row(&mut self, entry: &QueueEntry)
        ensures { self.new ≡ with_volatile_of (taken_from_row (entry_value entry.now)) self.old }
    {
        self.volatile.close_round();
        self.volatile.leave_row(entry);
    }

    /// Forgets that the name of the entry's item was taken last time, or that the directory of its tombstone was not empty.
    pub fn leave_row(&mut self, entry: &QueueEntry)
        ensures { self.new ≡ with_volatile_of (not_in_row (entry_value entry.now)) self.old }
    {
        self.volatile.leave_row(entry);
    }

    /// Holds the entry's item or tombstone back until a feed, and closes the latest round. Without memory all is as before.
    pub fn hold_back(&mut self, entry: &QueueEntry) -> Result<(), OutOfMemory>
        ensures ok { OnOk result (self.new ≡ with_volatile_of (held_and_closed (entry_value entry.now)) self.old) }
        ensures err { OnErr result (self.new ≡ self.old) }
    {
        self.volatile.hold_back(entry)
    }

    /// The item's upload was refused as its name was taken. Without memory all is as before.
    pub fn note_name_taken(&mut self, item: ItemId) -> Result<(), OutOfMemory>
        ensures ok { OnOk result (self.new ≡ with_volatile_of (with_taken_name item) self.old) }
        ensures err { OnErr result (self.new ≡ self.old) }
    {
        self.volatile.note_name_taken(item)
    }

    /// The removal of the tombstone with this number was refused as the directory was not empty. Without memory all is as before.
    pub fn note_not_empty(&mut self, number: Usn) -> Result<(), OutOfMemory>
        ensures ok { OnOk result (self.new ≡ with_volatile_of (with_not_empty number) self.old) }
        ensures err { OnErr result (self.new ≡ self.old) }
    {
        self.volatile.note_not_empty(number)
    }

    /// Nothing is held back any more.
    pub fn release_all(&mut self)
        ensures { self.new ≡ with_volatile_of all_released self.old }
    {
        self.volatile.release_all();
    }

    /// Draws a token. False where none is left, at 2^32 - 1, and then nothing is changed.
    pub(crate) fn draw_token(&mut self) -> bool
        ensures left { result ≡ not (nat_le most self.old.volatile.tokens) }
        ensures drawn { result ≡ true → self.new ≡ with_volatile_of with_token self.old }
        ensures none { result ≡ false → self.new ≡ self.old }
    {
        self.volatile.draw_token()
    }

    /// Draws a round, whose reply counts from now on. False where none is left, at 2^32 - 1, and then nothing is changed.
    pub(crate) fn draw_round(&mut self) -> bool
        ensures left { result ≡ not (nat_le most self.old.volatile.rounds) }
        ensures drawn { result ≡ true → self.new ≡ with_volatile_of with_round self.old }
        ensures none { result ≡ false → self.new ≡ self.old }
    {
        self.volatile.draw_round()
    }

    /// Counts a step that is left out. Without a number for it, at 2^64 - 1, it is out of memory and the count stays.
    pub(crate) fn count_skip(&mut self) -> Result<(), OutOfMemory>
        ensures ok { OnOk result (self.new ≡ with_skip_counted self.old) }
        ensures err { OnErr result (self.new ≡ self.old) }
    {
        self.agent.count_skip()
    }

    /// Posts a request. Its line is still to be noted.
    pub(crate) fn post(&mut self, request: Request) -> Result<Posted, OutOfMemory>
        requires { HasRoom request }
        ensures posts { IfOk result (λ p. Posts R.told (frame.Request request) self.old.agent.link p self.new.agent.link) }
        ensures line { IfOk result (λ p. p.line ≡ posted_line (frame.Request request) p) }
        ensures remote { self.new.agent.link.remote ≡ self.old.agent.link.remote }
        ensures rest { self.new ≡ with_link_of self.new.agent.link self.old }
        ensures err { OnErr result (self.new ≡ self.old) }
    {
        self.agent.post(request)
    }

    /// Whether requests come to the remote as they are sent.
    pub(crate) fn is_inline(&self) -> bool
        ensures { result ≡ self.now.agent.link.inline }
    {
        self.agent.link().is_inline()
    }

    /// A request comes to the remote. The line of its reply, or of a fault, is still to be noted.
    pub(crate) fn come(&mut self, number: u32, request: &Request) -> Result<Came, OutOfMemory>
        requires { HasRoom request.now }
        ensures does { IfOk result (λ c. Does R.told (come number request.now) self.old.agent.link c.reply c.line self.new.agent.link) }
        ensures rises { IfOk result (λ c. Rises c.line (R.told self.old.agent.link.remote) (R.told self.new.agent.link.remote)) }
        ensures rest { self.new ≡ with_link_of self.new.agent.link self.old }
    {
        self.agent.come(number, request)
    }
}
