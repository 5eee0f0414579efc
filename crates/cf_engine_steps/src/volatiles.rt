//! What an engine knows until the volume is opened again.

ghost use Rattle.std.specs.Prelude.{◌≡◌, ◌+◌, ◌∷◌, false, nat_le, not, true, OnErr, OnOk};
ghost use Rattle.cf_engine_queue.specs.Books.{action_of, entry_value};
ghost use Rattle.cf_model.specs.Feeds.{all_released};
ghost use Rattle.cf_model.specs.Numbers.{most};
ghost use Rattle.cf_model.specs.Passes.{with_round};
ghost use Rattle.cf_model.specs.PushReplies.{has_item, has_number, held_and_closed, held_back, is_removal_by, not_in_row, round_closed, with_not_empty, with_taken_name, without_item, without_number};
ghost use Rattle.cf_model.specs.Pushes.{with_token};
ghost use Rattle.cf_model.specs.State.{fresh};

use cf_base::limits::MOST_NUMBER;
use cf_base::{ItemId, OutOfMemory, Usn};
use cf_engine_queue::{Action, QueueEntry};
use cf_table::same_usn;
use std::alloc::Global;
use std::marker::Model;

/// How many rounds and tokens the epoch has given, whether the reply to the latest round still counts, what is held back until a feed,
/// and what was refused once before.
#[derive(Drop)]
pub struct Volatile {
    rounds: u32,
    round_open: bool,
    tokens: u32,
    held_items: Vec<ItemId>,
    held_tombstones: Vec<Usn>,
    taken_names: Vec<ItemId>,
    not_empty: Vec<Usn>,
}

impl Model for Volatile {
    ghost use Rattle.cf_model.specs.State as state;

    ghost Value = { state.Volatile };

    ghost view = { λ v. record { rounds = v.rounds; round_open = v.round_open; tokens = v.tokens; held_items = v.held_items.items; held_tombstones = v.held_tombstones.items; taken_names = v.taken_names.items; not_empty = v.not_empty.items } };
}

fn has_item(items: &[ItemId], item: ItemId) -> bool
    ensures { result ≡ has_item items.now item }
{
    items.iter().any(|one| one.0 == item.0)
}

fn has_number(numbers: &[Usn], number: Usn) -> bool
    ensures { result ≡ has_number numbers.now number }
{
    numbers.iter().any(|one| same_usn(number, *one))
}

fn remove_item(items: &mut Vec<ItemId>, item: ItemId)
    ensures { items.new.items ≡ without_item item items.old.items }
{
    items.retain(|one| one.0 != item.0);
}

fn remove_number(numbers: &mut Vec<Usn>, number: Usn)
    ensures { numbers.new.items ≡ without_number number numbers.old.items }
{
    numbers.retain(|one| !same_usn(number, *one));
}

fn put_item(items: &mut Vec<ItemId>, item: ItemId) -> Result<(), OutOfMemory>
    ensures ok { OnOk result (items.new.items ≡ item ∷ items.old.items) }
    ensures err { OnErr result (items.new.items ≡ items.old.items) }
{
    items.insert(0, item)?;
    Ok(())
}

fn put_number(numbers: &mut Vec<Usn>, number: Usn) -> Result<(), OutOfMemory>
    ensures ok { OnOk result (numbers.new.items ≡ number ∷ numbers.old.items) }
    ensures err { OnErr result (numbers.new.items ≡ numbers.old.items) }
{
    numbers.insert(0, number)?;
    Ok(())
}

fn is_removal(action: Action) -> bool
    ensures { result ≡ is_removal_by (action_of action) }
{
    match action {
        Action::Remove => true,
        Action::Put | Action::MakeDir | Action::Move => false,
    }
}

impl Volatile {
    /// Nothing is known yet. Takes no memory.
    pub fn new(alloc: Global) -> Volatile
        ensures { result ≡ fresh }
    {
        Volatile {
            rounds: 0,
            round_open: false,
            tokens: 0,
            held_items: Vec::new(alloc),
            held_tombstones: Vec::new(alloc),
            taken_names: Vec::new(alloc),
            not_empty: Vec::new(alloc),
        }
    }

    /// How many rounds the epoch has given.
    pub fn rounds(&self) -> u32
        ensures { result ≡ self.now.rounds }
    {
        self.rounds
    }

    /// Whether the reply to the latest round still counts.
    pub fn is_round_open(&self) -> bool
        ensures { result ≡ self.now.round_open }
    {
        self.round_open
    }

    /// How many tokens the epoch has given.
    pub fn tokens(&self) -> u32
        ensures { result ≡ self.now.tokens }
    {
        self.tokens
    }

    /// Whether the item is held back until a feed.
    pub fn holds_item(&self, item: ItemId) -> bool
        ensures { result ≡ has_item self.now.held_items item }
    {
        has_item(&self.held_items, item)
    }

    /// Whether the tombstone with this number is held back until a feed.
    pub fn holds_tombstone(&self, number: Usn) -> bool
        ensures { result ≡ has_number self.now.held_tombstones number }
    {
        has_number(&self.held_tombstones, number)
    }

    /// Whether the latest upload of the item was refused as its name was taken.
    pub fn was_name_taken(&self, item: ItemId) -> bool
        ensures { result ≡ has_item self.now.taken_names item }
    {
        has_item(&self.taken_names, item)
    }

    /// Whether the latest removal of the tombstone's directory was refused as it was not empty.
    pub fn was_not_empty(&self, number: Usn) -> bool
        ensures { result ≡ has_number self.now.not_empty number }
    {
        has_number(&self.not_empty, number)
    }

    // The reply to the latest round counts no more.
    pub(crate) fn close_round(&mut self)
        ensures { self.new ≡ round_closed self.old }
    {
        self.round_open = false;
    }

    // Forgets that the name of the entry's item was taken last time, or that the directory of its tombstone was not empty.
    pub(crate) fn leave_row(&mut self, entry: &QueueEntry)
        ensures { self.new ≡ not_in_row (entry_value entry.now) self.old }
    {
        if is_removal(entry.action) {
            remove_number(&mut self.not_empty, entry.number);
        } else {
            remove_item(&mut self.taken_names, entry.item);
        }
    }

    fn hold(&mut self, entry: &QueueEntry) -> Result<(), OutOfMemory>
        ensures ok { OnOk result (self.new ≡ held_back (entry_value entry.now) self.old) }
        ensures err { OnErr result (self.new ≡ self.old) }
    {
        if is_removal(entry.action) {
            put_number(&mut self.held_tombstones, entry.number)
        } else {
            put_item(&mut self.held_items, entry.item)
        }
    }

    // The entry's item or tombstone is held back until a feed, and the latest round is closed.
    pub(crate) fn hold_back(&mut self, entry: &QueueEntry) -> Result<(), OutOfMemory>
        ensures ok { OnOk result (self.new ≡ held_and_closed (entry_value entry.now) self.old) }
        ensures err { OnErr result (self.new ≡ self.old) }
    {
        self.hold(entry)?;
        self.close_round();
        Ok(())
    }

    pub(crate) fn note_name_taken(&mut self, item: ItemId) -> Result<(), OutOfMemory>
        ensures ok { OnOk result (self.new ≡ with_taken_name item self.old) }
        ensures err { OnErr result (self.new ≡ self.old) }
    {
        put_item(&mut self.taken_names, item)
    }

    pub(crate) fn note_not_empty(&mut self, number: Usn) -> Result<(), OutOfMemory>
        ensures ok { OnOk result (self.new ≡ with_not_empty number self.old) }
        ensures err { OnErr result (self.new ≡ self.old) }
    {
        put_number(&mut self.not_empty, number)
    }

    pub(crate) fn release_all(&mut self)
        ensures { self.new ≡ all_released self.old }
    {
        self.held_items.clear();
        self.held_tombstones.clear();
    }

    // The volume is opened again: nothing is known.
    pub(crate) fn forget(&mut self)
        ensures { self.new ≡ fresh }
    {
        self.rounds = 0;
        self.round_open = false;
        self.tokens = 0;
        self.held_items.clear();
        self.held_tombstones.clear();
        self.taken_names.clear();
        self.not_empty.clear();
    }

    // Draws a token, where one is left.
    pub(crate) fn draw_token(&mut self) -> bool
        ensures left { result ≡ not (nat_le most self.old.tokens) }
        ensures drawn { result ≡ true → self.new ≡ with_token self.old }
        ensures none { result ≡ false → self.new ≡ self.old }
    {
        if self.tokens >= MOST_NUMBER {
            return false;
        }
        self.tokens += 1;
        true
    }

    // Draws a round, where one is left.
    pub(crate) fn draw_round(&mut self) -> bool
        ensures left { result ≡ not (nat_le most self.old.rounds) }
        ensures drawn { result ≡ true → self.new ≡ with_round self.old }
        ensures none { result ≡ false → self.new ≡ self.old }
    {
        if self.rounds >= MOST_NUMBER {
            return false;
        }
        self.rounds += 1;
        self.round_open = true;
        true
    }
}
