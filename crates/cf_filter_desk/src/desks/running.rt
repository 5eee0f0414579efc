//! What a call does to the desk as it begins and ends.

ghost use Rattle.std.specs.Prelude.{◌≡◌, ◌∷◌, [], List, None, true, IfNone, IfSome};
ghost use Rattle.cf_base.specs.declared.waits.Ask.{Ask};

use super::Desk;
use cf_base::{Ask, End, Notes};
use std::mem;

impl Desk {
    /// The desk's notes for others.
    pub fn swap_notes(&mut self, notes: &mut Notes)
        ensures desk { self.new ≡ record self.old { notes = notes.old } }
        ensures notes { notes.new ≡ self.old.notes }
    {
        mem::swap(&mut self.notes, notes);
    }

    /// Whether a call broke the filter.
    pub fn set_broken(&mut self, broken: bool)
        ensures { self.new ≡ record self.old { broken = broken } }
    {
        self.broken = broken;
    }

    /// A call was stopped, by lack of memory where that is said.
    pub fn stop(&mut self, lost: bool)
        ensures { self.new ≡ record self.old { broken = true; lost = lost } }
    {
        self.broken = true;
        self.lost = lost;
    }

    /// Whether memory ran out.
    pub fn is_lost(&self) -> bool
        ensures { result ≡ self.now.lost }
    {
        self.lost
    }

    /// The ask whose callback is called next, which is left out then.
    pub fn next_ask(&mut self) -> Option<Ask>
        ensures some { IfSome result (λ ask. (rest : List Ask) × (self.old.outbox ≡ ask ∷ rest) × (self.new ≡ record self.old { outbox = rest })) }
        ensures none { IfNone result ((self.old.outbox ≡ []) × (self.new ≡ self.old)) }
    {
        self.outbox.pop_front()
    }

    /// The call is over. Gives the end of the wait that it made, where that ended.
    pub fn end_call(&mut self) -> Option<End>
        ensures value { result ≡ self.old.ending }
        ensures desk { self.new ≡ record self.old { own = None; ending = None } }
    {
        self.own = None;
        self.ending.take()
    }
}
