//! The summary of a run.

ghost use Rattle.std.specs.Prelude.{◌≡◌, ◌+◌, ◌∷◌, ◌++◌, [], List, count_by, IfOk, OnOk};
ghost use Rattle.cf_base.specs.declared.answers.Answer.{Answer as Answered};
ghost use Rattle.cf_gen.specs.Summaries.{counts_of, is_change, is_refusal, is_resumed, summary_of};

use cf_base::{Answer, Blob, Notice, OutOfMemory, Shown, no_such_state};
use std::alloc::Global;

/// What is counted of events that were answered.
#[derive(Clone, Copy)]
pub struct Counts {
    /// The events.
    pub events: u64,
    /// The results that are refusals.
    pub refused: u64,
    /// The changes that were accepted.
    pub changes: u64,
    /// The restarts that resumed.
    pub restarts: u64,
}

impl Counts {
    /// No events.
    pub fn new() -> Counts
        ensures { result ≡ counts_of [] }
    {
        Counts {
            events: 0,
            refused: 0,
            changes: 0,
            restarts: 0,
        }
    }

    /// Counts one more answer. Answers out of memory where a number is too large for 64 bits, which it is in no run.
    pub fn add(&mut self, answer: &Answer) -> Result<(), OutOfMemory>
        ensures { OnOk result ((answers : List Answered) → self.old ≡ counts_of answers → self.new ≡ counts_of (answers ++ answer.now ∷ [])) }
    {
        self.events = sum(self.events, 1)?;
        self.refused = sum(self.refused, is_refusal(&answer.shown) as u64)?;
        self.changes = sum(self.changes, changes_in(answer.notes.as_slice()))?;
        self.restarts = sum(self.restarts, is_resumed(&answer.shown) as u64)?;
        Ok(())
    }

    /// The five lines of these numbers, and of the blocks that are used.
    pub fn text(&self, alloc: Global, blocks: u32) -> Result<Blob, OutOfMemory>
        ensures { IfOk result (λ t. t ≡ summary_of self.now blocks) }
    {
        let Counts {
            events,
            refused,
            changes,
            restarts,
        } = *self;
        let text = format!(in alloc;
            "events {events}\nrefused {refused}\nchanges {changes}\nrestarts {restarts}\nblocks {blocks}\n"
        )?;
        Ok(Blob::from_slice(alloc, text.as_bytes())?)
    }
}

fn sum(a: u64, b: u64) -> Result<u64, OutOfMemory>
    ensures { IfOk result (λ n. n ≡ a + b) }
{
    match a.checked_add(b) {
        Some(n) => Ok(n),
        None => Err(no_such_state()),
    }
}

fn is_refusal(shown: &Shown) -> bool
    ensures { result ≡ is_refusal shown.now }
{
    matches!(shown, Shown::Refused(_))
}

fn is_resumed(shown: &Shown) -> bool
    ensures { result ≡ is_resumed shown.now }
{
    matches!(shown, Shown::Resumed { .. })
}

fn is_change(notice: &Notice) -> bool
    ensures { result ≡ is_change notice.now }
{
    matches!(notice, Notice::Change { .. })
}

fn changes_in(notes: &[Notice]) -> u64
    ensures { result ≡ count_by is_change notes.now }
{
    let mut count = 0;
    for notice in notes {
        if is_change(notice) {
            count += 1;
        }
    }
    count
}
