//! A port on which providers are tried.
ghost use Rattle.std.specs.Prelude.{◌≡◌, [], IfOk};
ghost use Rattle.cf_model.specs.Requests.{none_waiting};

use crate::outcomes::Outcome;
use crate::ports::Port;
use cf_base::{Ask, CallError, Key, Notice, Operation, OutOfMemory, SeenPath, Sequence};
use cf_table::Rows;
use cf_volume_image::AuxRecords;
use cf_waits::Requests;
use std::alloc::Global;
use std::marker::Model;

/// One thing that a provider did.
#[derive(Drop)]
pub enum Kept {
    /// With the paths that are seen in the same step.
    Done(Operation, Sequence<SeenPath>),
    Note(Notice),
}

/// A port that answers each operation as done, and does nothing but keep what a provider did. No ask is live on it, and it has
/// no auxiliary records.
#[derive(Drop)]
pub struct Recorder {
    acts: Vec<Kept>,
    rows: Rows,
    requests: Requests,
    records: AuxRecords,
}

impl Model for Recorder {
    ghost use Rattle.cf_provider.specs.Recording.{Recorded};

    ghost Value = { Recorded };

    ghost view = { λ r. record { kept = r.acts.items; sight = record { table = r.rows; waiting = r.requests; records = r.records } } };
}

impl Recorder {
    /// Nothing was done yet.
    pub fn new(alloc: Global, rows: Rows) -> Recorder
        ensures { result ≡ record { kept = []; sight = record { table = rows; waiting = none_waiting 1; records = [] } } }
    {
        Recorder {
            acts: Vec::new(alloc),
            rows,
            requests: Requests::new(alloc, 1),
            records: AuxRecords::new(alloc),
        }
    }

    /// What was done, in order.
    pub fn acts(&self) -> &[Kept]
        ensures { result.now ≡ self.now.kept }
    {
        &self.acts
    }
}

fn copies(alloc: Global, seen: &[SeenPath]) -> Result<Sequence<SeenPath>, OutOfMemory>
    ensures { IfOk result (λ s. s ≡ seen.now) }
{
    let mut copies = Sequence::new(alloc);
    for path in seen {
        copies.push(path.copy()?)?;
    }
    Ok(copies)
}

impl Port for Recorder {
    ghost use Rattle.cf_provider.specs.Recording.{Records, records_more, records_none};

    ghost goes = { Records };

    ghost sight = { λ p. p.sight };

    fn execute(&mut self, op: &Operation) -> Result<Outcome, CallError> {
        self.execute_seeing(op, &[])
    }

    fn execute_seeing(&mut self, op: &Operation, seen: &[SeenPath]) -> Result<Outcome, CallError> {
        let alloc = *self.acts.allocator();
        let kept = Kept::Done(op.copy()?, copies(alloc, seen)?);
        self.acts.push(kept)?;
        Ok(Outcome::Done)
    }

    fn note(&mut self, n: Notice) -> Result<(), OutOfMemory> {
        self.acts.push(Kept::Note(n))?;
        Ok(())
    }

    fn rows(&self) -> &Rows {
        &self.rows
    }

    fn ask(&self, key: Key) -> Option<Ask> {
        self.requests.ask(key)
    }

    fn records(&self) -> &AuxRecords {
        &self.records
    }

    ghost stays = { records_none };

    ghost goes_on = { records_more };
}
