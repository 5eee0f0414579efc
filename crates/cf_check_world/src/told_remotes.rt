//! A remote that fails where a report says that it did.

ghost use Rattle.std.specs.Prelude.{◌≡◌, IfOk};
ghost use Rattle.cf_model.specs.Store.{empty_remote};

use cf_base::{Entry, OutOfMemory, Reply, Request, Rid};
use cf_remote::{AskError, FindError, Remote, StoreRemote};
use std::alloc::Global;
use std::marker::Model;

/// A remote in memory that is told of each ask whether it fails. One that fails does nothing. It reports what it holds and how often it
/// failed, and neither how often it was asked nor which asks fail.
#[derive(Drop)]
pub struct ToldRemote {
    inner: StoreRemote,
    fails: Vec<bool>,
    next: usize,
    faults: u64,
}

impl Model for ToldRemote {
    ghost use Rattle.cf_check_world.specs.Remotes.{Failing};

    ghost Value = { Failing };

    ghost view = { λ r. record { held = r.inner.held; faults = r.faults } };
}

impl ToldRemote {
    /// An empty remote, of which no ask fails.
    pub fn new(alloc: Global) -> Result<ToldRemote, OutOfMemory>
        ensures { IfOk result (λ r. r ≡ record { held = empty_remote; faults = 0 }) }
    {
        let inner = StoreRemote::new(alloc)?;
        Ok(ToldRemote {
            inner,
            fails: Vec::new(alloc),
            next: 0,
            faults: 0,
        })
    }

    /// The same remote, whose next asks fail or not, in turn. Those after them do not fail. Takes no memory.
    pub fn with_tellings(self, fails: Vec<bool>) -> ToldRemote
        ensures { result ≡ self }
    {
        let ToldRemote { inner, faults, .. } = self;
        ToldRemote {
            inner,
            fails,
            next: 0,
            faults,
        }
    }

    // Whether the next ask fails.
    fn takes_telling(&mut self) -> bool
        ensures { self.new ≡ self.old }
    {
        match self.fails.get(self.next) {
            Some(fails) => {
                self.next += 1;
                *fails
            }
            None => false,
        }
    }
}

impl Remote for ToldRemote {
    ghost use Rattle.cf_check_world.specs.Remotes.{told_by};

    ghost told = { told_by };

    fn ask(&mut self, q: &Request) -> Result<Reply, AskError> {
        if self.takes_telling() {
            self.faults = self.faults.saturating_add(1);
            return Err(AskError::Fault);
        }
        self.inner.ask(q)
    }

    fn find(
        &mut self,
        alloc: Global,
        directory: Rid,
        name: &[u8],
    ) -> Result<Option<Entry>, FindError> {
        if self.takes_telling() {
            self.faults = self.faults.saturating_add(1);
            return Err(FindError::Fault);
        }
        self.inner.find(alloc, directory, name)
    }
}
