//! A remote of which listed calls fail.

ghost use Rattle.std.specs.Prelude.{◌≡◌, Some, IfOk};

use crate::ask_errors::AskError;
use crate::find_errors::FindError;
use crate::remotes::Remote;
use crate::store_remotes::StoreRemote;
use cf_base::{Entry, OutOfMemory, Reply, Request, Rid};
use std::alloc::Global;
use std::marker::Model;

/// A remote in memory of which the listed calls fail, counted from 1. They do nothing.
#[derive(Drop)]
pub struct FlakyRemote {
    inner: StoreRemote,
    fails: Vec<u64>,
    asks: u64,
    faults: u64,
}

impl Model for FlakyRemote {
    ghost use Rattle.std.specs.Prelude.{Some};
    ghost use Rattle.cf_remote.specs.Told.{Told};

    ghost Value = { Told };

    ghost view = { λ r. record { held = Some r.inner.held; asks = Some r.asks; fails = Some r.fails.items; faults = r.faults } };
}

impl FlakyRemote {
    /// What the remote holds, where the listed calls fail, counted from 1 on from here.
    pub fn new(alloc: Global, inner: StoreRemote, fails: &[u64]) -> Result<FlakyRemote, OutOfMemory>
        ensures { IfOk result (λ r. r ≡ record { held = Some inner.held; asks = Some 0; fails = Some fails.now; faults = 0 }) }
    {
        let Ok(fails) = Vec::from_slice(alloc, fails) else {
            drop(inner);
            return Err(OutOfMemory);
        };
        Ok(FlakyRemote {
            inner,
            fails,
            asks: 0,
            faults: 0,
        })
    }
}

impl Remote for FlakyRemote {
    ghost told = { λ r. r };

    fn ask(&mut self, q: &Request) -> Result<Reply, AskError> {
        let next = self.asks.saturating_add(1);
        if self.fails.contains(&next) {
            self.asks = next;
            self.faults = self.faults.saturating_add(1);
            return Err(AskError::Fault);
        }
        let reply = self.inner.ask(q)?;
        self.asks = next;
        Ok(reply)
    }

    fn find(
        &mut self,
        alloc: Global,
        directory: Rid,
        name: &[u8],
    ) -> Result<Option<Entry>, FindError> {
        let next = self.asks.saturating_add(1);
        if self.fails.contains(&next) {
            self.asks = next;
            self.faults = self.faults.saturating_add(1);
            return Err(FindError::Fault);
        }
        match self.inner.find(alloc, directory, name) {
            Ok(found) => {
                self.asks = next;
                Ok(found)
            }
            Err(FindError::Stray(reply)) => {
                self.asks = next;
                Err(FindError::Stray(reply))
            }
            Err(FindError::Fault) => Err(FindError::Fault),
            Err(FindError::OutOfMemory) => Err(FindError::OutOfMemory),
        }
    }
}
