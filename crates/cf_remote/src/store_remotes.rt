//! The remote in memory, which never fails.

ghost use Rattle.std.specs.Prelude.{◌≡◌, [], Some, IfOk};
ghost use Rattle.cf_model.specs.Store.{empty_remote};

use crate::ask_errors::AskError;
use crate::find_errors::FindError;
use crate::remotes::Remote;
use crate::stores::Store;
use cf_base::{Entry, Key, OutOfMemory, Reply, Request, Rid};
use std::alloc::Global;
use std::marker::Model;

/// A remote in memory. It never fails. Contracts see what it holds, and how often it was asked.
#[derive(Drop)]
pub struct StoreRemote {
    store: Store,
    asks: u64,
}

impl Model for StoreRemote {
    ghost use Rattle.cf_remote.specs.Listable.{AreListable};
    ghost use Rattle.cf_remote.specs.Told.{Asked};

    ghost Value = { Asked };

    ghost view = { λ r. record { held = r.store; asks = r.asks } };

    ghost invariant = { λ r. AreListable r.store };
}

impl StoreRemote {
    /// A remote with its root alone, the live directory 1. It keeps its allocator.
    pub fn new(alloc: Global) -> Result<StoreRemote, OutOfMemory>
        ensures { IfOk result (λ r. r ≡ record { held = empty_remote; asks = 0 }) }
    {
        let store = Store::new(alloc)?;
        Ok(StoreRemote { store, asks: 0 })
    }
}

impl Remote for StoreRemote {
    ghost told = { λ r. record { held = Some r.held; asks = Some r.asks; fails = Some []; faults = 0 } };

    /// It copies the request.
    fn ask(&mut self, q: &Request) -> Result<Reply, AskError> {
        let q = q.copy()?;
        self.ask_owned(q)
    }

    /// It keeps the bytes of a put, and does not copy them.
    fn ask_owned(&mut self, q: Request) -> Result<Reply, AskError> {
        let reply = self.store.step(q)?;
        self.asks = self.asks.saturating_add(1);
        Ok(reply)
    }

    /// By a binary search. It makes no listing.
    fn find(
        &mut self,
        _alloc: Global,
        directory: Rid,
        name: &[u8],
    ) -> Result<Option<Entry>, FindError> {
        if !self.store.is_listed(directory) {
            self.asks = self.asks.saturating_add(1);
            let key = Key {
                epoch: 0,
                number: 0,
            };
            return Err(FindError::Stray(Reply::Missing { key }));
        }
        let found = self.store.find(directory, name)?;
        self.asks = self.asks.saturating_add(1);
        Ok(found)
    }
}
