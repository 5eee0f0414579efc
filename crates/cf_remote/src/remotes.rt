//! What a remote is to those who ask it.

ghost use Rattle.cf_remote.specs.Entries.{FindsEntry};
ghost use Rattle.cf_remote.specs.Told.{Asks, Told};
ghost use Rattle.cf_wire.specs.Spelled.{HasRoom};

use crate::ask_errors::AskError;
use crate::entries::{found_in, list_of};
use crate::find_errors::FindError;
use cf_base::{Entry, Reply, Request, Rid};
use std::alloc::Global;

/// A remote: it holds items, and does requests.
pub trait Remote {
    /// What it tells: what it holds, how often it was asked, which asks fail, and how often it failed.
    ghost told: { Self → Told };

    /// Does a request and gives the reply, both with names of at most 255 bytes and fewer than 4,294,967,296 bytes or
    /// entries. A Fault is answered only where the count of faults rose, and then what it holds is as before. At OutOfMemory all
    /// is as before.
    fn ask(&mut self, q: &Request) -> Result<Reply, AskError>
        requires { HasRoom q.now }
        ensures { Asks q.now (told self.old) result (told self.new) };

    /// As `ask`, of a request that is handed over. This body lends it; a remote that keeps the bytes of a put gives its own, and
    /// need not copy them.
    fn ask_owned(&mut self, q: Request) -> Result<Reply, AskError>
        requires { HasRoom q }
        ensures { Asks q (told self.old) result (told self.new) }
    {
        let reply = self.ask(&q);
        drop(q);
        reply
    }

    /// The entry of a name in a directory, as a List of the directory and a search among its entries give it. It is one
    /// ask, and fails as one. This body makes the listing; a remote that has an index gives its own. A Fault is answered
    /// only where the count of faults rose, and then what the remote holds is as before. Stray has the reply, where that does
    /// not fit the List or is no listing. At OutOfMemory all is as before, or the ask was made.
    fn find(
        &mut self,
        alloc: Global,
        directory: Rid,
        name: &[u8],
    ) -> Result<Option<Entry>, FindError>
        ensures { FindsEntry directory name.now (told self.old) result (told self.new) }
    {
        let request = list_of(directory);
        let asked = self.ask(&request);
        drop(request);
        let reply = asked?;
        found_in(alloc, directory, reply, name)
    }
}
