//! What the reply to a List has under a name.

ghost use Rattle.std.specs.Prelude.{◌≡◌, IfOk, option_copied, true};
ghost use Rattle.cf_base.specs.declared.ids.Rid.{Rid};
ghost use Rattle.cf_model.specs.Peers.{is_fit, list_of, named};
ghost use Rattle.cf_model.specs.Words.{same};
ghost use Rattle.cf_remote.specs.Entries.{IsFoundIn, IsListed};

use crate::find_errors::FindError;
use cf_base::{Entry, Key, OutOfMemory, Reply, Request, Rid, Sequence};
use cf_wire::{NoItems, fits};
use std::alloc::Global;

/// The request that a look-up in a directory is.
pub(crate) fn list_of(directory: Rid) -> Request
    ensures { result ≡ list_of directory }
{
    let key = Key {
        epoch: 0,
        number: 0,
    };
    Request::List {
        key,
        rid: directory,
    }
}

fn entries_of(reply: Reply) -> Result<Sequence<Entry>, FindError>
    ensures { IsListed reply result }
{
    match reply {
        Reply::Listing { entries, .. } => Ok(entries),
        Reply::Feed { .. } => Err(FindError::Stray(reply)),
        Reply::Bytes { .. } => Err(FindError::Stray(reply)),
        Reply::Missing { .. } => Err(FindError::Stray(reply)),
        Reply::Done { .. } => Err(FindError::Stray(reply)),
        Reply::Void { .. } => Err(FindError::Stray(reply)),
        Reply::Refused { .. } => Err(FindError::Stray(reply)),
        Reply::Gone { .. } => Err(FindError::Stray(reply)),
    }
}

fn is_named(entry: &Entry, name: &[u8]) -> bool
    ensures { result ≡ same entry.now.name name.now }
{
    entry.name.as_slice() == name
}

/// The entry of this name.
fn named<'a>(entries: &'a [Entry], name: &[u8]) -> Option<&'a Entry>
    ensures { option_copied result ≡ named name.now entries.now }
{
    entries.iter().find(|entry| is_named(entry, name))
}

/// The entry of this name in the listing that the reply is.
pub(crate) fn found_in(
    alloc: Global,
    directory: Rid,
    reply: Reply,
    name: &[u8],
) -> Result<Option<Entry>, FindError>
    ensures { IsFoundIn directory name.now reply result }
{
    let Ok(fit) = fits_list(alloc, directory, &reply) else {
        drop(reply);
        return Err(FindError::OutOfMemory);
    };
    if fit {
        found_fit(reply, name)
    } else {
        Err(FindError::Stray(reply))
    }
}

/// Whether a reply fits a List of the directory.
fn fits_list(alloc: Global, directory: Rid, reply: &Reply) -> Result<bool, OutOfMemory>
    ensures { IfOk result (λ b. b ≡ is_fit (list_of directory) reply.now) }
{
    let request = list_of(directory);
    let fit = fits(alloc, &NoItems, Rid(0), &request, reply);
    drop(request);
    fit
}

/// The entry of this name in a reply that fits a List of the directory.
fn found_fit(reply: Reply, name: &[u8]) -> Result<Option<Entry>, FindError>
    ensures { (rid : Rid) → is_fit (list_of rid) reply ≡ true → IsFoundIn rid name.now reply result }
{
    match entries_of(reply) {
        Ok(entries) => {
            let found = copy_named(entries.as_slice(), name);
            drop(entries);
            match found {
                Ok(entry) => Ok(entry),
                Err(_) => Err(FindError::OutOfMemory),
            }
        }
        Err(fail) => Err(fail),
    }
}

/// A copy of the entry of this name.
fn copy_named(entries: &[Entry], name: &[u8]) -> Result<Option<Entry>, OutOfMemory>
    ensures { IfOk result (λ e. e ≡ named name.now entries.now) }
{
    match named(entries, name) {
        None => Ok(None),
        Some(entry) => Ok(Some(entry.copy()?)),
    }
}
