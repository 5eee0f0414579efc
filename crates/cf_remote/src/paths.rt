//! What stands at the paths of a peer event: one look-up for each directory on the way.

ghost use Rattle.std.specs.Prelude.{◌≡◌, ◌≤◌, ℕ, List, IfOk, None, length};
ghost use Rattle.cf_base.specs.declared.messages.Entry.{Entry};
ghost use Rattle.cf_model.specs.LookUp.{bad_names, names_of};
ghost use Rattle.cf_model.specs.Peers.{at_parent, at_path, below_root, if_found, in_dir, listing, look, named, root_entry};
ghost use Rattle.cf_remote.specs.LookUps.{DoesPart, parent_of};

use crate::remotes::Remote;
use crate::stops::Stop;
use cf_base::{Blob, Code, Entry, Rid, Version};
use cf_tree::{Names, bad_path};
use std::alloc::Global;

/// The entry of this name in a directory, by one request.
pub(crate) fn child<R: Remote>(
    alloc: Global,
    remote: &mut R,
    directory: Rid,
    name: &[u8],
) -> Result<Option<Entry>, Stop>
    ensures { DoesPart (λ f. listing directory (λ es. f (named name.now es))) (λ e. e) (R.told remote.old) result (R.told remote.new) }
{
    let found = remote.find(alloc, directory, name)?;
    Ok(found)
}

fn root(alloc: Global) -> Entry
    ensures { result ≡ root_entry }
{
    Entry {
        rid: Rid(1),
        parent: Rid(0),
        name: Blob::from_vec(Vec::new(alloc)),
        dir: true,
        live: true,
        version: Version(0),
        len: 0,
        changed: 0,
    }
}

/// What stands under this name in what may be a directory.
fn step<R: Remote>(alloc: Global, remote: &mut R, at: &Entry, name: &[u8]) -> Result<Entry, Stop>
    ensures { DoesPart (λ f. in_dir at.now (listing at.now.rid (λ es. if_found f (named name.now es)))) (λ e. e) (R.told remote.old) result (R.told remote.new) }
{
    if !at.dir {
        return Err(Stop::Refused(Code::NotDirectory));
    }
    let found = child(alloc, remote, at.rid, name)?;
    match found {
        None => Err(Stop::Refused(Code::NotFound)),
        Some(entry) => Ok(entry),
    }
}

fn walk<R: Remote>(alloc: Global, remote: &mut R, path: &str) -> Result<Entry, Stop>
    ensures { DoesPart (λ f. look f root_entry (names_of path.now)) (λ e. e) (R.told remote.old) result (R.told remote.new) }
{
    let mut at = root(alloc);
    let mut names = Names::of(path);
    while let Some(name) = names.next() {
        at = step(alloc, remote, &at, name.as_bytes())?;
    }
    Ok(at)
}

/// What stands at a path.
pub(crate) fn look_up<R: Remote>(alloc: Global, remote: &mut R, path: &str) -> Result<Entry, Stop>
    ensures { DoesPart (at_path (names_of path.now)) (λ e. e) (R.told remote.old) result (R.told remote.new) }
{
    if let Some(code) = bad_path(path) {
        return Err(Stop::Refused(code));
    }
    walk(alloc, remote, path)
}

/// What stands at a path that is not the root's.
pub(crate) fn below_root<R: Remote>(
    alloc: Global,
    remote: &mut R,
    path: &str,
) -> Result<Entry, Stop>
    ensures { DoesPart (below_root (names_of path.now)) (λ e. e) (R.told remote.old) result (R.told remote.new) }
{
    if Names::of(path).is_empty() {
        return Err(Stop::Refused(Code::BadPath));
    }
    look_up(alloc, remote, path)
}

fn walk_to_parent<'a, R: Remote>(
    alloc: Global,
    remote: &mut R,
    path: &'a str,
) -> Result<(Entry, &'a str), Stop>
    requires { bad_names (names_of path.now) ≡ None }
    ensures part { DoesPart {B = Entry × List ℕ} (λ f. parent_of f (names_of path.now)) (λ p. (p.0, p.1.now)) (R.told remote.old) result (R.told remote.new) }
    ensures room { IfOk result (λ p. length p.1.now ≤ 255) }
{
    let mut names = Names::of(path);
    let Some(mut name) = names.next() else {
        return Err(Stop::Refused(Code::BadPath));
    };
    let mut at = root(alloc);
    while let Some(next) = names.next() {
        at = step(alloc, remote, &at, name.as_bytes())?;
        name = next;
    }
    if !at.dir {
        drop(at);
        return Err(Stop::Refused(Code::NotDirectory));
    }
    Ok((at, name))
}

/// The directory of a path, which is not listed itself, and the last name.
pub(crate) fn parent<'a, R: Remote>(
    alloc: Global,
    remote: &mut R,
    path: &'a str,
) -> Result<(Entry, &'a str), Stop>
    ensures part { DoesPart {B = Entry × List ℕ} (λ f. at_parent (names_of path.now) (λ e n. f (e, n))) (λ p. (p.0, p.1.now)) (R.told remote.old) result (R.told remote.new) }
    ensures room { IfOk result (λ p. length p.1.now ≤ 255) }
{
    if let Some(code) = bad_path(path) {
        return Err(Stop::Refused(code));
    }
    walk_to_parent(alloc, remote, path)
}
