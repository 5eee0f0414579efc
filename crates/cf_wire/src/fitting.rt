//! Whether a reply fits its request.

ghost use Rattle.std.specs.Prelude.{◌≡◌, ◌==◌, ◌&&◌, ◌<◌, IfOk, List, ℕ, map, nat_eq};
ghost use Rattle.std.specs.List.{list_all};
ghost use Rattle.cf_base.specs.declared.ids.Rid.{Rid};
ghost use Rattle.cf_base.specs.declared.ids.Version.{Version};
ghost use Rattle.cf_base.specs.declared.messages.Entry.{Entry};
ghost use Rattle.cf_base.specs.declared.messages.Request.{Request};
ghost use Rattle.cf_model.specs.Fits.{Known, are_distinct, are_entries, are_named_apart, done_fits, fits, is_entry, is_listing, push_fits};
ghost use Rattle.cf_model.specs.Numbers.{same_key};
ghost use Rattle.cf_model.specs.Texts.{is_name};
ghost use Rattle.std.specs.HashSet.{IsFromIterResult};
ghost use Rattle.cf_wire.specs.Sizes.{has_sizes};

use crate::local_items::LocalItems;
use cf_base::{CallError, Entry, Key, Name, OutOfMemory, Reply, Request, Rid, Round, Token};
use cf_model::laws::one_test_of_names;
use std::alloc::{AllocError, Global};
use std::collections::HashSet;

fn same_key(a: Key, b: Key) -> bool
    ensures { result ≡ same_key a b }
{
    a.epoch == b.epoch && a.number == b.number
}

fn is_name(alloc: Global, name: &[u8]) -> Result<bool, OutOfMemory>
    ensures { IfOk result (λ b. b ≡ is_name name.now) }
{
    one_test_of_names();
    match Name::read(alloc, name) {
        Ok(_) => Ok(true),
        Err(CallError::No(_)) => Ok(false),
        Err(CallError::OutOfMemory) => Err(OutOfMemory),
    }
}

// A directory has neither version nor size.
fn has_sizes(entry: &Entry) -> bool
    ensures { result ≡ has_sizes entry.now }
{
    if entry.dir {
        entry.version.0 == 0 && entry.len == 0
    } else {
        1 <= entry.version.0 && entry.len <= 16_777_216
    }
}

fn is_entry<L: LocalItems>(alloc: Global, local: &L, entry: &Entry) -> Result<bool, OutOfMemory>
    ensures { IfOk result (λ b. b ≡ is_entry (L.known local.now) entry.now) }
{
    if entry.rid.0 <= 1 || entry.rid.0 == entry.parent.0 {
        return Ok(false);
    }
    if !is_name(alloc, entry.name.as_slice())? {
        return Ok(false);
    }
    Ok(local.is_of_kind(entry) && has_sizes(entry))
}

// How many items there are.
fn rids_of(alloc: Global, entries: &[Entry]) -> Result<HashSet<u64>, AllocError>
    ensures { IfOk result (IsFromIterResult nat_eq (map (λ e. e.rid.0) entries.now)) }
{
    entries.iter().map(|entry| entry.rid.0).collect(alloc)
}

// No two have the same item.
fn are_distinct(alloc: Global, entries: &[Entry]) -> Result<bool, OutOfMemory>
    ensures { IfOk result (λ b. b ≡ are_distinct entries.now) }
{
    let rids = rids_of(alloc, entries)?;
    Ok(rids.len() == entries.len())
}

// No two have the same name: none has one of those behind it.
fn are_named_apart(alloc: Global, entries: &[Entry]) -> Result<bool, OutOfMemory>
    ensures { IfOk result (λ b. b ≡ are_named_apart entries.now) }
{
    let mut names: HashSet<&[u8]> = HashSet::new(alloc);
    let mut left = entries.len();
    'entries: while left > 0 {
        left -= 1;
        let name = entries[left].name.as_slice();
        let added = names.insert(name)?;
        if !added {
            return Ok(false);
        }
    }
    Ok(true)
}

fn are_entries<L: LocalItems>(
    alloc: Global,
    local: &L,
    entries: &[Entry],
) -> Result<bool, OutOfMemory>
    ensures { IfOk result (λ b. b ≡ are_entries (L.known local.now) entries.now) }
{
    for entry in entries {
        if !is_entry(alloc, local, entry)? {
            return Ok(false);
        }
    }
    are_distinct(alloc, entries)
}

fn are_children(rid: Rid, entries: &[Entry]) -> bool
    ensures { result ≡ list_all (λ e. e.live && (e.parent.0 == rid.0)) entries.now }
{
    entries
        .iter()
        .all(|entry| entry.live && entry.parent.0 == rid.0)
}

// The entries are the live children of this item, and no two have the same name.
fn is_listing(alloc: Global, rid: Rid, entries: &[Entry]) -> Result<bool, OutOfMemory>
    ensures { IfOk result (λ b. b ≡ is_listing rid entries.now) }
{
    if !are_children(rid, entries) {
        return Ok(false);
    }
    are_named_apart(alloc, entries)
}

fn done_fits<L: LocalItems>(local: &L, asked: Rid, told: Rid) -> bool
    ensures { result ≡ done_fits (L.known local.now) asked told }
{
    if asked.0 == 0 {
        1 < told.0 && !local.is_known(told)
    } else {
        asked.0 == told.0
    }
}

// The reply of a push about an item of the remote, 0 for a new one.
fn push_fits<L: LocalItems>(local: &L, token: Token, rid: Rid, reply: &Reply) -> bool
    ensures { result ≡ push_fits (L.known local.now) token rid reply.now }
{
    match reply {
        Reply::Done {
            token: other,
            rid: told,
            ..
        } => same_key(token.0, other.0) && done_fits(local, rid, *told),
        Reply::Void { token: other } => same_key(token.0, other.0),
        Reply::Refused { token: other, .. } => same_key(token.0, other.0),
        Reply::Feed { .. } => false,
        Reply::Listing { .. } => false,
        Reply::Bytes { .. } => false,
        Reply::Missing { .. } => false,
        Reply::Gone { .. } => false,
    }
}

fn feed_fits<L: LocalItems>(
    alloc: Global,
    local: &L,
    round: Round,
    reply: &Reply,
) -> Result<bool, OutOfMemory>
    ensures { (settled : Rid) (after : ℕ) → IfOk result (λ b. b ≡ fits (L.known local.now) settled (Request.Feed round after) reply.now) }
{
    match reply {
        Reply::Feed {
            round: other,
            entries,
            ..
        } => {
            if !same_key(round.0, other.0) {
                return Ok(false);
            }
            are_entries(alloc, local, entries.as_slice())
        }
        Reply::Listing { .. } => Ok(false),
        Reply::Bytes { .. } => Ok(false),
        Reply::Missing { .. } => Ok(false),
        Reply::Done { .. } => Ok(false),
        Reply::Void { .. } => Ok(false),
        Reply::Refused { .. } => Ok(false),
        Reply::Gone { .. } => Ok(false),
    }
}

fn listing_fits<L: LocalItems>(
    alloc: Global,
    local: &L,
    rid: Rid,
    entries: &[Entry],
) -> Result<bool, OutOfMemory>
    ensures { IfOk result (λ b. b ≡ (are_entries (L.known local.now) entries.now && is_listing rid entries.now)) }
{
    if !are_entries(alloc, local, entries)? {
        return Ok(false);
    }
    is_listing(alloc, rid, entries)
}

fn list_fits<L: LocalItems>(
    alloc: Global,
    local: &L,
    key: Key,
    rid: Rid,
    reply: &Reply,
) -> Result<bool, OutOfMemory>
    ensures { (settled : Rid) → IfOk result (λ b. b ≡ fits (L.known local.now) settled (Request.List key rid) reply.now) }
{
    match reply {
        Reply::Listing {
            key: other,
            entries,
        } => {
            if !same_key(key, *other) {
                return Ok(false);
            }
            listing_fits(alloc, local, rid, entries.as_slice())
        }
        Reply::Missing { key: other } => Ok(same_key(key, *other)),
        Reply::Feed { .. } => Ok(false),
        Reply::Bytes { .. } => Ok(false),
        Reply::Done { .. } => Ok(false),
        Reply::Void { .. } => Ok(false),
        Reply::Refused { .. } => Ok(false),
        Reply::Gone { .. } => Ok(false),
    }
}

fn fetch_fits(key: Key, start: u32, len: u32, reply: &Reply) -> bool
    ensures { (ks : List Known) (settled rid : Rid) (version : Version) → result ≡ fits ks settled (Request.Fetch key rid version start len) reply.now }
{
    match reply {
        Reply::Bytes {
            key: other,
            start: at,
            bytes,
        } => { same_key(key, *other) && *at == start && bytes.as_slice().len() == len as usize }
        Reply::Missing { key: other } => same_key(key, *other),
        Reply::Gone { key: other } => same_key(key, *other),
        Reply::Feed { .. } => false,
        Reply::Listing { .. } => false,
        Reply::Done { .. } => false,
        Reply::Void { .. } => false,
        Reply::Refused { .. } => false,
    }
}

/// Whether the reply fits the request: it is of a kind that is given for it, has its round, key or token, and tells what can be
/// told of items that are here. `settled` is the item of the upload that a `Settle` is about, 0 for a new one. Takes memory
/// for the entries of a reply, and time that grows with them as sorting does at most.
pub fn fits<L: LocalItems>(
    alloc: Global,
    local: &L,
    settled: Rid,
    request: &Request,
    reply: &Reply,
) -> Result<bool, OutOfMemory>
    ensures { IfOk result (λ b. b ≡ fits (L.known local.now) settled request.now reply.now) }
{
    match request {
        Request::Feed { round, .. } => feed_fits(alloc, local, *round, reply),
        Request::List { key, rid } => list_fits(alloc, local, *key, *rid, reply),
        Request::Fetch {
            key,
            start,
            len,
            ..
        } => Ok(fetch_fits(*key, *start, *len, reply)),
        Request::Put { token, rid, .. } => Ok(push_fits(local, *token, *rid, reply)),
        Request::MakeDir { token, .. } => Ok(push_fits(local, *token, Rid(0), reply)),
        Request::Move { token, rid, .. } => Ok(push_fits(local, *token, *rid, reply)),
        Request::Remove { token, rid, .. } => Ok(push_fits(local, *token, *rid, reply)),
        Request::Settle { token } => Ok(push_fits(local, *token, settled, reply)),
        Request::Keep { token, .. } => Ok(push_fits(local, *token, Rid(1), reply)),
    }
}
