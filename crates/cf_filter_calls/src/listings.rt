//! Lists of entries: why one is refused, and the changes that it comes to.

ghost use Rattle.std.specs.Prelude.{◌≡◌, ◌⊎◌, ◌+◌, ◌++◌, ◌<◌, ◌&&◌, ◌^◌, IfErr, IfOk, OnOk, [], ◌∷◌, cond, false, not, length, nat_lt, true};
ghost use Rattle.cf_base.specs.Names.{is_name as is_base_name};
ghost use Rattle.cf_base.specs.Policies.{is_always_full};
ghost use Rattle.cf_base.specs.declared.changes.Change.TheVariants as change;
ghost use Rattle.cf_base.specs.declared.limits.TheConstants.{MOST_FILE_BYTES};
ghost use Rattle.cf_filter_calls.specs.Entering.{are_names, entry_code, has_bytes_to_fetch, has_large, has_long_identity, listed_changes, number_past};
ghost use Rattle.cf_model.specs.Operations.{entry_kind, is_twice};
ghost use Rattle.cf_model.specs.Texts.{is_name};
ghost use Rattle.cf_model.specs.Words.{when};

use crate::dehydrations::is_always_full;
use cf_base::{
    CallError, Change, Code, ItemId, Kind, Name, NewItem, OutOfMemory, Policy, Population,
    Sequence, Usn,
};
use std::alloc::Global;
use std::collections::BTreeSet;

/// The greatest identity, in bytes.
const MOST_IDENTITY: usize = 4096;

/// The greatest file, in bytes.
const MOST_BYTES: u64 = 16_777_216;

fn try_name(alloc: Global, bytes: &[u8]) -> Result<(), CallError>
    ensures ok { IfOk result (λ u. is_base_name bytes.now ≡ true) }
    ensures bad { IfErr result (λ e. (e ≡ CallError.OutOfMemory) ⊎ ((e ≡ CallError.No Code.BadPath) × (is_base_name bytes.now ≡ false))) }
{
    Name::read(alloc, bytes)?;
    Ok(())
}

fn is_name(alloc: Global, bytes: &[u8]) -> Result<bool, OutOfMemory>
    ensures { IfOk result (λ b. b ≡ is_name bytes.now) }
{
    match try_name(alloc, bytes) {
        Ok(()) => Ok(true),
        Err(CallError::No(_)) => Ok(false),
        Err(CallError::OutOfMemory) => Err(OutOfMemory),
    }
}

/// Whether each entry has a name.
pub(crate) fn are_names(alloc: Global, list: &[NewItem]) -> Result<bool, OutOfMemory>
    ensures { IfOk result (λ b. b ≡ are_names list.now) }
{
    for entry in list {
        if !is_name(alloc, entry.name.as_slice())? {
            return Ok(false);
        }
    }
    Ok(true)
}

// Whether two entries have the same name: whether one has that of one behind it. It takes memory for a set of references to the names, and time as sorting
// them does.
fn is_twice(alloc: Global, list: &[NewItem]) -> Result<bool, OutOfMemory>
    ensures { IfOk result (λ b. b ≡ is_twice list.now) }
{
    let mut names: BTreeSet<&[u8]> = BTreeSet::new(alloc);
    let mut left = list.len();
    'entries: while left > 0 {
        left -= 1;
        let name = list[left].name.as_slice();
        let added = names.insert(name)?;
        if !added {
            return Ok(true);
        }
    }
    Ok(false)
}

fn is_long(entry: &NewItem) -> bool
    ensures { result ≡ nat_lt 4096 (length entry.now.identity) }
{
    entry.identity.as_slice().len() > MOST_IDENTITY
}

fn has_long_identity(list: &[NewItem]) -> bool
    ensures { result ≡ has_long_identity list.now }
{
    list.iter().any(|entry| is_long(entry))
}

fn is_large(entry: &NewItem) -> bool
    ensures { result ≡ (not entry.now.dir && nat_lt MOST_FILE_BYTES entry.now.size) }
{
    !entry.dir && entry.size > MOST_BYTES
}

fn has_large(list: &[NewItem]) -> bool
    ensures { result ≡ has_large list.now }
{
    list.iter().any(|entry| is_large(entry))
}

fn is_to_fetch(always: bool, entry: &NewItem) -> bool
    ensures { result ≡ (not entry.now.dir && always && nat_lt 0 entry.now.size) }
{
    !entry.dir && always && entry.size > 0
}

// Whether bytes would have to come at once.
fn has_bytes_to_fetch(policy: &Policy, list: &[NewItem]) -> bool
    ensures { result ≡ has_bytes_to_fetch policy.now list.now }
{
    let always = is_always_full(policy.hydration);
    list.iter().any(|entry| is_to_fetch(always, entry))
}

fn entry_code(twice: bool, long: bool, large: bool, fetched: bool) -> Option<Code>
    ensures { result ≡ entry_code twice long large fetched }
{
    if twice {
        return Some(Code::Exists);
    }
    if long {
        return Some(Code::IdentityTooLong);
    }
    if large {
        return Some(Code::TooLarge);
    }
    if fetched {
        return Some(Code::PolicyDenied);
    }
    None
}

/// Why entries are refused under a policy, where they have names: Exists where two have the same, IdentityTooLong, TooLarge,
/// PolicyDenied. It takes memory for a set of references to the names.
pub(crate) fn refuse_entries(
    alloc: Global,
    policy: &Policy,
    list: &[NewItem],
) -> Result<Option<Code>, OutOfMemory>
    ensures { IfOk result (λ why. why ≡ entry_code (is_twice list.now) (has_long_identity list.now) (has_large list.now) (has_bytes_to_fetch policy.now list.now)) }
{
    let twice = is_twice(alloc, list)?;
    let long = has_long_identity(list);
    let large = has_large(list);
    let fetched = has_bytes_to_fetch(policy, list);
    Ok(entry_code(twice, long, large, fetched))
}

fn entry_kind(policy: &Policy, dir: bool) -> Kind
    ensures { result ≡ entry_kind policy.now dir }
{
    if !dir {
        return Kind::PlaceholderFile;
    }
    match policy.population {
        Population::Full => Kind::UnpopulatedDir,
        Population::Partial => Kind::PlaceholderDir,
        Population::AlwaysFull => Kind::PlaceholderDir,
    }
}

fn size_of(entry: &NewItem) -> u64
    ensures { result ≡ cond entry.now.dir 0 entry.now.size }
{
    if entry.dir { 0 } else { entry.size }
}

// The name of an entry; a list with one that has none was refused.
fn name_of(alloc: Global, bytes: &[u8]) -> Result<Name, OutOfMemory>
    ensures { IfOk result (λ n. n ≡ bytes.now) }
{
    match Name::read(alloc, bytes) {
        Ok(name) => Ok(name),
        Err(_) => Err(OutOfMemory),
    }
}

fn make_of(
    alloc: Global,
    policy: &Policy,
    dir: ItemId,
    item: ItemId,
    entry: &NewItem,
) -> Result<Change, OutOfMemory>
    ensures { IfOk result (λ c. c ≡ change.Make item dir entry.now.name (entry_kind policy.now entry.now.dir) (cond entry.now.dir 0 entry.now.size) entry.now.identity) }
{
    Ok(Change::Make {
        item,
        parent: dir,
        name: name_of(alloc, entry.name.as_slice())?,
        kind: entry_kind(policy, entry.dir),
        size: size_of(entry),
        identity: entry.identity.copy()?,
    })
}

// An item that is in sync at once is marked by the number of its own change.
fn push_mark(
    changes: &mut Sequence<Change>,
    item: ItemId,
    number: Usn,
    mark: bool,
) -> Result<(), OutOfMemory>
    ensures { OnOk result (changes.new ≡ changes.old ++ when mark (change.Mark item number ∷ [])) }
{
    if mark {
        changes.push(Change::Mark { item, number })?;
    }
    Ok(())
}

fn number_past(mark: bool, number: Usn) -> Usn
    ensures { result ≡ number_past mark number }
{
    let more = if mark { 2 } else { 1 };
    Usn {
        epoch: number.epoch,
        place: number.place.saturating_add(more),
    }
}

/// The changes of a list whose entries have names, under the ids and numbers from these on. At last the directory's entries
/// have come.
pub(crate) fn list_changes(
    alloc: Global,
    policy: &Policy,
    dir: ItemId,
    first: ItemId,
    number: Usn,
    list: &[NewItem],
) -> Result<Sequence<Change>, OutOfMemory>
    requires { first.0 + length list.now < 2 ^ 64 }
    ensures { IfOk result (λ cs. cs ≡ listed_changes policy.now dir first.0 number list.now) }
{
    let mut changes = Sequence::new(alloc);
    let mut item = first;
    let mut next = number;
    for entry in list {
        let make = make_of(alloc, policy, dir, item, entry)?;
        changes.push(make)?;
        push_mark(&mut changes, item, next, entry.mark)?;
        item = ItemId(item.0 + 1);
        next = number_past(entry.mark, next);
    }
    changes.push(Change::Populated { item: dir })?;
    Ok(changes)
}
