//! Calls on an item that is there.

ghost use Rattle.std.specs.Prelude.{◌≡◌, Bool, None, Some, unwrap_or};
ghost use Rattle.cf_base.specs.declared.policies.Policy.{Policy};
ghost use Rattle.cf_model.specs.Items.{Item, is_all_here};
ghost use Rattle.cf_model.specs.Plans.{plan_convert, plan_keep, plan_mark, plan_revert, plan_unmark, plan_update};
ghost use Rattle.cf_model.specs.Words.{same};
ghost use Rattle.cf_table.specs.Means.{Means};
ghost use Rattle.cf_item_rules.specs.PlaceholderPlans.{IsPlan};

use crate::change_lists::one;
use crate::refusals::{
    refuse_convert, refuse_keep, refuse_mark, refuse_rebase, refuse_revert, refuse_take,
    refuse_unmark,
};
use cf_base::{CallError, Change, Identity, Policy, Sequence, Usn};
use cf_table::{NO_USN, Row};
use std::alloc::Global;

// Whether each byte is here.
fn is_all_here(row: &Row) -> bool
    ensures { (i : Item) → Means row.now i → result ≡ is_all_here i }
{
    let size = row.size as u64;
    match row.here.runs() {
        [first, ..] => first.start == 0 && first.len >= size,
        [] => size == 0,
    }
}

fn has_identity(row: &Row, identity: &Identity) -> bool
    ensures { result ≡ same row.now.identity identity.now }
{
    row.identity.as_slice() == identity.as_slice()
}

/// The change by which an item becomes a placeholder (CfConvertToPlaceholder). Refused as AlreadyPlaceholder, then as
/// IdentityTooLong where the identity has more than 4,096 bytes.
pub fn plan_convert(
    alloc: Global,
    row: &Row,
    identity: &Identity,
) -> Result<Sequence<Change>, CallError>
    ensures { (i : Item) → Means row.now i → IsPlan result (plan_convert i identity.now) }
{
    if let Err(code) = refuse_convert(row, identity) {
        return Err(CallError::No(code));
    }
    let item = row.id;
    let identity = identity.copy()?;
    Ok(one(alloc, Change::Convert { item, identity })?)
}

/// The change by which a placeholder becomes a plain file or directory (CfRevertPlaceholder). Refused as NotPlaceholder,
/// as NotPopulated where a directory's entries have not come, as NotHydrated where a byte is not here, as InUse.
pub fn plan_revert(alloc: Global, row: &Row, in_use: bool) -> Result<Sequence<Change>, CallError>
    ensures { (i : Item) → Means row.now i → IsPlan result (plan_revert i in_use) }
{
    if let Err(code) = refuse_revert(row, is_all_here(row), in_use) {
        return Err(CallError::No(code));
    }
    Ok(one(alloc, Change::Revert { item: row.id })?)
}

/// The changes of an update (CfUpdatePlaceholder). With a size another version of so many bytes takes the place of the file's
/// bytes; it is refused as IsDirectory, NotPlaceholder, IdentityTooLong, as PolicyDenied where the file is kept full, as
/// NotInSync, InUse, and TooLarge beyond 16,777,216 bytes. Without a size the item gets the identity, which is no change
/// where it has that; it is refused as NotPlaceholder and IdentityTooLong.
pub fn plan_update(
    alloc: Global,
    policy: &Policy,
    row: &Row,
    identity: &Identity,
    size: Option<u64>,
    in_use: bool,
) -> Result<Sequence<Change>, CallError>
    ensures { (i : Item) → Means row.now i → IsPlan result (plan_update policy.now i identity.now size in_use) }
{
    match size {
        None => rebase(alloc, row, identity),
        Some(size) => take(alloc, policy, row, identity, size, in_use),
    }
}

fn rebase(alloc: Global, row: &Row, identity: &Identity) -> Result<Sequence<Change>, CallError>
    ensures { (p : Policy) (i : Item) (in_use : Bool) → Means row.now i → IsPlan result (plan_update p i identity.now None in_use) }
{
    if let Err(code) = refuse_rebase(row, identity) {
        return Err(CallError::No(code));
    }
    if has_identity(row, identity) {
        return Ok(Sequence::new(alloc));
    }
    let change = Change::Rebase {
        item: row.id,
        identity: identity.copy()?,
        len: base_len(row),
        at: NO_USN,
    };
    Ok(one(alloc, change)?)
}

// A base of none counts as length 0.
fn base_len(row: &Row) -> u64
    ensures { result ≡ unwrap_or row.now.base 0 }
{
    match row.base {
        Some(len) => len as u64,
        None => 0,
    }
}

fn take(
    alloc: Global,
    policy: &Policy,
    row: &Row,
    identity: &Identity,
    size: u64,
    in_use: bool,
) -> Result<Sequence<Change>, CallError>
    ensures { (i : Item) → Means row.now i → IsPlan result (plan_update policy.now i identity.now (Some size) in_use) }
{
    if let Err(code) = refuse_take(policy, row, identity, size, in_use) {
        return Err(CallError::No(code));
    }
    let item = row.id;
    let identity = identity.copy()?;
    let change = Change::Take {
        item,
        identity,
        size,
    };
    Ok(one(alloc, change)?)
}

/// The change by which a placeholder is in sync (CfSetInSyncState), none where it is so already. Refused as NotPlaceholder,
/// then as UsnMismatch with the item's number where another number is given; 0.0 marks whatever the item's number is.
pub fn plan_mark(alloc: Global, row: &Row, number: Usn) -> Result<Sequence<Change>, CallError>
    ensures { (i : Item) → Means row.now i → IsPlan result (plan_mark i number) }
{
    if let Err(code) = refuse_mark(row, number) {
        return Err(CallError::No(code));
    }
    if row.in_sync {
        return Ok(Sequence::new(alloc));
    }
    let change = Change::Mark {
        item: row.id,
        number: row.number,
    };
    Ok(one(alloc, change)?)
}

/// The change by which a placeholder is no longer in sync, none where it is not. Refused as NotPlaceholder.
pub fn plan_unmark(alloc: Global, row: &Row) -> Result<Sequence<Change>, CallError>
    ensures { (i : Item) → Means row.now i → IsPlan result (plan_unmark i) }
{
    if let Err(code) = refuse_unmark(row) {
        return Err(CallError::No(code));
    }
    if !row.in_sync {
        return Ok(Sequence::new(alloc));
    }
    Ok(one(alloc, Change::Clear { item: row.id })?)
}

/// The change by which a file is kept full, or no longer; none where its flag is so. Refused as IsDirectory, NotPlaceholder.
pub fn plan_keep(alloc: Global, row: &Row, on: bool) -> Result<Sequence<Change>, CallError>
    ensures { (i : Item) → Means row.now i → IsPlan result (plan_keep i on) }
{
    if let Err(code) = refuse_keep(row) {
        return Err(CallError::No(code));
    }
    if row.keep == on {
        return Ok(Sequence::new(alloc));
    }
    Ok(one(alloc, Change::Keep { item: row.id, on })?)
}
