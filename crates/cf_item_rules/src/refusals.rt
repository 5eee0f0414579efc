//! Why a plan is refused, in order.

ghost use Rattle.std.specs.Prelude.{◌≡◌, ◌&&◌, ◌∷◌, [], length, nat_lt};
ghost use Rattle.std.specs.Result.{result_err};
ghost use Rattle.cf_base.specs.Policies.{is_always_full};
ghost use Rattle.cf_base.specs.declared.limits.TheConstants.{MOST_FILE_BYTES};
ghost use Rattle.cf_model.specs.Words.{first_of};
ghost use Rattle.cf_item_rules.specs.Refusals.{convert_tests, create_tests, creation_tests, keep_tests, mark_tests, rebase_tests, revert_tests, take_tests, unmark_tests};

use crate::creations::Creation;
use cf_base::{Code, Hydration, Identity, ItemId, Name, Policy, Usn};
use cf_table::{NO_USN, Row, Rows};

const MOST_IDENTITY_BYTES: usize = 4096;

/// No file has more bytes.
const MOST_BYTES: u64 = 16_777_216;

fn is_too_long(identity: &Identity) -> bool
    ensures { result ≡ nat_lt 4096 (length identity.now) }
{
    identity.as_slice().len() > MOST_IDENTITY_BYTES
}

fn is_always_full(policy: &Policy) -> bool
    ensures { result ≡ is_always_full policy.now.hydration }
{
    policy.hydration == Hydration::AlwaysFull
}

pub(crate) fn refuse_create(
    rows: &Rows,
    policy: &Policy,
    parent: ItemId,
    name: &Name,
    what: &Creation,
) -> Result<(), Code>
    ensures { result_err result ≡ first_of (create_tests rows.now.rows policy.now parent name.now what.now) }
{
    if rows.child(parent, name.as_slice()).is_some() {
        return Err(Code::Exists);
    }
    refuse_creation(policy, what)
}

fn refuse_creation(policy: &Policy, what: &Creation) -> Result<(), Code>
    ensures { result_err result ≡ first_of (creation_tests policy.now what.now) }
{
    match what {
        Creation::File => Ok(()),
        Creation::Dir => Ok(()),
        Creation::Placeholder { size, identity, .. } => refuse_file(policy, *size, identity),
        Creation::PlaceholderDir { identity, .. } => {
            if is_too_long(identity) {
                return Err(Code::IdentityTooLong);
            }
            Ok(())
        }
    }
}

fn refuse_file(policy: &Policy, size: u64, identity: &Identity) -> Result<(), Code>
    ensures { result_err result ≡ first_of ((nat_lt 4096 (length identity.now), Code.IdentityTooLong) ∷ (nat_lt MOST_FILE_BYTES size, Code.TooLarge) ∷ (is_always_full policy.now.hydration && nat_lt 0 size, Code.PolicyDenied) ∷ []) }
{
    if is_too_long(identity) {
        return Err(Code::IdentityTooLong);
    }
    if size > MOST_BYTES {
        return Err(Code::TooLarge);
    }
    if is_always_full(policy) && size > 0 {
        return Err(Code::PolicyDenied);
    }
    Ok(())
}

pub(crate) fn refuse_convert(row: &Row, identity: &Identity) -> Result<(), Code>
    ensures { result_err result ≡ first_of (convert_tests row.now identity.now) }
{
    if row.placeholder {
        return Err(Code::AlreadyPlaceholder);
    }
    if is_too_long(identity) {
        return Err(Code::IdentityTooLong);
    }
    Ok(())
}

pub(crate) fn refuse_revert(row: &Row, whole: bool, in_use: bool) -> Result<(), Code>
    ensures { result_err result ≡ first_of (revert_tests row.now whole in_use) }
{
    if !row.placeholder {
        return Err(Code::NotPlaceholder);
    }
    if row.dir && !row.populated {
        return Err(Code::NotPopulated);
    }
    if !whole {
        return Err(Code::NotHydrated);
    }
    if in_use {
        return Err(Code::InUse);
    }
    Ok(())
}

/// Of an update that leaves the bytes.
pub(crate) fn refuse_rebase(row: &Row, identity: &Identity) -> Result<(), Code>
    ensures { result_err result ≡ first_of (rebase_tests row.now identity.now) }
{
    if !row.placeholder {
        return Err(Code::NotPlaceholder);
    }
    if is_too_long(identity) {
        return Err(Code::IdentityTooLong);
    }
    Ok(())
}

/// Of an update by which another version takes the place of the file's bytes.
pub(crate) fn refuse_take(
    policy: &Policy,
    row: &Row,
    identity: &Identity,
    size: u64,
    in_use: bool,
) -> Result<(), Code>
    ensures { result_err result ≡ first_of (take_tests policy.now row.now identity.now size in_use) }
{
    if row.dir {
        return Err(Code::IsDirectory);
    }
    refuse_rebase(row, identity)?;
    if is_always_full(policy) || row.keep {
        return Err(Code::PolicyDenied);
    }
    if !row.in_sync {
        return Err(Code::NotInSync);
    }
    if in_use {
        return Err(Code::InUse);
    }
    if size > MOST_BYTES {
        return Err(Code::TooLarge);
    }
    Ok(())
}

pub(crate) fn refuse_mark(row: &Row, number: Usn) -> Result<(), Code>
    ensures { result_err result ≡ first_of (mark_tests row.now number) }
{
    if !row.placeholder {
        return Err(Code::NotPlaceholder);
    }
    if number != NO_USN && number != row.number {
        return Err(Code::UsnMismatch(row.number));
    }
    Ok(())
}

pub(crate) fn refuse_unmark(row: &Row) -> Result<(), Code>
    ensures { result_err result ≡ first_of (unmark_tests row.now) }
{
    if !row.placeholder {
        return Err(Code::NotPlaceholder);
    }
    Ok(())
}

pub(crate) fn refuse_keep(row: &Row) -> Result<(), Code>
    ensures { result_err result ≡ first_of (keep_tests row.now) }
{
    if row.dir {
        return Err(Code::IsDirectory);
    }
    if !row.placeholder {
        return Err(Code::NotPlaceholder);
    }
    Ok(())
}
