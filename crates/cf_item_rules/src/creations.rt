//! New items.

ghost use Rattle.std.specs.Prelude.{◌≡◌, List, IfOk};
ghost use Rattle.cf_model.specs.Items.{Item};
ghost use Rattle.cf_model.specs.Plans.{make_and_mark, placeholder_dir, plan_create};
ghost use Rattle.cf_table.specs.Tables.{MeansAll};
ghost use Rattle.cf_item_rules.specs.PlaceholderPlans.{identity_made, IsPlan, kind_made, mark_made, meant, size_made};

use crate::change_lists::one;
use crate::refusals::refuse_create;
use cf_base::{
    CallError, Change, Identity, ItemId, Kind, Name, OutOfMemory, Policy, Population, Sequence, Usn,
};
use cf_table::Rows;
use std::alloc::Global;

/// What is made at a place. Sizes are in bytes.
#[derive(Drop)]
pub enum Creation {
    /// A plain file of no bytes (`create`).
    File,
    /// A plain directory (`mkdir`).
    Dir,
    /// A placeholder file with no byte here (CfCreatePlaceholders), marked in sync at once where `mark` says so.
    Placeholder {
        size: u64,
        identity: Identity,
        mark: bool,
    },
    /// A placeholder directory, alike.
    PlaceholderDir {
        identity: Identity,
        mark: bool,
    },
}

impl Creation {
    fn kind(&self, policy: &Policy) -> Kind
        ensures { result ≡ kind_made policy.now self.now }
    {
        match self {
            Creation::File => Kind::File,
            Creation::Dir => Kind::Dir,
            Creation::Placeholder { .. } => Kind::PlaceholderFile,
            Creation::PlaceholderDir { .. } => placeholder_dir(policy),
        }
    }

    fn size(&self) -> u64
        ensures { result ≡ size_made self.now }
    {
        match self {
            Creation::Placeholder { size, .. } => *size,
            _ => 0,
        }
    }

    fn identity(&self, alloc: Global) -> Result<Identity, OutOfMemory>
        ensures { IfOk result (λ i. i ≡ identity_made self.now) }
    {
        match self {
            Creation::Placeholder { identity, .. } => identity.copy(),
            Creation::PlaceholderDir { identity, .. } => identity.copy(),
            Creation::File => Identity::new(alloc, b""),
            Creation::Dir => Identity::new(alloc, b""),
        }
    }

    fn is_marked(&self) -> bool
        ensures { result ≡ mark_made self.now }
    {
        match self {
            Creation::Placeholder { mark, .. } => *mark,
            Creation::PlaceholderDir { mark, .. } => *mark,
            _ => false,
        }
    }
}

// Under FULL population the entries of a new directory have not come yet.
fn placeholder_dir(policy: &Policy) -> Kind
    ensures { result ≡ placeholder_dir policy.now }
{
    match policy.population {
        Population::Full => Kind::UnpopulatedDir,
        Population::Partial => Kind::PlaceholderDir,
        Population::AlwaysFull => Kind::PlaceholderDir,
    }
}

/// The changes by which a new item comes into a populated directory under a free name; `next` is the number that the first
/// of them gets. Refused as Exists where the directory has the name, then as IdentityTooLong where the identity has more
/// than 4,096 bytes, then of a placeholder file as TooLarge where it would have more than 16,777,216 bytes, and as
/// PolicyDenied where hydration is ALWAYS_FULL and it would have any.
pub fn plan_create(
    alloc: Global,
    rows: &Rows,
    policy: &Policy,
    next: Usn,
    parent: ItemId,
    name: &Name,
    what: &Creation,
) -> Result<Sequence<Change>, CallError>
    ensures { (items : List Item) → MeansAll rows.now.rows items → IsPlan result (plan_create items policy.now rows.now.next next parent name.now (meant what.now)) }
{
    match refuse_create(rows, policy, parent, name, what) {
        Err(code) => Err(CallError::No(code)),
        Ok(()) => {
            let changes = made(alloc, rows.next(), policy, next, parent, name, what)?;
            Ok(changes)
        }
    }
}

fn made(
    alloc: Global,
    item: ItemId,
    policy: &Policy,
    next: Usn,
    parent: ItemId,
    name: &Name,
    what: &Creation,
) -> Result<Sequence<Change>, OutOfMemory>
    ensures { IfOk result (λ list. list ≡ make_and_mark item next parent name.now (kind_made policy.now what.now) (size_made what.now) (identity_made what.now) (mark_made what.now)) }
{
    let make = Change::Make {
        item,
        parent,
        name: name.copy()?,
        kind: what.kind(policy),
        size: what.size(),
        identity: what.identity(alloc)?,
    };
    let mut changes = one(alloc, make)?;
    if !what.is_marked() {
        return Ok(changes);
    }
    match changes.push(Change::Mark { item, number: next }) {
        Ok(()) => Ok(changes),
        Err(memory) => {
            drop(changes);
            Err(memory)
        }
    }
}
