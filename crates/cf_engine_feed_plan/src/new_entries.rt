//! The steps of an entry that is new: it is live and not known, and its parent is here.

ghost use Rattle.std.specs.Prelude.{◌≡◌, ◌&&◌, IfOk, List, option_copied};
ghost use Rattle.cf_model.specs.Feeds.{is_adoptable, kind_of_entry, seen_entry};
ghost use Rattle.cf_model.specs.Items.{Item};
ghost use Rattle.cf_model.specs.LookUp.{child_of};
ghost use Rattle.cf_engine_feed_plan.specs.Lists.{adopt_steps, make_of, make_steps, new_steps};
ghost use Rattle.cf_engine_feed_plan.specs.Premises.{FoundAs};
ghost use Rattle.cf_table.specs.Means.{Means};
ghost use Rattle.cf_table.specs.Tables.{MeansAll};
ghost use Rattle.cf_tree.specs.Trees.{IsTree};

use crate::entry_steps::Step;
use crate::gone_entries::push_change;
use crate::identities::{entry_identity, has_no_target, no_identity};
use crate::names::{name_of, off};
use cf_base::{Change, Entry, ItemId, Kind, OutOfMemory, Policy, Population, SeenPath, Sequence};
use cf_table::{NO_USN, ROOT, Row, Rows};
use std::alloc::Global;

/// No item has this id.
const NO_ITEM: ItemId = ItemId(0);

// Under FULL population the entries of a new directory have not come yet.
fn kind_of_entry(policy: &Policy, entry: &Entry) -> Kind
    ensures { result ≡ kind_of_entry policy.now entry.now }
{
    if !entry.dir {
        return Kind::PlaceholderFile;
    }
    match policy.population {
        Population::Full => Kind::UnpopulatedDir,
        Population::Partial => Kind::PlaceholderDir,
        Population::AlwaysFull => Kind::PlaceholderDir,
    }
}

/// The path of the entry as that of the item.
pub(crate) fn seen_entry(
    alloc: Global,
    item: ItemId,
    entry: &Entry,
) -> Result<SeenPath, OutOfMemory>
    ensures { IfOk result (λ p. p ≡ seen_entry item entry.now) }
{
    let name = name_of(alloc, entry.name.as_slice())?;
    Ok(SeenPath {
        item,
        parent: entry.parent,
        name,
    })
}

fn make_of(
    alloc: Global,
    policy: &Policy,
    item: ItemId,
    entry: &Entry,
    parent: ItemId,
) -> Result<Change, OutOfMemory>
    ensures { IfOk result (λ c. c ≡ make_of policy.now item entry.now parent) }
{
    Ok(Change::Make {
        item,
        parent,
        name: name_of(alloc, entry.name.as_slice())?,
        kind: kind_of_entry(policy, entry),
        size: if entry.dir { 0 } else { entry.len as u64 },
        identity: entry_identity(alloc, entry)?,
    })
}

// Whoever stands at the name is moved off first.
fn make(
    alloc: Global,
    rows: &Rows,
    policy: &Policy,
    entry: &Entry,
    parent: ItemId,
) -> Result<Sequence<Step>, OutOfMemory>
    ensures { IfOk result (λ v. (items : List Item) → MeansAll rows.now.rows items → v ≡ make_steps policy.now rows.now.next items entry.now parent) }
{
    let item = rows.next();
    let name = name_of(alloc, entry.name.as_slice())?;
    let other = off(alloc, rows, parent, &name, NO_ITEM)?;
    let make = make_of(alloc, policy, item, entry, parent)?;
    let seen = seen_entry(alloc, item, entry)?;
    let mut steps = Sequence::new(alloc);
    push_change(&mut steps, other)?;
    steps.push(Step::Apply(make))?;
    steps.push(Step::Seen(seen))?;
    steps.push(Step::Mark(item))?;
    Ok(steps)
}

// A local directory becomes the one of the entry.
fn adopt(alloc: Global, row: &Row, entry: &Entry) -> Result<Sequence<Step>, OutOfMemory>
    ensures { IfOk result (λ v. (i : Item) → Means row.now i → v ≡ adopt_steps entry.now i) }
{
    let item = row.id;
    let mut steps = Sequence::new(alloc);
    if !row.placeholder {
        let identity = no_identity(alloc)?;
        steps.push(Step::Apply(Change::Convert { item, identity }))?;
    }
    let change = Change::Rebase {
        item,
        identity: entry_identity(alloc, entry)?,
        len: 0,
        at: NO_USN,
    };
    let seen = seen_entry(alloc, item, entry)?;
    steps.push(Step::Apply(change))?;
    steps.push(Step::Seen(seen))?;
    steps.push(Step::Mark(item))?;
    Ok(steps)
}

// A directory that is no item of the remote; the root is one.
fn is_adoptable(row: &Row, entry: &Entry) -> bool
    ensures { (i : Item) → Means row.now i → result ≡ is_adoptable entry.now i }
{
    entry.dir && row.dir && row.id != ROOT && has_no_target(&row.identity)
}

// The row of the item with this parent and name.
fn row_at<'a>(rows: &'a Rows, parent: ItemId, name: &[u8]) -> Option<&'a Row>
    ensures { (items : List Item) → MeansAll rows.now.rows items → IsTree items → FoundAs (option_copied result) (child_of items parent name.now) }
{
    match rows.child(parent, name) {
        None => None,
        Some(id) => rows.get(id),
    }
}

/// The directory that stands at the entry's name becomes the entry's, or the entry's item is made.
pub(crate) fn new_entry(
    alloc: Global,
    rows: &Rows,
    policy: &Policy,
    entry: &Entry,
    parent: ItemId,
) -> Result<Sequence<Step>, OutOfMemory>
    ensures { IfOk result (λ v. (items : List Item) → MeansAll rows.now.rows items → IsTree items → v ≡ new_steps policy.now rows.now.next items entry.now parent) }
{
    let Some(row) = row_at(rows, parent, entry.name.as_slice()) else {
        return make(alloc, rows, policy, entry, parent);
    };
    if is_adoptable(row, entry) {
        adopt(alloc, row, entry)
    } else {
        make(alloc, rows, policy, entry, parent)
    }
}
