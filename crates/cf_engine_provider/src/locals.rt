//! The local items that are items of the remote.

ghost use Rattle.std.specs.Prelude.{◌≡◌, ◌++◌, ◌∷◌, ◌==◌, ◌||◌, [], cond, IfOk, List, MatchOption, OnOk};
ghost use Rattle.std.specs.List.{list_any};
ghost use Rattle.std.specs.List.Sorted.{IsPermutation};
ghost use Rattle.cf_engine_queue.specs.Identities.{HasOurs};
ghost use Rattle.cf_engine_provider.specs.Listings.{AreAlike, AreSorted, known_by, known_in, targets_in};
ghost use Rattle.cf_model.specs.Fits.{is_known, is_of_kind};
ghost use Rattle.cf_model.specs.Identities.{target_of};
ghost use Rattle.cf_model.specs.Items.{Item};
ghost use Rattle.cf_table.specs.Means.{Means};
ghost use Rattle.cf_table.specs.Tables.{MeansAll};

use cf_base::{Entry, OutOfMemory, Rid, no_such_state};
use cf_engine_queue::numbers_of;
use cf_table::Row;
use cf_wire::LocalItems;
use std::alloc::Global;
use std::marker::Model;

/// A local item by its target.
#[derive(Drop)]
pub(crate) struct Local {
    pub(crate) rid: Rid,
    pub(crate) directory: bool,
}

impl Model for Local {
    ghost use Rattle.cf_model.specs.Fits.{Known};

    ghost Value = { Known };

    ghost view = { λ l. record { rid = l.rid; directory = l.directory } };
}

/// The local items that have a target: the targets of files, and those of directories, each in their order.
#[derive(Drop)]
pub struct Locals {
    files: Vec<u64>,
    directories: Vec<u64>,
}

impl Model for Locals {
    ghost use Rattle.std.specs.Prelude.{List};
    ghost use Rattle.cf_engine_provider.specs.Listings.{AreSorted, known_by};
    ghost use Rattle.cf_model.specs.Fits.{Known};

    ghost Value = { List Known };

    ghost view = { λ l. known_by l.files.items l.directories.items };

    ghost invariant = { λ l. AreSorted l.files.items × AreSorted l.directories.items };
}

// Whether the target is among them, in steps as the logarithm of their number.
fn holds(sorted: &[u64], rid: Rid) -> bool
    requires { AreSorted sorted.now }
    ensures { result ≡ list_any (λ n. n == rid.0) sorted.now }
{
    sorted.binary_search(&rid.0).is_ok()
}

fn either(one: bool, other: bool) -> bool
    ensures { result ≡ (one || other) }
{
    one || other
}

fn choose(test: bool, one: bool, other: bool) -> bool
    ensures { result ≡ cond test one other }
{
    if test { one } else { other }
}

fn is_known_by(files: &[u64], directories: &[u64], rid: Rid) -> bool
    requires { AreSorted files.now × AreSorted directories.now }
    ensures { result ≡ is_known (known_by files.now directories.now) rid }
{
    let file = holds(files, rid);
    let folder = holds(directories, rid);
    either(file, folder)
}

fn is_of_kind_by(files: &[u64], directories: &[u64], entry: &Entry) -> bool
    requires { AreSorted files.now × AreSorted directories.now }
    ensures { result ≡ is_of_kind (known_by files.now directories.now) entry.now }
{
    let file = holds(files, entry.rid);
    let folder = holds(directories, entry.rid);
    choose(entry.dir, !file, !folder)
}

impl LocalItems for Locals {
    ghost known = { λ l. l };

    fn is_known(&self, rid: Rid) -> bool {
        is_known_by(&self.files, &self.directories, rid)
    }

    fn is_of_kind(&self, entry: &Entry) -> bool {
        is_of_kind_by(&self.files, &self.directories, entry)
    }
}

/// The item of the remote that the row's item is; that of the root is the root. 0 stands for none. Nothing where no engine gave the
/// identity.
pub fn target_of(row: &Row) -> Option<Rid>
    ensures { MatchOption result ((i : Item) → Means row.now i → HasOurs i → ⊥) (λ r. (i : Item) → Means row.now i → r ≡ target_of i) }
{
    if row.id.0 == 1 {
        return Some(Rid(1));
    }
    let numbers = numbers_of(&row.identity)?;
    Some(Rid(numbers.target))
}

// Adds the row's item, where it is an item of the remote.
fn add(list: &mut Vec<Local>, row: &Row) -> Result<(), OutOfMemory>
    ensures { (i : Item) → Means row.now i → OnOk result (list.new.items ≡ list.old.items ++ known_in (i ∷ [])) }
{
    let Some(rid) = target_of(row) else {
        return Err(no_such_state());
    };
    if rid.0 == 0 {
        return Ok(());
    }
    list.push(Local {
        rid,
        directory: row.dir,
    })?;
    Ok(())
}

// The local items of the rows that are items of the remote, in order of id.
fn list_of(alloc: Global, rows: &[Row]) -> Result<Vec<Local>, OutOfMemory>
    ensures { (items : List Item) → MeansAll rows.now items → IfOk result (λ l. l.items ≡ known_in items) }
{
    let mut list = Vec::new(alloc);
    for row in rows {
        add(&mut list, row)?;
    }
    Ok(list)
}

// The targets of the files, or of the directories.
fn targets_of(alloc: Global, list: &[Local], directory: bool) -> Result<Vec<u64>, OutOfMemory>
    ensures { IfOk result (λ v. v.items ≡ targets_in directory list.now) }
{
    let mut targets = Vec::new(alloc);
    for local in list {
        if local.directory == directory {
            targets.push(local.rid.0)?;
        }
    }
    Ok(targets)
}

fn sort(targets: &mut Vec<u64>) -> Result<(), OutOfMemory>
    ensures same { IsPermutation targets.old.items targets.new.items }
    ensures sorted { OnOk result (AreSorted targets.new.items) }
{
    targets.sort()?;
    Ok(())
}

fn sorted_targets(alloc: Global, list: &[Local], directory: bool) -> Result<Vec<u64>, OutOfMemory>
    ensures same { IfOk result (λ v. IsPermutation (targets_in directory list.now) v.items) }
    ensures sorted { IfOk result (λ v. AreSorted v.items) }
{
    let mut targets = targets_of(alloc, list, directory)?;
    sort(&mut targets)?;
    Ok(targets)
}

/// The local items of the rows that are items of the remote.
pub fn locals_of(alloc: Global, rows: &[Row]) -> Result<Locals, OutOfMemory>
    ensures { (items : List Item) → MeansAll rows.now items → IfOk result (λ l. AreAlike l (known_in items)) }
{
    let list = list_of(alloc, rows)?;
    let files = sorted_targets(alloc, &list, false)?;
    let directories = sorted_targets(alloc, &list, true)?;
    Ok(Locals { files, directories })
}
