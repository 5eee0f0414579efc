//! Items by path.

ghost use Rattle.std.specs.Prelude.{◌≡◌, List, IfOk, true};
ghost use Rattle.std.specs.Result.{result_err};
ghost use Rattle.cf_base.specs.Names.{is_name};
ghost use Rattle.cf_model.specs.Items.{Item};
ghost use Rattle.cf_model.specs.LookUp.{bad_names, find_below, find_path, find_place, names_of, refused_or};
ghost use Rattle.cf_table.specs.Tables.{MeansAll, row_of};
ghost use Rattle.cf_tree.specs.Answers.{found, IsAnswer, placed};
ghost use Rattle.cf_tree.specs.Steps.{closed, place_of_names, step_in, told, walk_in};
ghost use Rattle.cf_tree.specs.Trees.{IsTree};

use crate::names::{Names, bad_path, name_of};
use cf_base::{CallError, Code, ItemId, Name};
use cf_table::{ROOT, Rows};
use std::alloc::Global;

/// Refused where no name is looked up in the item.
fn check_open(rows: &Rows, at: ItemId) -> Result<(), Code>
    ensures { result_err result ≡ closed (row_of rows.now.rows at) }
{
    let Some(row) = rows.get(at) else {
        return Err(Code::NotFound);
    };
    if !row.dir {
        return Err(Code::NotDirectory);
    }
    if !row.populated {
        return Err(Code::NotPopulated);
    }
    Ok(())
}

fn step(rows: &Rows, at: ItemId, name: &str) -> Result<ItemId, Code>
    ensures { result ≡ step_in rows.now.rows at name.now }
{
    check_open(rows, at)?;
    rows.child(at, name.as_bytes()).ok_or(Code::NotFound)
}

fn walk(rows: &Rows, path: &str) -> Result<ItemId, Code>
    ensures { result ≡ walk_in rows.now.rows ROOT (names_of path.now) }
{
    let mut at = ROOT;
    let mut left = Names::of(path);
    while let Some(name) = left.next() {
        at = step(rows, at, name)?;
    }
    Ok(at)
}

fn look_up(rows: &Rows, path: &str) -> Result<ItemId, Code>
    ensures { result ≡ refused_or (bad_names (names_of path.now)) (walk_in rows.now.rows ROOT (names_of path.now)) }
{
    if let Some(code) = bad_path(path) {
        return Err(code);
    }
    walk(rows, path)
}

/// The item of a path, which begins with a slash; `/` alone is the root. Refused as TooDeep where the path has more than
/// 32 names, as BadPath where one of them is no name, and then from the left at the first name that fails: as
/// NotDirectory in a file, as NotPopulated in a directory whose entries have not come, as NotFound where there is none.
/// Takes no memory. A name takes one look-up in the index.
pub fn find(rows: &Rows, path: &str) -> Result<ItemId, Code>
    ensures { (items : List Item) → MeansAll rows.now.rows items → IsTree items → result ≡ found (find_path items path.now) }
{
    look_up(rows, path)
}

/// The item of a path, as `find`, but refused as BadPath where the path is that of the root.
pub fn find_below(rows: &Rows, path: &str) -> Result<ItemId, Code>
    ensures { (items : List Item) → MeansAll rows.now.rows items → IsTree items → result ≡ found (find_below items path.now) }
{
    if Names::of(path).is_empty() {
        return Err(Code::BadPath);
    }
    look_up(rows, path)
}

fn place<'a>(rows: &Rows, path: &'a str) -> Result<(ItemId, &'a str), Code>
    ensures { told result ≡ refused_or (bad_names (names_of path.now)) (place_of_names rows.now.rows (names_of path.now)) }
{
    if let Some(code) = bad_path(path) {
        return Err(code);
    }
    let mut names = Names::of(path);
    let Some(mut name) = names.next() else {
        return Err(Code::BadPath);
    };
    let mut at = ROOT;
    while let Some(next) = names.next() {
        at = step(rows, at, name)?;
        name = next;
    }
    check_open(rows, at)?;
    Ok((at, name))
}

/// The directory and the name of a path that is to be made or moved to, whether there is an item or not. Refused as
/// `find` refuses the path of the directory, as TooDeep or BadPath by the name too, and as BadPath where the path is that
/// of the root.
pub fn find_parent(alloc: Global, rows: &Rows, path: &str) -> Result<(ItemId, Name), CallError>
    ensures place { (items : List Item) → MeansAll rows.now.rows items → IsTree items → IsAnswer result (placed (find_place items path.now)) }
    ensures named { IfOk result (λ p. is_name p.1 ≡ true) }
{
    match place(rows, path) {
        Ok((parent, name)) => {
            let name = name_of(alloc, name.as_bytes())?;
            Ok((parent, name))
        }
        Err(code) => Err(CallError::No(code)),
    }
}
