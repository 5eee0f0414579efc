//! What is tested of an item or a place before a change is made.

ghost use Rattle.std.specs.Prelude.{◌≡◌, ◌≤◌, ◌&&◌, ◌||◌, ◌==◌, length, nat_le, not, true};
ghost use Rattle.cf_engine_steps.specs.Suited.{PlaceIf, has_this_number, is_free_at, is_high_at, is_next_at, is_open_directory, is_placeholder, is_placeholder_file, may_be_copied, says_at, takes_writes_at};
ghost use Rattle.cf_model.specs.Numbers.{is_no_usn, same_usn};
ghost use Rattle.cf_filter_steps.specs.Answering.{Any as AnyFilter, Reads as FilterReads};

use cf_base::limits::{MOST_IDENTITY_BYTES, MOST_PATH_NAMES};
use cf_base::{Identity, ItemId, Name, Usn, is_name};
use cf_engine_host::EngineHost;
use cf_filter_steps::Steps;
use cf_table::{Row, same_usn};
use cf_tree::depth_of;

const MOST_NAMES: usize = MOST_PATH_NAMES as usize;

/// How many bytes of an identity name its target.
const TARGET_BYTES: usize = 8;

/// Whether an item is there, and is a placeholder.
pub(crate) fn is_placeholder<S: Steps>(s: &S, item: ItemId) -> bool
    ensures { FilterReads S.sense AnyFilter (says_at is_placeholder item) s.now result }
{
    match s.rows().get(item) {
        Some(row) => row.placeholder,
        None => false,
    }
}

fn is_placeholder_of_file(row: &Row) -> bool
    ensures { result ≡ (row.now.placeholder && not row.now.dir) }
{
    row.placeholder && !row.dir
}

fn is_listed(row: &Row) -> bool
    ensures { result ≡ (row.now.dir && row.now.populated) }
{
    row.dir && row.populated
}

/// Whether an item is there, and is the placeholder of a file.
pub(crate) fn is_placeholder_file<S: Steps>(s: &S, item: ItemId) -> bool
    ensures { FilterReads S.sense AnyFilter (says_at is_placeholder_file item) s.now result }
{
    match s.rows().get(item) {
        Some(row) => is_placeholder_of_file(row),
        None => false,
    }
}

/// Whether a directory is there whose entries are known.
pub(crate) fn is_open_directory<S: Steps>(s: &S, item: ItemId) -> bool
    ensures { FilterReads S.sense AnyFilter (says_at is_open_directory item) s.now result }
{
    match s.rows().get(item) {
        Some(row) => is_listed(row),
        None => false,
    }
}

// Whether nothing has this name in the directory.
fn is_free<S: Steps>(s: &S, parent: ItemId, name: &Name) -> bool
    ensures { FilterReads S.sense AnyFilter (is_free_at parent name.now) s.now result }
{
    s.rows().child(parent, name.as_slice()).is_none()
}

/// Whether one more name is not too deep in the directory.
pub(crate) fn is_high<S: Steps>(s: &S, parent: ItemId) -> bool
    ensures { FilterReads S.sense AnyFilter (is_high_at parent) s.now result }
{
    depth_of(s.rows(), parent) < MOST_NAMES
}

/// Whether the next item gets this id.
pub(crate) fn is_next<S: Steps>(s: &S, item: ItemId) -> bool
    ensures { FilterReads S.sense AnyFilter (is_next_at item) s.now result }
{
    item.0 == s.rows().next().0
}

/// Whether an identity can be kept.
pub(crate) fn is_short(identity: &Identity) -> bool
    ensures { result ≡ true → length identity.now ≤ 4096 }
{
    identity.as_slice().len() <= MOST_IDENTITY_BYTES
}

/// Whether an item may come under the name.
#[tactic(auto, using(crate::proofs::Suited::never_a_place))]
pub(crate) fn is_place<S: Steps>(s: &S, parent: ItemId, name: &Name) -> bool
    ensures { PlaceIf S.sense parent name.now s.now result }
{
    if !is_name(name.as_slice()) {
        return false;
    }
    if !is_open_directory(s, parent) {
        return false;
    }
    if !is_high(s, parent) {
        return false;
    }
    is_free(s, parent, name)
}

fn may_be_copied(row: &Row) -> bool
    ensures { result ≡ (not row.now.dir && nat_le 8 (length row.now.identity)) }
{
    !row.dir && row.identity.as_slice().len() >= TARGET_BYTES
}

/// Whether a file is there whose identity has a place for its target.
pub(crate) fn is_copied<S: Steps>(s: &S, item: ItemId) -> bool
    ensures { FilterReads S.sense AnyFilter (says_at may_be_copied item) s.now result }
{
    match s.rows().get(item) {
        Some(row) => may_be_copied(row),
        None => false,
    }
}

fn is_number(row: &Row, at: Usn, anchor: Usn) -> bool
    ensures { result ≡ (same_usn at anchor || same_usn at row.now.number) }
{
    same_usn(at, anchor) || same_usn(at, row.number)
}

fn takes_writes(row: &Row, len: u64, at: Usn, anchor: Usn) -> bool
    ensures { result ≡ (row.now.placeholder && (is_no_usn at || ((len == row.now.size) && (same_usn at anchor || same_usn at row.now.number)))) }
{
    row.placeholder
        && (at.epoch == 0 && at.place == 0 || len == row.size as u64 && is_number(row, at, anchor))
}

/// Whether a placeholder is there whose base can be one of this length that takes the writes up to the number in: none of them for
/// 0.0, else those up to the last upload, or all.
pub(crate) fn takes_writes_in<S: EngineHost>(s: &S, item: ItemId, len: u64, at: Usn) -> bool
    ensures { FilterReads S.sense AnyFilter (takes_writes_at item len at) s.now result }
{
    match s.rows().get(item) {
        Some(row) => takes_writes(row, len, at, s.anchor(item)),
        None => false,
    }
}

fn is_numbered(row: &Row, number: Usn) -> bool
    ensures { result ≡ (same_usn row.now.number number && not (is_no_usn number)) }
{
    same_usn(row.number, number) && !(number.epoch == 0 && number.place == 0)
}

/// Whether an item is there and has this number, which is not 0.0.
pub(crate) fn has_number<S: Steps>(s: &S, item: ItemId, number: Usn) -> bool
    ensures { FilterReads S.sense AnyFilter (says_at (has_this_number number) item) s.now result }
{
    match s.rows().get(item) {
        Some(row) => is_numbered(row, number),
        None => false,
    }
}
