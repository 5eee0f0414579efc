//! Why a request is refused: the first cause that holds.

ghost use Rattle.std.specs.Prelude.{◌≡◌, ◌≤◌, ◌<◌, ◌^◌, ◌&&◌, ◌||◌, ◌++◌, ◌∷◌, [], ℕ, List, IfOk, Option, not, true};
ghost use Rattle.cf_base.specs.declared.ids.Token.{Token};
ghost use Rattle.cf_model.specs.Store.{Recorded, Stored, latest, passes_bytes, passes_items, stored_at, why_move, why_new_dir, why_new_file, why_remove, why_version};
ghost use Rattle.cf_model.specs.Texts.{is_name};
ghost use Rattle.cf_model.specs.Words.{part, says};
ghost use Rattle.cf_remote.specs.Held.{held_len};
ghost use Rattle.cf_remote.specs.Stores.{holding};

use crate::shelves::Shelf;
use cf_base::{CallError, Name, OutOfMemory, Rid, Version, Why};
use cf_model::laws::one_test_of_names;
use std::alloc::Global;

/// No file has more bytes.
const MOST_FILE_BYTES: usize = 16_777_216;

/// No path has more names.
const MOST_NAMES: usize = 32;

/// The versions that are held have no more bytes.
const MOST_HELD_BYTES: u64 = 536_870_912;

/// No more items live, the root among them.
const MOST_LIVE: u64 = 10_000;

fn is_name(alloc: Global, name: &[u8]) -> Result<bool, OutOfMemory>
    ensures { IfOk result (λ b. b ≡ is_name name.now) }
{
    one_test_of_names();
    match Name::read(alloc, name) {
        Ok(_) => Ok(true),
        Err(CallError::No(_)) => Ok(false),
        Err(CallError::OutOfMemory) => Err(OutOfMemory),
    }
}

fn is_live(shelf: &Shelf, rid: Rid) -> bool
    ensures live { result ≡ says (λ s. s.live) (stored_at shelf.now rid) }
    ensures small { result ≡ true → rid.0 < 2 ^ 63 }
{
    match shelf.get(rid) {
        None => false,
        Some(item) => item.is_live(),
    }
}

pub(crate) fn is_live_dir(shelf: &Shelf, rid: Rid) -> bool
    ensures live { result ≡ says (λ s. s.live && s.directory) (stored_at shelf.now rid) }
    ensures small { result ≡ true → rid.0 < 2 ^ 63 }
{
    match shelf.get(rid) {
        None => false,
        Some(item) => item.is_live() && item.is_directory(),
    }
}

fn is_live_file(shelf: &Shelf, rid: Rid) -> bool
    ensures { result ≡ says (λ s. s.live && not s.directory) (stored_at shelf.now rid) }
{
    match shelf.get(rid) {
        None => false,
        Some(item) => item.is_live() && !item.is_directory(),
    }
}

/// The latest version of a file, and 0 of a directory and where there is no item.
pub(crate) fn latest_of(shelf: &Shelf, rid: Rid) -> Version
    ensures latest { result.0 ≡ part latest 0 (stored_at shelf.now rid) }
    ensures small { result.0 < 2 ^ 63 }
{
    match shelf.get(rid) {
        None => Version(0),
        Some(item) => item.latest(),
    }
}

/// One more live item, of which so many bytes are held, would be too much.
#[tactic(auto, using(crate::proofs::Quotas::quota_bytes, crate::proofs::Quotas::quota_items))]
fn is_full(shelf: &Shelf, len: u64) -> bool
    requires { len ≤ MOST_FILE_BYTES }
    ensures { (s : Stored) → s.live ≡ true → held_len s ≡ len → result ≡ (passes_bytes (shelf.now ++ s ∷ []) || passes_items (shelf.now ++ s ∷ [])) }
{
    shelf.held() + len > MOST_HELD_BYTES || shelf.live() + 1 > MOST_LIVE
}

/// One more live item would be too much.
#[tactic(auto, using(crate::proofs::Quotas::quota_items))]
fn has_most(shelf: &Shelf) -> bool
    ensures { (s : Stored) → s.live ≡ true → result ≡ passes_items (shelf.now ++ s ∷ []) }
{
    shelf.live() + 1 > MOST_LIVE
}

pub(crate) fn why_new_file(
    alloc: Global,
    shelf: &Shelf,
    parent: Rid,
    name: &[u8],
    bytes: &[u8],
) -> Result<Option<Why>, OutOfMemory>
    ensures { IfOk result (λ w. (clock : ℕ) (tokens : List (Token × Recorded)) (keep : Option ℕ) → w ≡ why_new_file (holding shelf.now clock tokens keep) parent name.now bytes.now) }
{
    if !is_live_dir(shelf, parent) {
        return Ok(Some(Why::NotThere));
    }
    if !is_name(alloc, name)? {
        return Ok(Some(Why::BadName));
    }
    if bytes.len() > MOST_FILE_BYTES {
        return Ok(Some(Why::TooLarge));
    }
    if shelf.depth_of(parent) >= MOST_NAMES {
        return Ok(Some(Why::TooDeep));
    }
    if shelf.is_taken(parent, name, Rid(0)) {
        return Ok(Some(Why::NameTaken));
    }
    if is_full(shelf, bytes.len() as u64) {
        return Ok(Some(Why::Quota));
    }
    Ok(None)
}

pub(crate) fn why_version(
    shelf: &Shelf,
    rid: Rid,
    expect: Version,
    bytes: &[u8],
    keep: Option<u32>,
) -> Option<Why>
    ensures { (clock : ℕ) (tokens : List (Token × Recorded)) → result ≡ why_version (holding shelf.now clock tokens keep) rid expect bytes.now }
{
    if !is_live_file(shelf, rid) {
        return Some(Why::NotThere);
    }
    if bytes.len() > MOST_FILE_BYTES {
        return Some(Why::TooLarge);
    }
    if expect.0 != latest_of(shelf, rid).0 {
        return Some(Why::Conflict);
    }
    if shelf.held_with(rid, bytes.len() as u64, keep) > MOST_HELD_BYTES {
        return Some(Why::Quota);
    }
    None
}

pub(crate) fn why_new_dir(
    alloc: Global,
    shelf: &Shelf,
    parent: Rid,
    name: &[u8],
) -> Result<Option<Why>, OutOfMemory>
    ensures { IfOk result (λ w. (clock : ℕ) (tokens : List (Token × Recorded)) (keep : Option ℕ) → w ≡ why_new_dir (holding shelf.now clock tokens keep) parent name.now) }
{
    if !is_live_dir(shelf, parent) {
        return Ok(Some(Why::NotThere));
    }
    if !is_name(alloc, name)? {
        return Ok(Some(Why::BadName));
    }
    if shelf.depth_of(parent) >= MOST_NAMES {
        return Ok(Some(Why::TooDeep));
    }
    if shelf.is_taken(parent, name, Rid(0)) {
        return Ok(Some(Why::NameTaken));
    }
    if has_most(shelf) {
        return Ok(Some(Why::Quota));
    }
    Ok(None)
}

pub(crate) fn why_move(
    alloc: Global,
    shelf: &Shelf,
    rid: Rid,
    parent: Rid,
    name: &[u8],
) -> Result<Option<Why>, OutOfMemory>
    ensures { IfOk result (λ w. (clock : ℕ) (tokens : List (Token × Recorded)) (keep : Option ℕ) → w ≡ why_move (holding shelf.now clock tokens keep) rid parent name.now) }
{
    if rid.0 == 1 || !is_live(shelf, rid) || !is_live_dir(shelf, parent) {
        return Ok(Some(Why::NotThere));
    }
    if !is_name(alloc, name)? {
        return Ok(Some(Why::BadName));
    }
    if parent.0 == rid.0 || shelf.is_under(parent, rid) {
        return Ok(Some(Why::Loop));
    }
    if shelf.depth_of(parent) + 1 + shelf.height_of(rid) > MOST_NAMES {
        return Ok(Some(Why::TooDeep));
    }
    if shelf.is_taken(parent, name, rid) {
        return Ok(Some(Why::NameTaken));
    }
    Ok(None)
}

pub(crate) fn why_remove(shelf: &Shelf, rid: Rid, expect: Version) -> Option<Why>
    ensures { (clock : ℕ) (tokens : List (Token × Recorded)) (keep : Option ℕ) → result ≡ why_remove (holding shelf.now clock tokens keep) rid expect }
{
    if rid.0 == 1 || !is_live(shelf, rid) {
        return Some(Why::NotThere);
    }
    if is_live_file(shelf, rid) && expect.0 != latest_of(shelf, rid).0 {
        return Some(Why::Conflict);
    }
    if shelf.has_child(rid) {
        return Some(Why::NotEmpty);
    }
    None
}
