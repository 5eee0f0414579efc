//! The items of the remote.

ghost use Rattle.std.specs.Prelude.{◌≡◌, ◌+◌, ◌≤◌, ◌<◌, ◌^◌, ◌-◌, ◌&&◌, ◌==◌, ◌++◌, ◌∷◌, [], ℕ, List, All, IfOk, IfSome, OnOk, OnErr, None, Some, length, filter, map, not, true, false, count_by, sum_by, option_copied, option_map};
ghost use Rattle.std.specs.List.{list_any};
ghost use Rattle.cf_base.specs.declared.limits.TheConstants.{MOST_FILE_BYTES};
ghost use Rattle.cf_model.specs.Peers.{named};
ghost use Rattle.cf_model.specs.Store.{RecordedDone, Stored, at_rid, empty_remote, entry_told, latest, recorded_at, stored_at, trimmed};
ghost use Rattle.cf_model.specs.Words.{comes_before, part, same, says, sorted};
ghost use Rattle.cf_remote.specs.Depths.{deepest, depth_in, is_under_in};
ghost use Rattle.cf_remote.specs.Feeds.{feed_in};
ghost use Rattle.cf_remote.specs.Held.{grown, held_len};
ghost use Rattle.cf_remote.specs.Listable.{AreApart};

use crate::by_name::{child, has_child, is_taken, listing};
use crate::changes::{add_item, end_item, move_item, trim_all};
use crate::depths::{depth_of, height_of, is_under};
use crate::feeds::feed;
use crate::lookups::find;
use crate::stored::StoredItem;
use crate::tokens::Tokens;
use cf_base::{Blob, Entry, OutOfMemory, Rid, Sequence, Token, Version};
use cf_collections::ChunkedList;
use std::alloc::Global;
use std::marker::Model;

/// All items, dead ones too, in order of rid, beside an index of the live ones by parent and name. How many live, and
/// how many bytes are held, is kept and not computed.
#[derive(Drop)]
pub(crate) struct Shelf {
    items: Vec<StoredItem>,
    by_name: ChunkedList<Rid>,
    live: u64,
    held: u64,
    alloc: Global,
}

impl Model for Shelf {
    ghost use Rattle.std.specs.Prelude.{List};
    ghost use Rattle.cf_model.specs.Store.{Stored};
    ghost use Rattle.cf_remote.specs.Order.{IsShelf};

    ghost Value = { List Stored };

    ghost view = { λ s. s.items.items };

    ghost invariant = { λ s. IsShelf s.items.items s.by_name s.live s.held };
}

impl Shelf {
    /// How many items live, the root among them.
    pub(crate) fn live(&self) -> u64
        ensures live { result ≡ count_by (λ s. s.live) self.now }
        ensures small { result < 2 ^ 63 }
    {
        self.live
    }

    /// How many items there are, dead ones too.
    pub(crate) fn len(&self) -> usize
        ensures { result ≡ length self.now }
    {
        self.items.len()
    }

    /// How many bytes the versions have that are held.
    pub(crate) fn held(&self) -> u64
        ensures held { result ≡ sum_by held_len self.now }
        ensures within { result ≤ 536870912 }
    {
        self.held
    }

    /// The rid of the next item. It also tells how much is held at most.
    pub(crate) fn next_rid(&self) -> Rid
        ensures next { result.0 ≡ length self.now + 1 }
        ensures small { result.0 ≤ 2 ^ 63 }
        ensures within { sum_by held_len self.now ≤ 536870912 }
    {
        Rid(self.items.len() as u64 + 1)
    }

    /// The item with the rid.
    pub(crate) fn get(&self, rid: Rid) -> Option<&StoredItem>
        ensures there { option_copied result ≡ stored_at self.now rid }
        ensures small { IfSome result (λ _. rid.0 < 2 ^ 63) }
    {
        find(&self.items, rid)
    }

    /// A live child of the parent, but for one item, has the name.
    pub(crate) fn is_taken(&self, parent: Rid, name: &[u8], but: Rid) -> bool
        ensures { result ≡ list_any (λ s. s.live && (s.parent.0 == parent.0) && same s.name name.now && not (s.rid.0 == but.0)) self.now }
    {
        is_taken(&self.items, &self.by_name, parent, name, but)
    }

    /// A live item has this parent.
    pub(crate) fn has_child(&self, rid: Rid) -> bool
        ensures { result ≡ list_any (λ s. s.live && (s.parent.0 == rid.0)) self.now }
    {
        has_child(&self.items, &self.by_name, rid)
    }

    /// What is told of the live children of a directory, by name.
    pub(crate) fn listing(&self, rid: Rid) -> Result<Sequence<Entry>, OutOfMemory>
        ensures room { IfOk result (λ es. All (λ e. length e.name ≤ 255) es) }
        ensures told { IfOk result (λ es. es ≡ sorted (λ e f. comes_before e.name f.name) (map entry_told (filter (λ s. s.live && (s.parent.0 == rid.0)) self.now))) }
    {
        let entries = listing(self.alloc, &self.items, &self.by_name, rid)?;
        Ok(Sequence::from_vec(entries))
    }

    /// The live child of a directory that has the name, which no other of them has.
    pub(crate) fn child(&self, rid: Rid, name: &[u8]) -> Option<&StoredItem>
        ensures found { option_map entry_told (option_copied result) ≡ named name.now (sorted (λ e f. comes_before e.name f.name) (map entry_told (filter (λ s. s.live && (s.parent.0 == rid.0)) self.now))) }
        ensures apart { AreApart (sorted (λ e f. comes_before e.name f.name) (map entry_told (filter (λ s. s.live && (s.parent.0 == rid.0)) self.now))) }
    {
        child(&self.items, &self.by_name, rid, name)
    }

    /// What is told of all that changed above the clock.
    pub(crate) fn feed(&self, after: u64) -> Result<Sequence<Entry>, OutOfMemory>
        ensures room { IfOk result (λ es. All (λ e. length e.name ≤ 255) es) }
        ensures told { IfOk result (λ es. es ≡ feed_in self.now after) }
    {
        let entries = feed(self.alloc, &self.items, after)?;
        Ok(Sequence::from_vec(entries))
    }

    /// How many names the path of an item has.
    pub(crate) fn depth_of(&self, rid: Rid) -> usize
        ensures depth { result ≡ depth_in self.now rid }
        ensures small { result < 2 ^ 63 }
    {
        depth_of(&self.items, rid)
    }

    /// The item is the other or below it.
    pub(crate) fn is_under(&self, rid: Rid, top: Rid) -> bool
        ensures { result ≡ is_under_in self.now rid top }
    {
        is_under(&self.items, rid, top)
    }

    /// How many names the longest path of a live item below has more.
    pub(crate) fn height_of(&self, rid: Rid) -> usize
        ensures height { result ≡ deepest self.now rid self.now - depth_in self.now rid }
        ensures small { result < 2 ^ 63 }
    {
        height_of(&self.items, rid)
    }

    /// How many bytes are held once a file has one more version of `len` bytes, of which `keep` are held.
    pub(crate) fn held_with(&self, rid: Rid, len: u64, keep: Option<u32>) -> u64
        requires { len ≤ MOST_FILE_BYTES }
        ensures { (bytes : List ℕ) (clock : ℕ) → length bytes ≡ len → result ≡ sum_by held_len (at_rid rid (grown keep bytes clock) self.now) }
    {
        match find(&self.items, rid) {
            None => self.held,
            Some(item) => item.held_with(self.held, len, keep),
        }
    }

    /// Adds a live item whose place is free, and the record of its token. Without memory nothing changes.
    pub(crate) fn add(
        &mut self,
        item: StoredItem,
        tokens: &mut Tokens,
        token: Token,
    ) -> Result<(), OutOfMemory>
        requires next { item.rid.0 ≡ length self.old + 1 }
        requires live { item.live ≡ true }
        requires free { list_any (λ s. s.live && (s.parent.0 == item.parent.0) && same s.name item.name && not (s.rid.0 == 0)) self.old ≡ false }
        requires fits { sum_by held_len self.old + held_len item ≤ 536870912 }
        requires inside { says (λ s. s.directory) (stored_at self.old item.parent) ≡ true }
        requires new { recorded_at tokens.old token ≡ None }
        ensures ok { OnOk result (self.new ≡ self.old ++ item ∷ []) }
        ensures recorded { OnOk result (tokens.new ≡ (token, RecordedDone item.rid (record { 0 = latest item })) ∷ tokens.old) }
        ensures err { OnErr result (self.new ≡ self.old) }
        ensures unrecorded { OnErr result (tokens.new ≡ tokens.old) }
    {
        let held = self.held + item.held_len();
        add_item(&mut self.items, &mut self.by_name, item, tokens, token)?;
        self.held = held;
        self.live += 1;
        Ok(())
    }

    /// Puts a live item at another place, which no other has, and records the token. Without memory nothing changes.
    pub(crate) fn place(
        &mut self,
        rid: Rid,
        parent: Rid,
        name: Blob,
        changed: u64,
        tokens: &mut Tokens,
        token: Token,
    ) -> Result<(), OutOfMemory>
        requires live { says (λ s. s.live) (stored_at self.old rid) ≡ true }
        requires name { length name ≤ 255 }
        requires inside { says (λ s. s.directory) (stored_at self.old parent) ≡ true }
        requires free { list_any (λ s. s.live && (s.parent.0 == parent.0) && same s.name name && not (s.rid.0 == rid.0)) self.old ≡ false }
        requires new { recorded_at tokens.old token ≡ None }
        ensures ok { OnOk result (self.new ≡ at_rid rid (λ s. record s { parent = parent; name = name; changed = changed }) self.old) }
        ensures recorded { OnOk result (tokens.new ≡ (token, RecordedDone rid (record { 0 = part latest 0 (stored_at self.old rid) })) ∷ tokens.old) }
        ensures err { OnErr result (self.new ≡ self.old) }
        ensures unrecorded { OnErr result (tokens.new ≡ tokens.old) }
    {
        move_item(
            &mut self.items,
            &mut self.by_name,
            rid,
            parent,
            name,
            changed,
            tokens,
            token,
        )
    }

    /// A live item is no longer live.
    pub(crate) fn end(&mut self, rid: Rid, changed: u64)
        requires { says (λ s. s.live) (stored_at self.old rid) ≡ true }
        ensures { self.new ≡ at_rid rid (λ s. record s { live = false; changed = changed }) self.old }
    {
        end_item(&mut self.items, &mut self.by_name, rid, changed);
        self.live -= 1;
    }

    /// Gives a file one more version, of which the last are held, and records its token. Without memory nothing changes.
    pub(crate) fn grow(
        &mut self,
        rid: Rid,
        bytes: Blob,
        keep: Option<u32>,
        changed: u64,
        tokens: &mut Tokens,
        token: Token,
    ) -> Result<Version, OutOfMemory>
        requires there { says (λ s. s.live) (stored_at self.old rid) ≡ true }
        requires small { length bytes ≤ MOST_FILE_BYTES }
        requires fits { sum_by held_len (at_rid rid (grown keep bytes changed) self.old) ≤ 536870912 }
        requires new { recorded_at tokens.old token ≡ None }
        ensures ok { OnOk result (self.new ≡ at_rid rid (grown keep bytes changed) self.old) }
        ensures version { IfOk result (λ v. v.0 ≡ part latest 0 (stored_at self.old rid) + 1) }
        ensures recorded { IfOk result (λ v. tokens.new ≡ (token, RecordedDone rid v) ∷ tokens.old) }
        ensures err { OnErr result (self.new ≡ self.old) }
        ensures unrecorded { OnErr result (tokens.new ≡ tokens.old) }
    {
        let len = bytes.as_slice().len() as u64;
        let held = self.held_with(rid, len, keep);
        let item = &mut self.items[rid.0 as usize - 1];
        let version = item.grow(bytes, keep, changed, tokens, token)?;
        self.held = held;
        Ok(version)
    }

    /// Holds the last versions of each file only.
    pub(crate) fn trim(&mut self, count: u32)
        ensures { self.new ≡ map (trimmed (Some count)) self.old }
    {
        self.held = trim_all(&mut self.items, count, self.held);
    }
}

/// The shelf of a new remote: the root alone.
pub(crate) fn first_shelf(alloc: Global) -> Result<Shelf, OutOfMemory>
    ensures { IfOk result (λ s. s ≡ empty_remote.items) }
{
    let name = Blob::from_vec(Vec::new(alloc));
    let root = StoredItem::directory(alloc, Rid(1), Rid(0), name, 0);
    let mut items = Vec::new(alloc);
    items.push(root)?;
    let mut rids = Vec::new(alloc);
    rids.push(Rid(1))?;
    let by_name = ChunkedList::from_vec(alloc, rids)?;
    Ok(Shelf {
        items,
        by_name,
        live: 1,
        held: 0,
        alloc,
    })
}
