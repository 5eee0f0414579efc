//! Auxiliary records, as they are spelled.

ghost use Rattle.std.specs.Prelude.{◌≡◌, ◌<◌, ◌^◌, ◌++◌, ◌∷◌, true, IfOk, OnOk};
ghost use Rattle.cf_base.specs.Names.{is_name};
ghost use Rattle.cf_model.specs.Books.{action_byte, key_bytes, seen_record, usn_bytes};
ghost use Rattle.cf_model.specs.Words.{in_bytes};
ghost use Rattle.cf_engine_queue.specs.Books.{action_of, entry_value, tombstone_value};
ghost use Rattle.cf_engine_queue.specs.Records.{AreSeen, FitsKey, FitsUsn, IsCursor, IsEntry, IsSeen, IsTombstone};

use crate::uploads::{Action, QueueEntry, Tombstone};
use cf_base::{
    AuxRecord, Blob, ItemId, OutOfMemory, SeenPath, Sequence, Token, Usn, is_name, no_such_state,
};
use cf_codec::Writer;
use std::alloc::Global;

#[tactic(auto, using(crate::proofs::Spelled::four_bytes))]
fn put_4(out: &mut Writer, v: u32) -> Result<(), OutOfMemory>
    ensures ok { OnOk result (out.new ≡ out.old ++ in_bytes 4 v) }
    ensures fits { v < 2 ^ 32 }
{
    out.put_u32(v)
}

#[tactic(auto, using(crate::proofs::Spelled::eight_bytes))]
pub(crate) fn put_8(out: &mut Writer, v: u64) -> Result<(), OutOfMemory>
    ensures ok { OnOk result (out.new ≡ out.old ++ in_bytes 8 v) }
    ensures fits { v < 2 ^ 64 }
{
    out.put_u64(v)
}

// A key of this kind for a pair of numbers.
fn pair_key(alloc: Global, kind: u8, first: u32, second: u32) -> Result<Blob, OutOfMemory>
    ensures ok { IfOk result (λ key. key ≡ kind ∷ (in_bytes 4 first ++ in_bytes 4 second)) }
    ensures fits { (first < 2 ^ 32) × (second < 2 ^ 32) }
{
    let mut out = Writer::new(alloc);
    out.put_u8(kind)?;
    put_4(&mut out, first)?;
    put_4(&mut out, second)?;
    Ok(out.into_blob())
}

fn action_byte(action: Action) -> u8
    ensures { result ≡ action_byte (action_of action) }
{
    match action {
        Action::Put => 1,
        Action::MakeDir => 2,
        Action::Move => 3,
        Action::Remove => 4,
    }
}

/// The auxiliary record of the cursor. A book has one where its cursor is not 0.
pub fn spell_cursor(alloc: Global, clock: u64) -> Result<AuxRecord, OutOfMemory>
    ensures { IfOk result (λ r. IsCursor r clock) }
{
    let key = Blob::from_slice(alloc, b"c")?;
    let mut out = Writer::new(alloc);
    put_8(&mut out, clock)?;
    let value = out.into_blob();
    Ok(AuxRecord { key, value })
}

/// The key of the auxiliary record of a path seen.
pub fn seen_key(alloc: Global, item: ItemId) -> Result<Blob, OutOfMemory>
    ensures ok { IfOk result (λ key. key ≡ 115 ∷ in_bytes 8 item.0) }
    ensures fits { item.0 < 2 ^ 64 }
{
    let mut out = Writer::new(alloc);
    out.put_u8(b's')?;
    put_8(&mut out, item.0)?;
    Ok(out.into_blob())
}

/// The bytes of that key, for a look-up.
#[tactic(auto, using(crate::proofs::Spelled::eight_bytes))]
pub(crate) fn seen_key_bytes(item: ItemId) -> [u8; 9]
    ensures ok { result ≡ 115 ∷ in_bytes 8 item.0 }
    ensures fits { item.0 < 2 ^ 64 }
{
    let id = item.0.to_be_bytes();
    [b's', id[0], id[1], id[2], id[3], id[4], id[5], id[6], id[7]]
}

fn seen_value(alloc: Global, seen: &SeenPath) -> Result<Blob, OutOfMemory>
    ensures ok { IfOk result (λ value. value ≡ in_bytes 8 seen.now.parent.0 ++ seen.now.name) }
    ensures fits { seen.now.parent.0 < 2 ^ 64 }
{
    let mut out = Writer::new(alloc);
    put_8(&mut out, seen.parent.0)?;
    out.put_bytes(seen.name.as_slice())?;
    Ok(out.into_blob())
}

/// The auxiliary record of a path seen, of which `read_seen` gives the path back. No path is seen whose name is none: of such a one it
/// is out of memory.
pub fn spell_seen(alloc: Global, seen: &SeenPath) -> Result<AuxRecord, OutOfMemory>
    ensures { IfOk result (λ r. IsSeen r seen.now) }
{
    if !is_name(seen.name.as_slice()) {
        return Err(no_such_state());
    }
    let key = seen_key(alloc, seen.item)?;
    let value = seen_value(alloc, seen)?;
    Ok(AuxRecord { key, value })
}

/// The auxiliary records of these paths seen, in order. It is out of memory where `spell_seen` is.
pub fn spell_paths(alloc: Global, paths: &[SeenPath]) -> Result<Sequence<AuxRecord>, OutOfMemory>
    ensures { IfOk result (AreSeen paths.now) }
{
    let mut records = Sequence::new(alloc);
    for path in paths {
        records.push(spell_seen(alloc, path)?)?;
    }
    Ok(records)
}

fn entry_value(alloc: Global, entry: &QueueEntry) -> Result<Blob, OutOfMemory>
    ensures ok { IfOk result (λ value. value ≡ in_bytes 8 entry.now.item.0 ++ (action_byte (action_of entry.now.action) ∷ (usn_bytes entry.now.number ++ (in_bytes 8 entry.now.rid.0 ++ (in_bytes 8 entry.now.parent.0 ++ entry.now.name))))) }
    ensures fits { IfOk result (λ _. (entry.now.item.0 < 2 ^ 64) × FitsUsn entry.now.number × (entry.now.rid.0 < 2 ^ 64) × (entry.now.parent.0 < 2 ^ 64)) }
{
    let mut out = Writer::new(alloc);
    put_8(&mut out, entry.item.0)?;
    out.put_u8(action_byte(entry.action))?;
    put_4(&mut out, entry.number.epoch)?;
    put_4(&mut out, entry.number.place)?;
    put_8(&mut out, entry.rid.0)?;
    put_8(&mut out, entry.parent.0)?;
    out.put_bytes(entry.name.as_slice())?;
    Ok(out.into_blob())
}

/// The key of the auxiliary record of an entry.
pub fn entry_key(alloc: Global, token: Token) -> Result<Blob, OutOfMemory>
    ensures ok { IfOk result (λ key. key ≡ 113 ∷ key_bytes token.0) }
    ensures fits { FitsKey token.0 }
{
    pair_key(alloc, b'q', token.0.epoch, token.0.number)
}

impl QueueEntry {
    /// The entry's auxiliary record, of which `read_record` gives the entry back.
    pub fn spell(&self, alloc: Global) -> Result<AuxRecord, OutOfMemory>
        ensures { IfOk result (λ r. IsEntry r (entry_value self.now)) }
    {
        let key = entry_key(alloc, self.token)?;
        let value = entry_value(alloc, self)?;
        Ok(AuxRecord { key, value })
    }
}

fn tombstone_value(alloc: Global, tombstone: Tombstone) -> Result<Blob, OutOfMemory>
    ensures ok { IfOk result (λ value. value ≡ in_bytes 8 tombstone.rid.0 ++ in_bytes 8 tombstone.version.0) }
    ensures fits { (tombstone.rid.0 < 2 ^ 64) × (tombstone.version.0 < 2 ^ 64) }
{
    let mut out = Writer::new(alloc);
    put_8(&mut out, tombstone.rid.0)?;
    put_8(&mut out, tombstone.version.0)?;
    Ok(out.into_blob())
}

/// The key of the auxiliary record of a tombstone.
pub fn tombstone_key(alloc: Global, number: Usn) -> Result<Blob, OutOfMemory>
    ensures ok { IfOk result (λ key. key ≡ 116 ∷ usn_bytes number) }
    ensures fits { FitsUsn number }
{
    pair_key(alloc, b't', number.epoch, number.place)
}

impl Tombstone {
    /// The tombstone's auxiliary record, of which `read_record` gives the tombstone back.
    pub fn spell(&self, alloc: Global) -> Result<AuxRecord, OutOfMemory>
        ensures { IfOk result (λ r. IsTombstone r (tombstone_value self.now)) }
    {
        let key = tombstone_key(alloc, self.number)?;
        let value = tombstone_value(alloc, *self)?;
        Ok(AuxRecord { key, value })
    }
}
