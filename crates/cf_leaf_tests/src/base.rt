//! Tests of what no clause says: that each call succeeds where memory is ample.

use cf_base::{
    Blob, CallError, Change, Code, Hydration, Identity, ItemId, Mode, Name, OutOfMemory, Policy,
    Population, Sequence, Span, Status, Text, blocks_of,
};
use std::alloc::Global;
use std::test::Fail as TestFail;

// Whether a name of these bytes has them; none where they are refused as no name.
fn has_name(alloc: Global, bytes: &[u8]) -> Result<Option<bool>, OutOfMemory> {
    match Name::read(alloc, bytes) {
        Ok(name) => {
            let same = name.as_slice() == bytes;
            drop(name);
            Ok(Some(same))
        }
        Err(CallError::No(Code::BadPath)) => Ok(None),
        Err(_) => Err(OutOfMemory),
    }
}

const BAD_NAMES: [&[u8]; 7] = [b"", b".", b"..", b"a/b", b"a:b", b"a\x7f", b"\xff"];

#[test]
fn names_are_judged(rt: HostRuntime) -> Result<(), TestFail> {
    let alloc = rt.alloc();
    let long = [b'a'; 256];
    assert!(rt; has_name(alloc, b"plan (1).txt")? == Some(true));
    assert!(rt; has_name(alloc, "é".as_bytes())? == Some(true));
    assert!(rt; has_name(alloc, &long[..255])? == Some(true));
    assert!(rt; has_name(alloc, &long)?.is_none());
    for bad in BAD_NAMES {
        assert!(rt; has_name(alloc, bad)?.is_none());
    }
    Ok(())
}

// Whether an identity of these bytes has them; none where it is refused as too long.
fn has_identity(alloc: Global, bytes: &[u8]) -> Result<Option<bool>, OutOfMemory> {
    match Identity::read(alloc, bytes) {
        Ok(identity) => {
            let same = identity.as_slice() == bytes;
            drop(identity);
            Ok(Some(same))
        }
        Err(CallError::No(Code::IdentityTooLong)) => Ok(None),
        Err(_) => Err(OutOfMemory),
    }
}

// Whether a copy of an identity of these bytes has them.
fn is_copied(alloc: Global, bytes: &[u8]) -> Result<bool, OutOfMemory> {
    let identity = Identity::new(alloc, bytes)?;
    let copy = identity.copy();
    drop(identity);
    let copy = copy?;
    let same = copy.as_slice() == bytes;
    drop(copy);
    Ok(same)
}

#[test]
fn identities_end_at_4096_bytes(rt: HostRuntime) -> Result<(), TestFail> {
    let long = [7; 4097];
    assert!(rt; has_identity(rt.alloc(), &long[..4096])? == Some(true));
    assert!(rt; has_identity(rt.alloc(), &long)?.is_none());
    assert!(rt; is_copied(rt.alloc(), &long)?);
    Ok(())
}

fn blob_is_copied(alloc: Global) -> Result<bool, OutOfMemory> {
    let blob = Blob::from_slice(alloc, b"ab")?;
    let copy = blob.copy();
    drop(blob);
    let copy = copy?;
    let same = copy.as_slice() == b"ab".as_slice();
    drop(copy);
    Ok(same)
}

fn text_is_copied(alloc: Global) -> Result<bool, OutOfMemory> {
    let path = Text::from_str(alloc, "/a")?;
    let copy = path.copy();
    drop(path);
    let copy = copy?;
    let same = copy.as_str() == "/a";
    drop(copy);
    Ok(same)
}

fn is_move(change: &Change) -> bool {
    match change {
        Change::Move { item, parent, name } => {
            *item == ItemId(2) && *parent == ItemId(1) && name.as_slice() == b"a".as_slice()
        }
        _ => false,
    }
}

fn change_is_copied(alloc: Global) -> Result<bool, CallError> {
    let name = Name::read(alloc, b"a")?;
    let change = Change::Move {
        item: ItemId(2),
        parent: ItemId(1),
        name,
    };
    let copy = change.copy();
    drop(change);
    let copy = copy?;
    let same = is_move(&copy);
    drop(copy);
    Ok(same)
}

#[test]
fn copies_are_made(rt: HostRuntime) -> Result<(), TestFail> {
    assert!(rt; blob_is_copied(rt.alloc())?);
    assert!(rt; text_is_copied(rt.alloc())?);
    assert!(rt; change_is_copied(rt.alloc())?);
    Ok(())
}

fn has_second(alloc: Global) -> Result<bool, OutOfMemory> {
    let mut ids = Sequence::new(alloc);
    ids.push(ItemId(7))?;
    ids.push(ItemId(8))?;
    Ok(ids.get(1) == Some(&ItemId(8)) && ids.get(2).is_none())
}

#[test]
fn sequences_are_pushed_to(rt: HostRuntime) -> Result<(), TestFail> {
    assert!(rt; has_second(rt.alloc())?);
    Ok(())
}

#[test]
fn policies_are_judged(rt: HostRuntime) {
    let policy = Policy {
        hydration: Hydration::AlwaysFull,
        population: Population::Full,
        validate: false,
        restart: false,
        auto: true,
    };
    assert!(rt; policy.check(Mode::Filter) == Ok(()));
    assert!(rt; policy.check(Mode::Replay) == Err(Code::BadPolicy));
}

#[test]
fn numbers_are_told(rt: HostRuntime) {
    assert!(rt; Code::VersionGone.number() == 45);
    assert!(rt; Status::Damaged.number() == 13);
    let span = Span {
        start: 4095,
        len: 2,
    };
    assert!(rt; blocks_of(span) == Span { start: 0, len: 2 });
}
