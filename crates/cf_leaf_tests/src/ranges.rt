//! Tests of sets of positions, of extents and of claims.

ghost use Rattle.std.specs.Prelude.{◌≡◌};

use cf_base::{Key, OutOfMemory, Span};
use cf_ranges::{Claims, ExtentMap, RangeSet, Spent};
use std::alloc::Global;
use std::test::Fail;

fn span(start: u64, len: u64) -> Span
    ensures start { result.start ≡ start }
    ensures len { result.len ≡ len }
{
    Span { start, len }
}

const FIRST: Key = Key {
    epoch: 1,
    number: 1,
};

const SECOND: Key = Key {
    epoch: 1,
    number: 2,
};

#[test]
fn takes_what_nobody_owns(rt: HostRuntime) -> Result<(), Fail> {
    let mut book = Claims::new(rt.alloc());
    let claim = book.take(FIRST, span(0, 2))?.expect(&rt, "free");
    let none = book.take(SECOND, span(1, 1)).expect(&rt, "memory");
    let Option::None = none else {
        panic!(rt; "block 1 is owned");
    };
    let _blocks = book.spend(claim, Spent::Filled);
    Ok(())
}

#[test]
fn spends_the_parts_of_a_claim(rt: HostRuntime) -> Result<(), Fail> {
    let mut book = Claims::new(rt.alloc());
    let claim = book.take(FIRST, span(0, 4))?.expect(&rt, "free");
    let (first, second) = claim.split(1);
    assert_eq!(rt; first.blocks(), span(0, 1));
    assert_eq!(rt; second.blocks(), span(1, 3));
    assert_eq!(rt; book.spend(first, Spent::Failed), span(0, 1));
    assert!(rt; !book.owns(0));
    let again = book.take(SECOND, span(0, 1)).expect(&rt, "memory");
    let again = again.expect(&rt, "free");
    assert_eq!(rt; again.key(), SECOND);
    let none = book.take(SECOND, span(1, 1)).expect(&rt, "memory");
    let Option::None = none else {
        panic!(rt; "block 1 is owned");
    };
    let _first = book.spend(again, Spent::Released);
    let _rest = book.spend(second, Spent::Filled);
    Ok(())
}

fn puts(map: &mut ExtentMap) -> Result<bool, OutOfMemory> {
    let first = map.put(3, 9)?;
    let again = map.put(3, 9)?;
    let before = map.put(1, 7)?;
    let are_told = first.is_none() && again == Some(9) && before.is_none();
    Ok(are_told && map.pairs() == [(1, 7), (3, 9)].as_slice())
}

// A copy keeps what is taken.
fn takes(map: &mut ExtentMap) -> Result<bool, OutOfMemory> {
    let copy = map.copy()?;
    let are_told = map.take(1) == Some(7) && map.take(1).is_none();
    let is_kept = copy.get(1) == Some(7);
    drop(copy);
    Ok(are_told && is_kept)
}

fn puts_then_takes(map: &mut ExtentMap) -> Result<bool, OutOfMemory> {
    Ok(puts(map)? && takes(map)?)
}

fn is_map(alloc: Global) -> Result<bool, OutOfMemory> {
    let pairs = vec![in alloc; (1, 7), (3, 9)]?;
    match ExtentMap::from_pairs(pairs) {
        Some(map) => {
            drop(map);
            Ok(true)
        }
        None => Ok(false),
    }
}

#[test]
fn puts_and_takes(rt: HostRuntime) -> Result<(), Fail> {
    let mut map = ExtentMap::new(rt.alloc());
    let told = puts_then_takes(&mut map);
    drop(map);
    assert!(rt; told?);
    assert!(rt; is_map(rt.alloc())?);
    Ok(())
}

fn adds_then_cuts(set: &mut RangeSet) -> Result<bool, OutOfMemory> {
    set.add(span(0, 5))?;
    set.cut(span(2, 1))?;
    let gaps = set.missing_in(span(0, 8))?;
    let are_gaps = gaps.as_slice() == [span(2, 1), span(5, 3)].as_slice();
    drop(gaps);
    let are_runs = set.runs() == [span(0, 2), span(3, 2)].as_slice();
    Ok(are_gaps && are_runs && set.has(4) && !set.has(2) && set.blocks() == 1)
}

#[test]
fn adds_and_cuts(rt: HostRuntime) -> Result<(), Fail> {
    let mut set = RangeSet::new(rt.alloc());
    let told = adds_then_cuts(&mut set);
    drop(set);
    assert!(rt; told?);
    Ok(())
}

// Whether the set has these runs.
fn is_set(made: Result<RangeSet, OutOfMemory>, runs: &[Span]) -> Result<bool, OutOfMemory> {
    let set = made?;
    let same = set.runs() == runs;
    drop(set);
    Ok(same)
}

fn is_parted(set: &RangeSet, joined: &RangeSet) -> Result<bool, OutOfMemory> {
    let is_rest = is_set(joined.without_all(set.runs()), &[span(4097, 4903)])?;
    let cut = joined.without(span(4096, 4905))?;
    let is_cut = cut.runs() == [span(4095, 1)].as_slice();
    let others = cut.with_all(set.runs());
    drop(cut);
    Ok(is_rest && is_cut && is_set(others, set.runs())?)
}

fn is_joined(set: &RangeSet) -> Result<bool, OutOfMemory> {
    let joined = set.with(span(4097, 4903))?;
    let is_one = joined.runs() == [span(4095, 4906)].as_slice();
    let parted = is_parted(set, &joined);
    drop(joined);
    Ok(is_one && parted?)
}

fn makes_sets(alloc: Global) -> Result<bool, OutOfMemory> {
    let runs = vec![in alloc; span(4095, 2), span(9000, 1)]?;
    let Some(set) = RangeSet::from_runs(alloc, runs) else {
        return Ok(false);
    };
    let is_read = set.blocks() == 3 && set.touches(1);
    let joined = is_joined(&set);
    drop(set);
    Ok(is_read && joined?)
}

#[test]
fn makes_new_sets(rt: HostRuntime) -> Result<(), Fail> {
    assert!(rt; makes_sets(rt.alloc())?);
    Ok(())
}
