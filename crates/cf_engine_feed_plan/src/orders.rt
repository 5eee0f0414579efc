//! The order of a feed's entries.

ghost use Rattle.std.specs.Prelude.{◌≡◌, ◌++◌, ◌-◌, IfOk, List, None, OnOk, map, nat_lt, slice_get};
ghost use Rattle.cf_base.specs.declared.messages.Entry.{Entry};
ghost use Rattle.cf_model.specs.Feeds.{depth_of_entry};
ghost use Rattle.cf_model.specs.Feeds as feeds;
ghost use Rattle.cf_model.specs.Identities.{by_target};
ghost use Rattle.cf_model.specs.Items.{Item};
ghost use Rattle.cf_model.specs.Words.{part, sorted};
ghost use Rattle.cf_engine_feed_plan.specs.Orders.{AreKnown, dead_from, dead_of, in_turn, live_from, live_of, placed, places};
ghost use Rattle.cf_engine_feed_plan.specs.Premises.{id_of};
ghost use Rattle.cf_table.specs.Tables.{MeansAll};
ghost use Rattle.cf_tree.specs.Trees.{IsTree};

use cf_base::{Entry, ItemId, OutOfMemory};
use cf_table::Rows;
use cf_tree::{MOST_NAMES, depth_of};
use std::alloc::Global;

/// A dead entry by its place. Its rank is the less, the deeper its local item stands.
#[derive(Clone, Copy)]
struct Dead {
    rank: usize,
    place: usize,
}

fn rank_of(rows: &Rows, known: Option<ItemId>) -> usize
    ensures { (items : List Item) (e : Entry) → MeansAll rows.now.rows items → IsTree items → known ≡ id_of (by_target items e.rid) → result ≡ 32 - depth_of_entry items e }
{
    match known {
        None => MOST_NAMES,
        Some(id) => MOST_NAMES - depth_of(rows, id),
    }
}

fn known_at(known: &[Option<ItemId>], place: usize) -> Option<ItemId>
    ensures { result ≡ part (λ o. o) None (slice_get known.now place) }
{
    match known.get(place) {
        None => None,
        Some(id) => *id,
    }
}

// Adds the entry, where it is dead.
fn push_dead(
    rows: &Rows,
    known: Option<ItemId>,
    entry: &Entry,
    place: usize,
    dead: &mut Vec<Dead>,
) -> Result<(), OutOfMemory>
    ensures { OnOk result ((items : List Item) → MeansAll rows.now.rows items → IsTree items → known ≡ id_of (by_target items entry.now.rid) → dead.new.items ≡ dead.old.items ++ dead_of items place entry.now) }
{
    if entry.live {
        return Ok(());
    }
    let rank = rank_of(rows, known);
    dead.push(Dead { rank, place })?;
    Ok(())
}

fn dead_entries(
    alloc: Global,
    rows: &Rows,
    feed: &[Entry],
    known: &[Option<ItemId>],
) -> Result<Vec<Dead>, OutOfMemory>
    ensures { IfOk result (λ v. (items : List Item) → MeansAll rows.now.rows items → IsTree items → AreKnown items feed.now known.now → v.items ≡ dead_from items 0 feed.now) }
{
    let mut dead = Vec::new(alloc);
    for place in 0..feed.len() {
        let known = known_at(known, place);
        push_dead(rows, known, &feed[place], place, &mut dead)?;
    }
    Ok(dead)
}

fn sort(dead: &mut Vec<Dead>) -> Result<(), OutOfMemory>
    ensures { OnOk result (dead.new.items ≡ sorted (λ a b. nat_lt a.rank b.rank) dead.old.items) }
{
    dead.sort_by_key(|entry| entry.rank)?;
    Ok(())
}

fn places_of(alloc: Global, dead: &[Dead]) -> Result<Vec<usize>, OutOfMemory>
    ensures { IfOk result (λ v. v.items ≡ map (λ d. d.place) dead.now) }
{
    Ok(dead.iter().map(|entry| entry.place).collect(alloc)?)
}

// Adds the place, where the entry is live.
fn push_if_live(entry: &Entry, place: usize, places: &mut Vec<usize>) -> Result<(), OutOfMemory>
    ensures { OnOk result (places.new.items ≡ places.old.items ++ live_of place entry.now) }
{
    if !entry.live {
        return Ok(());
    }
    places.push(place)?;
    Ok(())
}

fn push_live(feed: &[Entry], places: &mut Vec<usize>) -> Result<(), OutOfMemory>
    ensures { OnOk result (places.new.items ≡ places.old.items ++ live_from 0 feed.now) }
{
    for place in 0..feed.len() {
        push_if_live(&feed[place], place, places)?;
    }
    Ok(())
}

/// The places of a feed's entries in the order of their turns, each once: the dead ones, the deepest local item first, and then the
/// live ones as they came. `known` tells of each entry the first item by id whose target is the entry's item.
pub fn order(
    alloc: Global,
    rows: &Rows,
    feed: &[Entry],
    known: &[Option<ItemId>],
) -> Result<Vec<usize>, OutOfMemory>
    ensures { IfOk result (λ v. (items : List Item) → MeansAll rows.now.rows items → IsTree items → AreKnown items feed.now known.now → v.items ≡ places items feed.now) }
{
    let mut dead = dead_entries(alloc, rows, feed, known)?;
    sort(&mut dead)?;
    let mut places = places_of(alloc, dead.as_slice())?;
    push_live(feed, &mut places)?;
    Ok(places)
}

/// The entries at the places come in the order of the definitions.
#[tactic(auto, using(crate::proofs::Ordered::in_order))]
pub fn places_are_in_turn()
    ensures { (items : List Item) (es : List Entry) → map (λ p. p.1) (in_turn items (placed 0 es)) ≡ feeds.in_turn items es }
{}
