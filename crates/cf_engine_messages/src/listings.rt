//! Entries of a directory, as the engine takes them outside a callback.

ghost use Rattle.std.specs.Prelude.{IfOk};
ghost use Rattle.cf_base.specs.declared.answers.Shown.TheVariants as shown;
ghost use Rattle.cf_engine_messages.specs.Listings.{AreListed};
ghost use Rattle.cf_engine_provider.specs.Parts.{give_entries};
ghost use Rattle.cf_engine_steps.specs.Answering.{Answers, Any};
ghost use Rattle.cf_engine_steps.specs.States.{whole};
ghost use Rattle.cf_model.specs.Arrows.{then_do};
ghost use Rattle.cf_model.specs.Fetching.{after_listing, no_entries, take_listing};
ghost use Rattle.cf_model.specs.Operations.{execute_with};
ghost use Rattle.cf_model.specs.Ports.{seeing};
ghost use Rattle.cf_model.specs.Skips.{skip};
ghost use Rattle.cf_filter_steps.specs.Answering.{Answers as FilterAnswers, Any as AnyFilter};

use crate::operations::refusal_of;
use crate::refusals::no_entries;
use cf_base::{
    CallError, Code, Entry, Key, NewItem, Operation, OutOfMemory, SeenPath, Sequence, Shown,
};
use cf_engine_host::EngineHost;
use cf_engine_provider::{locals_of, new_items, paths_from, unknown};
use cf_engine_queue::spell_paths;
use cf_engine_steps::{Engine, skip};
use cf_filter_calls::execute_with;
use cf_remote::Remote;
use std::alloc::Global;

// An operation, with these paths seen in the same step.
fn execute_seeing<S: EngineHost>(
    s: &mut S,
    op: &Operation,
    seen: &[SeenPath],
) -> Result<Shown, CallError>
    ensures { FilterAnswers S.sense AnyFilter (execute_with (seeing seen.now) op.now) s.old result s.new }
{
    let records = spell_paths(s.alloc(), seen)?;
    let done = execute_with(s, op, records.as_slice());
    drop(records);
    done
}

// A step is left out, and there are no entries.
fn skip_entries<S: EngineHost, R: Remote>(
    s: &mut S,
    e: &mut Engine<R>,
    key: Key,
    code: Code,
) -> Result<(), CallError>
    ensures { Answers (whole S.sense R.told) Any (then_do (skip code) (no_entries key)) (s.old, e.old) result (s.new, e.new) }
{
    skip(s, e, code)?;
    no_entries(s, e, key)
}

// What follows entries that were refused.
fn after_listing<S: EngineHost, R: Remote>(
    s: &mut S,
    e: &mut Engine<R>,
    key: Key,
    code: Code,
) -> Result<(), CallError>
    ensures { Answers (whole S.sense R.told) Any (after_listing key (shown.Refused code)) (s.old, e.old) result (s.new, e.new) }
{
    match code {
        Code::TableFull => skip(s, e, code),
        Code::TooManyAsks => skip(s, e, code),
        Code::Exhausted => skip(s, e, code),
        Code::TooDeep => skip_entries(s, e, key, code),
        _ => no_entries(s, e, key),
    }
}

// Entries, with the paths seen of their items. Where there is no room, or no number, the ask stays live; for any other cause there are
// no entries.
fn give_entries<S: EngineHost, R: Remote>(
    s: &mut S,
    e: &mut Engine<R>,
    key: Key,
    list: Sequence<NewItem>,
    seen: &[SeenPath],
) -> Result<(), CallError>
    ensures { Answers (whole S.sense R.told) Any (give_entries key list seen.now) (s.old, e.old) result (s.new, e.new) }
{
    let entries = Operation::Entries {
        key,
        list,
        good: true,
    };
    let done = execute_seeing(s, &entries, seen);
    drop(entries);
    let shown = done?;
    let refused = refusal_of(&shown);
    drop(shown);
    match refused {
        Some(code) => after_listing(s, e, key, code),
        None => Ok(()),
    }
}

// The new items of the entries of items that are not here, with their paths.
fn listed<S: EngineHost>(
    s: &S,
    entries: &[Entry],
) -> Result<(Sequence<NewItem>, Vec<SeenPath>), OutOfMemory>
    ensures { IfOk result (λ p. AreListed S.sense entries.now s.now (p.0, p.1.items)) }
{
    let rows = s.rows();
    let local = locals_of(s.alloc(), rows.as_slice())?;
    let new = unknown(s.alloc(), &local, entries)?;
    let list = new_items(s.alloc(), &new)?;
    let seen = paths_from(s.alloc(), rows.next().0, &new)?;
    Ok((list, seen))
}

/// Listing: the entries of items that are not here become new items under the ask with this key, each marked, with its path seen in the
/// same step. Where there is no room for them, or no number, the step is left out and the ask stays live; for any other cause there are
/// no entries. It takes time by the items.
pub fn take_listing<S: EngineHost, R: Remote>(
    s: &mut S,
    e: &mut Engine<R>,
    key: Key,
    entries: &[Entry],
) -> Result<(), CallError>
    ensures { Answers (whole S.sense R.told) Any (take_listing key entries.now) (s.old, e.old) result (s.new, e.new) }
{
    let (list, seen) = listed(s, entries)?;
    let done = give_entries(s, e, key, list, &seen);
    drop(seen);
    done
}
