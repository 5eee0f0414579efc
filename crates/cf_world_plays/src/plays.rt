//! The events of a script, one after the other, and what is written of them.

ghost use Rattle.std.specs.Prelude.{◌≡◌, ◌++◌, ◌∷◌, [], List, IfErr, IfOk, OnOk, IsErrOf, IsTrue, is_some, true};
ghost use Rattle.std.specs.List.{list_all};
ghost use Rattle.cf_base.specs.declared.answers.Answer.{Answer as Answered};
ghost use Rattle.cf_base.specs.declared.events.Event.{Event as Done};
ghost use Rattle.cf_gen.specs.Summaries.{counts_of};
ghost use Rattle.cf_io.specs.Moves.{Rose};
ghost use Rattle.cf_report.specs.Texts.{text as text_of};
ghost use Rattle.cf_model.specs.Events.{is_of};
ghost use Rattle.cf_world_plays.specs.Led.{HasRunOn};
ghost use Rattle.cf_world_plays.specs.Steps.{AllPlayed, SomePlayed};

use crate::drafts::add;
use crate::play_errors::PlayError;
use crate::worlds::World;
use cf_base::{Blob, Event, OutOfMemory};
use cf_disk::Disk;
use cf_filter_events::Actor;
use cf_gen::Counts;
use cf_io::{Sink, write_all};
use cf_report::text;
use std::alloc::Global;

/// Does the events in a world in which nothing has happened, writes the text of each answer, and counts it. An event is dropped once it is
/// done, so that the bytes of a script do not stay in memory beside what they made.
pub fn play<K: Sink, D: Disk + Drop, A: Actor + Drop>(
    alloc: Global,
    world: &mut World<D, A>,
    events: Vec<Event>,
    sink: &mut K,
    counts: &mut Counts,
) -> Result<(), PlayError>
    requires whole { is_some world.old ≡ true }
    requires of { IsTrue (list_all (is_of A.acts.mode) events.items) }
    requires none { counts.old ≡ counts_of [] }
    ensures ok { (disk : D) (first : A) → HasRunOn D.state A.acts disk first [] world.old → OnOk result (AllPlayed D.state A.acts disk first events.items (K.held sink.old) (K.held sink.new) world.new counts.new) }
    ensures err { (disk : D) (first : A) → HasRunOn D.state A.acts disk first [] world.old → IfErr result (SomePlayed D.state A.acts disk first events.items (K.held sink.old) (K.held sink.new) world.new) }
    ensures whole { is_some world.new ≡ true }
    ensures fault { IsErrOf result PlayError.SinkFault → Rose (K.faults sink.old) (K.faults sink.new) }
{
    let mut waiting = Vec::new(alloc);
    let mut made: usize = 0;
    for event in events {
        let text = answer(alloc, world, event, counts)?;
        made = add(&mut waiting, made, text.as_slice(), sink)?;
    }
    write_all(sink, waiting.as_slice())?;
    Ok(())
}

/// Does an event and drops it, counts its answer, and gives its text.
fn answer<D: Disk + Drop, A: Actor + Drop>(
    alloc: Global,
    world: &mut World<D, A>,
    event: Event,
    counts: &mut Counts,
) -> Result<Blob, OutOfMemory>
    requires whole { is_some world.old ≡ true }
    requires of { is_of A.acts.mode event ≡ true }
    ensures ok { IfOk result (λ t. (a : Answered) × (t ≡ text_of a) × ((before : List Answered) → counts.old ≡ counts_of before → counts.new ≡ counts_of (before ++ a ∷ [])) × ((disk : D) (first : A) (trace : List (Done × Answered)) → HasRunOn D.state A.acts disk first trace world.old → HasRunOn D.state A.acts disk first (trace ++ (event, a) ∷ []) world.new)) }
    ensures whole { is_some world.new ≡ true }
{
    let done = world.step(alloc, &event);
    drop(event);
    let answer = done?;
    let counted = counts.add(&answer);
    let told = text(alloc, &answer);
    drop(answer);
    counted?;
    told
}
