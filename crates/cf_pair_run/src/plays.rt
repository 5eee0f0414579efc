//! The events of a script, one after the other, and what is written of them.

ghost use Rattle.std.specs.Prelude.{◌≡◌, ◌≤◌, ◌++◌, ℕ, [], IfErr, IfOk, IsErrOf, IsTrue, List, OnOk, Option};
ghost use Rattle.std.specs.List.{list_all};
ghost use Rattle.cf_io.specs.Moves.{Adds, AddsFront, Rose};
ghost use Rattle.cf_pair_report.specs.Texts.{text as text_of};
ghost use Rattle.cf_pair_run.specs.Led.{HasRun};
ghost use Rattle.cf_pair_run.specs.UnderWay.{AllPlayed, IsPut, PutFails, SomePlayed};
ghost use Rattle.cf_pair_run.specs.Owned.{is_playable};
ghost use Rattle.cf_world_plays.specs.Steps.{AddFails, IsDrafted};

use crate::worlds::PairWorld;
use cf_base::OutOfMemory;
use cf_disk::Disk;
use cf_io::{Sink, write_all};
use cf_pair_events::{PairAnswer, PairEvent};
use cf_pair_report::text;
use cf_remote::Remote;
use cf_world_plays::{PlayError, add};
use std::alloc::Global;

/// Does the events in a world in which nothing has happened, and writes the text of each answer.
pub(crate) fn play<K: Sink, D: Disk + Drop, R: Remote + Drop>(
    alloc: Global,
    world: PairWorld<D, R>,
    events: &[PairEvent],
    sink: &mut K,
) -> (PairWorld<D, R>, Result<(), PlayError>)
    requires { IsTrue (list_all is_playable events.now) }
    ensures ok { (first second : D) (remote : R) → HasRun D.state R.told first second remote [] world → OnOk result.1 (AllPlayed D.state R.told first second remote events.now (K.held sink.old) (K.held sink.new) result.0) }
    ensures err { (first second : D) (remote : R) → HasRun D.state R.told first second remote [] world → IfErr result.1 (SomePlayed D.state R.told first second remote events.now (K.held sink.old) (K.held sink.new) result.0) }
    ensures fault { IsErrOf result.1 PlayError.SinkFault → Rose (K.faults sink.old) (K.faults sink.new) }
{
    let mut world = world;
    let mut waiting = Vec::new(alloc);
    let mut made: usize = 0;
    for event in events {
        let (next, told) = world.step(alloc, event);
        world = next;
        match put(alloc, told, &mut waiting, made, sink) {
            Ok(now) => {
                made = now;
            }
            Err(fail) => {
                drop(waiting);
                return (world, Err(fail));
            }
        }
    }
    let written = put_rest(waiting, sink);
    (world, written)
}

// Writes what waits.
fn put_rest<K: Sink>(waiting: Vec<u8>, sink: &mut K) -> Result<(), PlayError>
    ensures ok { OnOk result (Adds (K.held sink.old) (K.held sink.new) waiting.items) }
    ensures err { IfErr result (λ e. (e ≡ PlayError.SinkFault) × AddsFront (K.held sink.old) (K.held sink.new) waiting.items) }
    ensures fault { IsErrOf result PlayError.SinkFault → Rose (K.faults sink.old) (K.faults sink.new) }
    ensures never_falls { K.faults sink.old ≤ K.faults sink.new }
{
    let written = write_all(sink, waiting.as_slice());
    drop(waiting);
    match written {
        Ok(()) => Ok(()),
        Err(_fail) => Err(PlayError::SinkFault),
    }
}

// Adds the text of what was told to what waits, of a report of `made` bytes. Gives the bytes of the report then.
fn put<K: Sink>(
    alloc: Global,
    told: Result<PairAnswer, OutOfMemory>,
    waiting: &mut Vec<u8>,
    made: usize,
    sink: &mut K,
) -> Result<usize, PlayError>
    ensures ok { (text : List ℕ) (old : Option (List ℕ)) → IsDrafted text waiting.old.items made old (K.held sink.old) → IfOk result (λ n. IsPut told text waiting.new.items n old (K.held sink.new)) }
    ensures err { (text : List ℕ) (old : Option (List ℕ)) → IsDrafted text waiting.old.items made old (K.held sink.old) → IfErr result (PutFails told text old (K.held sink.new)) }
    ensures fault { IsErrOf result PlayError.SinkFault → Rose (K.faults sink.old) (K.faults sink.new) }
    ensures never_falls { K.faults sink.old ≤ K.faults sink.new }
{
    match told {
        Ok(answer) => put_answer(alloc, answer, waiting, made, sink),
        Err(_fail) => Err(PlayError::OutOfMemory),
    }
}

fn put_answer<K: Sink>(
    alloc: Global,
    answer: PairAnswer,
    waiting: &mut Vec<u8>,
    made: usize,
    sink: &mut K,
) -> Result<usize, PlayError>
    ensures ok { (text : List ℕ) (old : Option (List ℕ)) → IsDrafted text waiting.old.items made old (K.held sink.old) → IfOk result (λ n. IsDrafted (text ++ text_of answer) waiting.new.items n old (K.held sink.new)) }
    ensures err { (text : List ℕ) (old : Option (List ℕ)) → IsDrafted text waiting.old.items made old (K.held sink.old) → IfErr result (AddFails text (text_of answer) old (K.held sink.new)) }
    ensures fault { IsErrOf result PlayError.SinkFault → Rose (K.faults sink.old) (K.faults sink.new) }
    ensures never_falls { K.faults sink.old ≤ K.faults sink.new }
{
    let lines = text(alloc, &answer);
    drop(answer);
    let lines = lines?;
    let added = add(waiting, made, lines.as_slice(), sink);
    drop(lines);
    added
}
