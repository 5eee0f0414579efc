//! A report on its way to a sink: its texts wait until they are worth a write.

ghost use Rattle.std.specs.Prelude.{◌≤◌, ◌++◌, List, Option, ℕ, IfErr, IfOk, OnErr, OnOk, IsErrOf};
ghost use Rattle.cf_io.specs.Moves.{Rose, AddsFront};
ghost use Rattle.cf_world_plays.specs.Steps.{AddFails, Hands, IsDrafted, IsOfSink};

use crate::play_errors::PlayError;
use cf_io::{Sink, write_all};

/// Texts are written as soon as they have so many bytes together.
const PIECE: usize = 65_536;

/// The most bytes that a report has.
const MOST_REPORT: usize = 67_108_864;

/// Adds a text to what waits of a report of `made` bytes, and writes what waits where it is enough for a piece. Gives the
/// bytes of the report then. Refused as TooLong where they would pass the limit; then all that waited was written.
pub fn add<K: Sink>(
    waiting: &mut Vec<u8>,
    made: usize,
    piece: &[u8],
    sink: &mut K,
) -> Result<usize, PlayError>
    ensures ok { (text : List ℕ) (old : Option (List ℕ)) → IsDrafted text waiting.old.items made old (K.held sink.old) → IfOk result (λ n. IsDrafted (text ++ piece.now) waiting.new.items n old (K.held sink.new)) }
    ensures err { (text : List ℕ) (old : Option (List ℕ)) → IsDrafted text waiting.old.items made old (K.held sink.old) → IfErr result (AddFails text piece.now old (K.held sink.new)) }
    ensures fault { IsErrOf result PlayError.SinkFault → Rose (K.faults sink.old) (K.faults sink.new) }
    ensures never_falls { K.faults sink.old ≤ K.faults sink.new }
{
    if piece.len() > MOST_REPORT.saturating_sub(made) {
        write_all(sink, waiting.as_slice())?;
        return Err(PlayError::TooLong);
    }
    hand(waiting, piece, sink)?;
    Ok(made + piece.len())
}

// Hands a text on: behind what waits where it is short, and else straight to the sink after that, so that no long text stands twice.
fn hand<K: Sink>(waiting: &mut Vec<u8>, piece: &[u8], sink: &mut K) -> Result<(), PlayError>
    ensures ok { OnOk result (Hands (K.held sink.old) (K.held sink.new) (waiting.old.items ++ piece.now) waiting.new.items) }
    ensures err { OnErr result (AddsFront (K.held sink.old) (K.held sink.new) (waiting.old.items ++ piece.now)) }
    ensures fault { IsErrOf result PlayError.SinkFault → Rose (K.faults sink.old) (K.faults sink.new) }
    ensures only { IfErr result IsOfSink }
    ensures never_falls { K.faults sink.old ≤ K.faults sink.new }
{
    if piece.len() < PIECE {
        waiting.extend_from_slice(piece)?;
        return write_piece(waiting, sink);
    }
    write_all(sink, waiting.as_slice())?;
    waiting.clear();
    write_all(sink, piece)?;
    Ok(())
}

/// Writes what waits where it is enough for a piece.
fn write_piece<K: Sink>(waiting: &mut Vec<u8>, sink: &mut K) -> Result<(), PlayError>
    ensures ok { OnOk result (Hands (K.held sink.old) (K.held sink.new) waiting.old.items waiting.new.items) }
    ensures err { OnErr result (AddsFront (K.held sink.old) (K.held sink.new) waiting.old.items) }
    ensures fault { IsErrOf result PlayError.SinkFault → Rose (K.faults sink.old) (K.faults sink.new) }
    ensures only { IfErr result IsOfSink }
    ensures never_falls { K.faults sink.old ≤ K.faults sink.new }
{
    if waiting.len() < PIECE {
        return Ok(());
    }
    write_all(sink, waiting.as_slice())?;
    waiting.clear();
    Ok(())
}
