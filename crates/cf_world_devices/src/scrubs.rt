//! The bytes of a device, judged.

ghost use Rattle.std.specs.Prelude.{◌≡◌, ◌≢◌, ℕ, List};
ghost use Rattle.cf_io.specs.Moves.{IsFront, IsQuiet, Rose};
ghost use Rattle.cf_world_devices.specs.Ends.{IsBeforeWriting};
ghost use Rattle.cf_world_devices.specs.Scrubs.{JudgesText, OfScrub, PutsJudgement, judged_status, most_judged};

use crate::device_bytes::written;
use cf_base::Status;
use cf_io::{ReadError, Sink, Source, read_up_to};
use cf_scrub::{Judgement, scrub};
use std::alloc::Global;

/// The most bytes that are judged: one more than a device has.
const MOST_JUDGED: usize = 271_581_185;

/// Reads the bytes of a device from the source, and writes what is wrong with them, or that nothing is. Damaged where something is; SourceFault,
/// SinkFault where these failed.
pub fn judge<S: Source, K: Sink>(alloc: Global, source: &mut S, sink: &mut K) -> Status
    ensures bytes { (bytes : List ℕ) × IsFront most_judged (S.left source.old) bytes
        × OfScrub bytes (K.held sink.old) (K.held sink.new) (IsQuiet (S.faults source.old) (S.faults source.new) × IsQuiet (K.faults sink.old) (K.faults sink.new)) result }
    ensures only { result ≢ Status.Usage }
    ensures source_fault { result ≡ Status.SourceFault → Rose (S.faults source.old) (S.faults source.new) }
    ensures sink_fault { result ≡ Status.SinkFault → Rose (K.faults sink.old) (K.faults sink.new) }
    ensures unwritten { IsBeforeWriting result → sink.new ≡ sink.old }
{
    match read_up_to(alloc, source, MOST_JUDGED) {
        Ok(bytes) => {
            let status = judged(alloc, &bytes, sink);
            drop(bytes);
            status
        }
        Err(ReadError::Fault) => Status::SourceFault,
        Err(_) => Status::OutOfMemory,
    }
}

// Judges the bytes, and writes the judgement.
fn judged<K: Sink>(alloc: Global, bytes: &[u8], sink: &mut K) -> Status
    ensures judges { JudgesText bytes.now (K.held sink.old) (K.held sink.new) result }
    ensures sink_fault { result ≡ Status.SinkFault → Rose (K.faults sink.old) (K.faults sink.new) }
    ensures unwritten { IsBeforeWriting result → sink.new ≡ sink.old }
{
    match scrub(alloc, bytes) {
        Ok(judgement) => {
            let status = put(alloc, &judgement, sink);
            drop(judgement);
            status
        }
        Err(_error) => Status::OutOfMemory,
    }
}

fn put<K: Sink>(alloc: Global, judgement: &Judgement, sink: &mut K) -> Status
    ensures puts { PutsJudgement judgement.now (K.held sink.old) (K.held sink.new) result }
    ensures sink_fault { result ≡ Status.SinkFault → Rose (K.faults sink.old) (K.faults sink.new) }
    ensures unwritten { IsBeforeWriting result → sink.new ≡ sink.old }
{
    match judgement.text(alloc) {
        Ok(text) => {
            let status = ended(judgement, written(sink, text.as_slice()));
            drop(text);
            status
        }
        Err(_error) => Status::OutOfMemory,
    }
}

// The status of a judgement that was written.
fn ended(judgement: &Judgement, written: Status) -> Status
    ensures { result ≡ judged_status judgement.now written }
{
    match (judgement, written) {
        (Judgement::Damaged(_), Status::Done) => Status::Damaged,
        (_, status) => status,
    }
}
