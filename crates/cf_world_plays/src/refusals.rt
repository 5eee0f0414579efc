//! What is written of a script that is not read.

ghost use Rattle.std.specs.Prelude.{◌≡◌, ◌≢◌, IfErr, IfOk, IsErrOf, OnErr, OnOk, string_bytes};
ghost use Rattle.cf_io.specs.Moves.{Adds, AddsFront, Rose};
ghost use Rattle.cf_script.specs.FailEvents.{IsCause};
ghost use Rattle.cf_script.specs.Script.{lines_of};
ghost use Rattle.cf_world_plays.specs.Runs.{WritesRefusal, fail_line};
ghost use Rattle.cf_world_plays.specs.Steps.{early_status, read_status};

use crate::play_errors::PlayError;
use cf_base::{Mode, Status};
use cf_io::{ReadError, Sink, write_all};
use cf_script::ScriptError;
use std::alloc::{AllocError, Global};

/// The most bytes that a script has.
pub const MOST_SCRIPT_BYTES: usize = 16_777_216;

/// Writes why the script is not read.
pub fn refuse<K: Sink>(
    alloc: Global,
    mode: Mode,
    text: &[u8],
    fail: ScriptError,
    sink: &mut K,
) -> Status
    requires { IsCause mode (lines_of text.now) fail }
    ensures writes { WritesRefusal mode text.now (K.held sink.old) (K.held sink.new) result }
    ensures memory { fail ≡ ScriptError.OutOfMemory → result ≡ Status.OutOfMemory }
    ensures sink_fault { result ≡ Status.SinkFault → Rose (K.faults sink.old) (K.faults sink.new) }
{
    if fail == ScriptError::OutOfMemory {
        return Status::OutOfMemory;
    }
    match write_fail(alloc, fail, sink) {
        Ok(()) => Status::BadScript,
        Err(fail) => early(fail),
    }
}

/// Writes the line of a script that is not read, which is none where memory ran out.
pub fn write_fail<K: Sink>(alloc: Global, fail: ScriptError, sink: &mut K) -> Result<(), PlayError>
    ensures ok { OnOk result (Adds (K.held sink.old) (K.held sink.new) (fail_line fail)) }
    ensures err { OnErr result (AddsFront (K.held sink.old) (K.held sink.new) (fail_line fail)) }
    ensures only { IfErr result (λ e. e ≢ PlayError.TooLong) }
    ensures fault { IsErrOf result PlayError.SinkFault → Rose (K.faults sink.old) (K.faults sink.new) }
{
    let text = fail_text(alloc, fail)?;
    write_all(sink, text.as_str().as_bytes())?;
    Ok(())
}

/// The line of a script that is not read.
fn fail_text(alloc: Global, fail: ScriptError) -> Result<String, AllocError>
    ensures { IfOk result (λ t. string_bytes t ≡ fail_line fail) }
{
    match fail {
        ScriptError::Syntax(line) => format!(in alloc; "bad line {line}\n"),
        ScriptError::TooManyEvents(line) => format!(in alloc; "bad line {line}\n"),
        ScriptError::OutOfMemory => Ok(String::new(alloc)),
    }
}

/// The status of a run that ends early.
pub fn early(fail: PlayError) -> Status
    ensures { result ≡ early_status fail }
{
    match fail {
        PlayError::SinkFault => Status::SinkFault,
        PlayError::TooLong => Status::TooLong,
        PlayError::OutOfMemory => Status::OutOfMemory,
    }
}

/// The status of a run whose source was not read.
pub fn unscripted(fail: ReadError) -> Status
    ensures { result ≡ read_status fail }
{
    match fail {
        ReadError::Fault => Status::SourceFault,
        ReadError::TooLong => Status::TooLong,
        ReadError::OutOfMemory => Status::OutOfMemory,
    }
}
