//! What is written of a script that is not read.

ghost use Rattle.std.specs.Prelude.{◌≡◌};
ghost use Rattle.cf_io.specs.Moves.{Rose};
ghost use Rattle.cf_pair_run.specs.UnderWay.{WritesRefusal};
ghost use Rattle.cf_pair_script.specs.Causes.{IsCause};
ghost use Rattle.cf_script.specs.Script.{lines_of};

use cf_base::Status;
use cf_io::Sink;
use cf_script::ScriptError;
use cf_world_plays::{early, write_fail};
use std::alloc::Global;

/// Writes why the script is not read.
pub(crate) fn refuse<K: Sink>(alloc: Global, text: &[u8], fail: ScriptError, sink: &mut K) -> Status
    requires { IsCause (lines_of text.now) fail }
    ensures writes { WritesRefusal text.now (K.held sink.old) (K.held sink.new) result }
    ensures memory { fail ≡ ScriptError.OutOfMemory → result ≡ Status.OutOfMemory }
    ensures sink_fault { result ≡ Status.SinkFault → Rose (K.faults sink.old) (K.faults sink.new) }
{
    let _ = text;
    if fail == ScriptError::OutOfMemory {
        return Status::OutOfMemory;
    }
    match write_fail(alloc, fail, sink) {
        Ok(()) => Status::BadScript,
        Err(fail) => early(fail),
    }
}
