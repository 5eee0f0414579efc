//! Operations inside a callback, and what they come to.

ghost use Rattle.std.specs.Prelude.{◌≡◌};
ghost use Rattle.cf_engine_provider.specs.Parts.{Tries, tried_of};

use cf_base::{CallError, Code, Operation, OutOfMemory, SeenPath};
use cf_provider::Port;

/// What an operation came to.
#[derive(Clone, Copy)]
pub(crate) enum Told {
    Done,
    Refused(Code),
    /// It met the device, after which nothing more is done.
    Device,
}

fn told_of(code: Code) -> Told
    ensures { result ≡ tried_of code }
{
    match code {
        Code::Device => Told::Device,
        _ => Told::Refused(code),
    }
}

/// Does an operation, with these paths seen in the same step.
pub(crate) fn attempt<P: Port>(
    op: &Operation,
    seen: &[SeenPath],
    port: &mut P,
) -> Result<Told, OutOfMemory>
    ensures { Tries P.goes seen.now op.now port.old result port.new }
{
    match port.execute_seeing(op, seen) {
        Ok(_) => Ok(Told::Done),
        Err(CallError::No(code)) => Ok(told_of(code)),
        Err(CallError::OutOfMemory) => Err(OutOfMemory),
    }
}
