//! One operation inside a callback, and its line.

ghost use Rattle.std.specs.Prelude.{◌≡◌};
ghost use Rattle.cf_provider_script.specs.Lines.{Carries, Lines, refused_line};

use cf_base::{CallError, Code, Notice, Operation, OperationAnswer, OutOfMemory};
use cf_provider::{Outcome, Port};

// The line of a refused operation. One that met the device has none.
fn refused_line(code: Code) -> Option<OperationAnswer>
    ensures { result ≡ refused_line code }
{
    match code {
        Code::Device => None,
        _ => Some(OperationAnswer::Refused(code)),
    }
}

// The line of an operation, if it has one.
fn line_of(told: Result<Outcome, CallError>) -> Result<Option<OperationAnswer>, OutOfMemory>
    ensures { Lines told result }
{
    match told {
        Ok(Outcome::Done) => Ok(Some(OperationAnswer::Done)),
        Ok(Outcome::Data(bytes)) => Ok(Some(OperationAnswer::Data(bytes))),
        Err(CallError::No(code)) => Ok(refused_line(code)),
        Err(CallError::OutOfMemory) => Err(OutOfMemory),
    }
}

/// Does an operation and notes its answer. Gives whether more operations may follow: none does after one that met the
/// device.
pub(crate) fn carry_out<P: Port>(op: Operation, port: &mut P) -> Result<bool, OutOfMemory>
    ensures { Carries P.goes op port.old result port.new }
{
    let told = port.execute(&op);
    let Some(answer) = line_of(told)? else {
        return Ok(false);
    };
    port.note(Notice::Operation { answer })?;
    Ok(true)
}
