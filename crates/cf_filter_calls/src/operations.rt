//! Operations of a provider (CfExecute).

ghost use Rattle.cf_base.specs.declared.answers.AuxRecord.{AuxRecord};
ghost use Rattle.cf_filter_calls.specs.Executing.{IsFree, ask_at, base_named, op_refusal};
ghost use Rattle.cf_filter_calls.specs.Operating.{IsLiveFor, Keeps};
ghost use Rattle.cf_model.specs.Books.{Book};
ghost use Rattle.cf_model.specs.Operations.{execute, execute_with, on_ask};
ghost use Rattle.cf_model.specs.Requests.{Live};
ghost use Rattle.cf_filter_steps.specs.Answering.{Answers, Any, Reads};

use crate::consents::ack_dehydrate;
use crate::directory_entries::entries;
use crate::items::base_at;
use crate::retrievals::retrieve;
use crate::transfers::{ack, refuse, restart, transfer};
use cf_base::{Ask, AuxRecord, CallError, Code, Key, Operation, Shown};
use cf_filter_steps::Steps;
use cf_provider::{check, key_of};

// The live ask of a key.
fn ask_at<S: Steps>(s: &S, key: Key) -> Option<Ask>
    ensures { Reads S.sense Any (ask_at key) s.now result }
{
    s.requests().ask(key)
}

// The base length of the file of a live ask.
fn base_named<S: Steps>(s: &S, key: Key) -> u64
    ensures { Reads S.sense Any (base_named key) s.now result }
{
    match ask_at(s, key) {
        Some(ask) => base_at(s, ask.item),
        None => 0,
    }
}

// Why an operation is refused by what hangs on the asks alone: StaleKey, WrongKind, Misaligned, OutsideAsk.
fn refuse_op<S: Steps>(s: &S, op: &Operation) -> Option<Code>
    ensures { Reads S.sense Any (op_refusal op.now) s.now result }
{
    let base = base_named(s, key_of(op));
    match check(op, s.requests(), base) {
        Ok(()) => None,
        Err(code) => Some(code),
    }
}

// The operation on its live ask.
fn execute_on<S: Steps>(
    s: &mut S,
    op: &Operation,
    ask: &Ask,
    records: &[AuxRecord],
) -> Result<Shown, CallError>
    ensures { (f : Book → Book) (a : Live) → Answers S.sense (IsLiveFor f op.now ask.now records.now a) (on_ask f op.now a) s.old result s.new }
{
    match op {
        Operation::Transfer { key: _, at, bytes } => transfer(s, ask, *at, bytes),
        Operation::Refuse {
            key: _,
            span,
            status,
        } => refuse(s, ask, *span, *status),
        Operation::Retrieve { key: _, span } => retrieve(s, ask, *span),
        Operation::Ack { key: _, span, good } => ack(s, ask, *span, *good),
        Operation::Restart { key: _ } => restart(s, ask),
        Operation::Entries { key: _, list, good } => {
            entries(s, ask, list.as_slice(), *good, records)
        }
        Operation::AckDehydrate { key: _, good } => ack_dehydrate(s, ask, *good),
    }
}

fn execute_free<S: Steps>(
    s: &mut S,
    op: &Operation,
    records: &[AuxRecord],
) -> Result<Shown, CallError>
    ensures { (f : Book → Book) → Answers S.sense (IsFree f op.now records.now) (execute_with f op.now) s.old result s.new }
{
    match ask_at(s, key_of(op)) {
        Some(ask) => execute_on(s, op, &ask, records),
        None => Ok(Shown::Refused(Code::StaleKey)),
    }
}

/// Does an operation of a provider. Where it is Entries, these records come in the same step as the last of its changes.
/// Refused as `cf_provider::check` says, and then as the operation's own call.
pub fn execute_with<S: Steps>(
    s: &mut S,
    op: &Operation,
    records: &[AuxRecord],
) -> Result<Shown, CallError>
    ensures { (f : Book → Book) → Answers S.sense (Keeps f records.now) (execute_with f op.now) s.old result s.new }
{
    match refuse_op(s, op) {
        Some(code) => Ok(Shown::Refused(code)),
        None => execute_free(s, op, records),
    }
}

/// The same without records.
pub fn execute<S: Steps>(s: &mut S, op: &Operation) -> Result<Shown, CallError>
    ensures { Answers S.sense Any (execute op.now) s.old result s.new }
{
    execute_with(s, op, &[])
}
