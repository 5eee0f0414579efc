//! Operations on the data asks of a file. The refusals that hang on the asks alone were tested before.

ghost use Rattle.std.specs.Prelude.{◌≡◌, ◌≤◌, List, false, true};
ghost use Rattle.cf_base.specs.declared.answers.AuxRecord.{AuxRecord};
ghost use Rattle.cf_base.specs.declared.ids.Key.{Key};
ghost use Rattle.cf_base.specs.declared.operations.Operation.TheVariants as operation;
ghost use Rattle.cf_filter_calls.specs.Operating.{IsLiveFor, IsSizeOf, restarted};
ghost use Rattle.cf_model.specs.Books.{Book};
ghost use Rattle.cf_model.specs.Operations.{ack, refuse, restart, transfer};
ghost use Rattle.cf_model.specs.Requests.{Live};
ghost use Rattle.cf_filter_steps.specs.Answering.{Answers};

use crate::items::size_at;
use crate::operation_changes::operate;
use cf_ask_rule::Act;
use cf_base::{Ask, Blob, CallError, Cause, Change, Code, Shown, Span};
use cf_filter_steps::{Steps, settle};
use cf_provider::touched_blocks;

/// A bound far above each file, in bytes.
const FAR: u64 = 1 << 39;

// Whether a span is near. An ask owns blocks of a file, so that a span of them always is.
pub(crate) fn is_near(span: Span) -> bool
    ensures { result ≡ true → (span.start ≤ 549755813888) × (span.len ≤ 549755813888) }
{
    span.start <= FAR && span.len <= FAR
}

/// Bytes of a fetch ask. Refused as TableFull, Full, TooManyAsks, Exhausted.
pub(crate) fn transfer<S: Steps>(
    s: &mut S,
    ask: &Ask,
    at: u64,
    bytes: &Blob,
) -> Result<Shown, CallError>
    ensures { (key : Key) (f : Book → Book) (records : List AuxRecord) (a : Live) → Answers S.sense (IsLiveFor f (operation.Transfer key at bytes.now) ask.now records a) (transfer a at bytes.now) s.old result s.new }
{
    let len = bytes.as_slice().len() as u64;
    let span = Span { start: at, len };
    if !is_near(span) {
        return Err(CallError::OutOfMemory);
    }
    let change = Change::Filled {
        item: ask.item,
        start: at,
        bytes: bytes.copy()?,
    };
    let blocks = touched_blocks(span);
    let key = ask.key;
    operate(s, ask.item, change, Act::Leaves { key, blocks }, true)
}

/// No bytes for blocks of a fetch ask: the waits that miss a byte in them end so.
pub(crate) fn refuse<S: Steps>(
    s: &mut S,
    ask: &Ask,
    span: Span,
    status: u32,
) -> Result<Shown, CallError>
    ensures { (key : Key) (f : Book → Book) (records : List AuxRecord) (a : Live) → Answers S.sense (IsLiveFor f (operation.Refuse key span status) ask.now records a) (refuse a span status) s.old result s.new }
{
    let act = Act::Fails {
        key: ask.key,
        blocks: touched_blocks(span),
        cause: Cause::Failed(status),
    };
    settle(s, ask.item, act)?;
    Ok(Shown::Done)
}

// The bytes of a span are good.
fn vouch<S: Steps>(s: &mut S, ask: &Ask, span: Span) -> Result<Shown, CallError>
    requires near { (span.start ≤ 549755813888) × (span.len ≤ 549755813888) }
    ensures { (key : Key) (f : Book → Book) (records : List AuxRecord) (a : Live) → Answers S.sense (IsLiveFor f (operation.Ack key span true) ask.now records a) (ack a span true) s.old result s.new }
{
    let change = Change::Validated {
        item: ask.item,
        start: span.start,
        len: span.len,
    };
    let blocks = touched_blocks(span);
    let key = ask.key;
    operate(s, ask.item, change, Act::Leaves { key, blocks }, false)
}

// The bytes of a span are not good.
fn disown<S: Steps>(s: &mut S, ask: &Ask, span: Span) -> Result<Shown, CallError>
    requires near { (span.start ≤ 549755813888) × (span.len ≤ 549755813888) }
    ensures { (key : Key) (f : Book → Book) (records : List AuxRecord) (a : Live) → Answers S.sense (IsLiveFor f (operation.Ack key span false) ask.now records a) (ack a span false) s.old result s.new }
{
    let change = Change::Emptied {
        item: ask.item,
        start: span.start,
        len: span.len,
    };
    let act = Act::Fails {
        key: ask.key,
        blocks: touched_blocks(span),
        cause: Cause::Failed(1),
    };
    operate(s, ask.item, change, act, false)
}

/// The bytes of blocks of a validate ask are good, or leave. Refused as TableFull, Exhausted.
pub(crate) fn ack<S: Steps>(
    s: &mut S,
    ask: &Ask,
    span: Span,
    good: bool,
) -> Result<Shown, CallError>
    ensures { (key : Key) (f : Book → Book) (records : List AuxRecord) (a : Live) → Answers S.sense (IsLiveFor f (operation.Ack key span good) ask.now records a) (ack a span good) s.old result s.new }
{
    if !is_near(span) {
        return Err(CallError::OutOfMemory);
    }
    if good {
        vouch(s, ask, span)
    } else {
        disown(s, ask, span)
    }
}

// The file's bytes that are not modified leave, and its asks are made anew.
fn restart_now<S: Steps>(s: &mut S, ask: &Ask, size: u64) -> Result<Shown, CallError>
    ensures { Answers S.sense (IsSizeOf ask.now.item size) (restarted ask.now.item size) s.old result s.new }
{
    let emptied = Change::Emptied {
        item: ask.item,
        start: 0,
        len: size,
    };
    operate(s, ask.item, emptied, Act::Restarts, true)
}

/// The hydration of the ask's file starts again. Refused as RestartDenied, TableFull, TooManyAsks, Exhausted.
pub(crate) fn restart<S: Steps>(s: &mut S, ask: &Ask) -> Result<Shown, CallError>
    ensures { (key : Key) (f : Book → Book) (records : List AuxRecord) (a : Live) → Answers S.sense (IsLiveFor f (operation.Restart key) ask.now records a) (restart a) s.old result s.new }
{
    let policy = s.policy();
    if !policy.restart {
        return Ok(Shown::Refused(Code::RestartDenied));
    }
    let size = size_at(s, ask.item);
    restart_now(s, ask, size)
}
