//! The refusals of an operation that hang on the asks.
ghost use Rattle.std.specs.Prelude.{◌≡◌, [], ◌∷◌, ◌+◌, ◌%◌, ◌/◌, ◌<◌, ◌||◌, ◌==◌};
ghost use Rattle.cf_base.specs.declared.codes.Code.TheVariants as code;
ghost use Rattle.cf_provider.specs.Checks.{check_of, is_misaligned_by, refusal, span_named, tests_by, whole_blocks};
ghost use Rattle.cf_model.specs.Blocks.{blocks_of};
ghost use Rattle.cf_model.specs.Operations.{key_of};
ghost use Rattle.cf_model.specs.Requests.{is_data, is_dehydrate, is_fetch, is_list, is_validate};
ghost use Rattle.cf_model.specs.Words.{counting, first_of};

use cf_ask_rule::{is_data, is_dehydrate, is_list};
use cf_base::{AskKind, Code, Key, Operation, Span};
use cf_waits::Requests;

const BLOCK: u64 = 4096;

const NO_SPAN: Span = Span { start: 0, len: 0 };

/// The key of the ask that an operation answers. Takes no memory.
pub fn key_of(op: &Operation) -> Key
    ensures { result ≡ key_of op.now }
{
    match op {
        Operation::Transfer {
            key,
            at: _,
            bytes: _,
        } => *key,
        Operation::Refuse {
            key,
            span: _,
            status: _,
        } => *key,
        Operation::Retrieve { key, span: _ } => *key,
        Operation::Ack {
            key,
            span: _,
            good: _,
        } => *key,
        Operation::Restart { key } => *key,
        Operation::Entries {
            key,
            list: _,
            good: _,
        } => *key,
        Operation::AckDehydrate { key, good: _ } => *key,
    }
}

fn is_misaligned(base: u64, span: Span) -> bool
    ensures { result ≡ is_misaligned_by base span.start span.len }
{
    span.len == 0 || span.start % BLOCK != 0 || !is_ended(base, span)
}

// From the start of a block the end is one where the length is whole blocks.
#[tactic(auto, using(crate::proofs::Touched::ends))]
fn is_ended(base: u64, span: Span) -> bool
    requires { span.start % 4096 ≡ 0 }
    ensures { result ≡ (((span.start + span.len) % 4096 == 0) || (span.start + span.len == base)) }
{
    span.len % BLOCK == 0 || (span.start <= base && base - span.start == span.len)
}

/// The blocks of 4,096 bytes that a span of bytes touches, which may end past 2^64: none from the block of its start where
/// it is empty. Takes no memory.
#[tactic(auto, using(crate::proofs::Touched::touched))]
pub fn touched_blocks(span: Span) -> Span
    ensures blocks { counting result.start result.len ≡ blocks_of span.start span.len }
    ensures first { result.start ≡ span.start / 4096 }
{
    let start = span.start / BLOCK;
    if span.len == 0 {
        return Span { start, len: 0 };
    }
    let rest = span.len - 1;
    let more = rest / BLOCK + (span.start % BLOCK + rest % BLOCK) / BLOCK;
    Span {
        start,
        len: more + 1,
    }
}

fn is_fetch(kind: AskKind) -> bool
    ensures { result ≡ is_fetch kind }
{
    match kind {
        AskKind::Fetch => true,
        _ => false,
    }
}

fn is_validate(kind: AskKind) -> bool
    ensures { result ≡ is_validate kind }
{
    match kind {
        AskKind::Validate => true,
        _ => false,
    }
}

// The span that an operation names, and an empty one where it names none.
fn span_named(op: &Operation) -> Span
    ensures { result ≡ span_named op.now }
{
    match op {
        Operation::Transfer { key: _, at, bytes } => Span {
            start: *at,
            len: bytes.as_slice().len() as u64,
        },
        Operation::Refuse {
            key: _,
            span,
            status: _,
        } => *span,
        Operation::Retrieve { key: _, span } => *span,
        Operation::Ack {
            key: _,
            span,
            good: _,
        } => *span,
        Operation::Restart { key: _ } => NO_SPAN,
        Operation::Entries {
            key: _,
            list: _,
            good: _,
        } => NO_SPAN,
        Operation::AckDehydrate { key: _, good: _ } => NO_SPAN,
    }
}

fn whole_blocks(wrong: bool, misaligned: bool, outside: bool) -> Option<Code>
    ensures { result ≡ first_of (whole_blocks wrong misaligned outside) }
{
    if wrong {
        return Some(Code::WrongKind);
    }
    if misaligned {
        return Some(Code::Misaligned);
    }
    if outside {
        return Some(Code::OutsideAsk);
    }
    None
}

fn wrong_kind(wrong: bool, outside: bool) -> Option<Code>
    ensures { result ≡ first_of ((wrong, code.WrongKind) ∷ (outside, code.OutsideAsk) ∷ []) }
{
    if wrong {
        return Some(Code::WrongKind);
    }
    if outside {
        return Some(Code::OutsideAsk);
    }
    None
}

fn first_refusal(op: &Operation, base: u64, kind: AskKind, outside: bool) -> Option<Code>
    ensures { result ≡ first_of (tests_by op.now base kind outside) }
{
    match op {
        Operation::Transfer { key: _, at, bytes } => {
            let span = Span {
                start: *at,
                len: bytes.as_slice().len() as u64,
            };
            whole_blocks(!is_fetch(kind), is_misaligned(base, span), outside)
        }
        Operation::Refuse {
            key: _,
            span,
            status: _,
        } => whole_blocks(!is_fetch(kind), is_misaligned(base, *span), outside),
        Operation::Retrieve { key: _, span: _ } => wrong_kind(!is_validate(kind), outside),
        Operation::Ack {
            key: _,
            span,
            good: _,
        } => whole_blocks(!is_validate(kind), is_misaligned(base, *span), outside),
        Operation::Restart { key: _ } => wrong_kind(!is_data(kind), false),
        Operation::Entries {
            key: _,
            list: _,
            good: _,
        } => wrong_kind(!is_list(kind), false),
        Operation::AckDehydrate { key: _, good: _ } => wrong_kind(!is_dehydrate(kind), false),
    }
}

fn refusal_of(op: &Operation, requests: &Requests, base: u64) -> Option<Code>
    ensures { result ≡ check_of op.now base requests.now }
{
    let key = key_of(op);
    let blocks = touched_blocks(span_named(op));
    match requests.ask(key) {
        Some(ask) => first_refusal(op, base, ask.kind, !requests.owns(key, blocks)),
        None => Some(Code::StaleKey),
    }
}

/// The first refusal of an operation that hangs on the waits and asks alone, where `base` is the base length of the ask's
/// file: StaleKey, WrongKind, Misaligned, OutsideAsk, those that the operation's row has and in its order. Of a Retrieve
/// OutsideAsk says here that a block is not owned. Takes no memory.
pub fn check(op: &Operation, requests: &Requests, base: u64) -> Result<(), Code>
    ensures { refusal result ≡ check_of op.now base requests.now }
{
    match refusal_of(op, requests, base) {
        Some(code) => Err(code),
        None => Ok(()),
    }
}
