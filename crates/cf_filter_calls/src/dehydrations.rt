//! Dehydration: the bytes of a file leave from a block on, where a provider consents or none is there.

ghost use Rattle.std.specs.Prelude.{◌≡◌, ◌+◌, ◌-◌, min, nat_lt};
ghost use Rattle.std.specs.List.{list_any};
ghost use Rattle.cf_base.specs.Policies.{is_always_full};
ghost use Rattle.cf_filter_calls.specs.Emptying.{MayEmpty, held_emptied, holds_from, verdict_there};
ghost use Rattle.cf_filter_calls.specs.Planned.{ReadsAt};
ghost use Rattle.cf_item_rules.specs.DehydrationFacts.{Tells, code_of};
ghost use Rattle.cf_model.specs.Dehydration.{ask_consent, consent_need, dehydrate, dehydrate_item, dehydrate_range, empty_now, empty_range};
ghost use Rattle.cf_model.specs.Items.{Item};
ghost use Rattle.cf_model.specs.Verdicts.{is_kept_full, is_pinned};
ghost use Rattle.cf_model.specs.Waits.{but_directory};
ghost use Rattle.cf_filter_steps.specs.Answering.{Answers, Any, IsAt, Reads};
ghost use Rattle.cf_table.specs.Means.{Means};

use crate::items::{is_directory, is_used, lacks_place, size_at};
use crate::waits::begin_limited;
use cf_base::{
    CallError, Change, Code, End, Hydration, ItemId, Pin, Policy, Shown, Span, WaitKind,
};
use cf_filter_steps::{Need, Steps, find_at};
use cf_item_rules::{Facts, Verdict, verdict};
use cf_table::Row;

/// Whether files are to be full at any time.
pub(crate) fn is_always_full(hydration: Hydration) -> bool
    ensures { result ≡ is_always_full hydration }
{
    match hydration {
        Hydration::Partial => false,
        Hydration::Progressive => false,
        Hydration::Full => false,
        Hydration::AlwaysFull => true,
    }
}

fn is_kept_full(policy: &Policy, row: &Row) -> bool
    ensures { (i : Item) → Means row.now i → result ≡ is_kept_full policy.now i }
{
    is_always_full(policy.hydration) || row.keep
}

fn is_pinned(pin: Pin) -> bool
    ensures { result ≡ is_pinned pin }
{
    match pin {
        Pin::Pinned => true,
        _ => false,
    }
}

/// What a verdict looks at, of a range of a file and whether the file is in use.
pub fn facts_of(policy: &Policy, row: &Row, start: u64, len: u64, in_use: bool) -> Facts
    ensures tells { (i : Item) → Means row.now i → Tells result policy.now i }
    ensures start { result.start ≡ start }
    ensures len { result.len ≡ len }
    ensures used { result.in_use ≡ in_use }
{
    Facts {
        size: row.size as u64,
        start,
        len,
        placeholder: row.placeholder,
        always_full: is_kept_full(policy, row),
        pinned: is_pinned(row.pin),
        in_sync: row.in_sync,
        in_use,
    }
}

fn code_of(verdict: Verdict) -> Option<Code>
    ensures { result ≡ code_of verdict }
{
    match verdict {
        Verdict::BadRange => Some(Code::BadRange),
        Verdict::NotPlaceholder => Some(Code::NotPlaceholder),
        Verdict::PolicyDenied => Some(Code::PolicyDenied),
        Verdict::Pinned => Some(Code::Pinned),
        Verdict::NotInSync => Some(Code::NotInSync),
        Verdict::InUse => Some(Code::InUse),
        Verdict::Allowed => None,
    }
}

/// The verdict on a range of a file, where that is what uses it. None where it is allowed, and of an item that is gone.
pub(crate) fn judge<S: Steps>(s: &S, id: ItemId, start: u64, len: u64, used: bool) -> Option<Code>
    ensures { Reads S.sense Any (verdict_there id start len used) s.now result }
{
    let policy = s.policy();
    match s.rows().get(id) {
        Some(row) => code_of(verdict(&facts_of(&policy, row, start, len, used))),
        None => None,
    }
}

// Whether a run ends past a place.
fn ends_past(run: Span, start: u64) -> bool
    ensures { result ≡ nat_lt start (run.start + run.len) }
{
    run.start > start || start - run.start < run.len
}

fn any_past(runs: &[Span], start: u64) -> bool
    ensures { result ≡ list_any (λ r. nat_lt start (r.start + r.len)) runs.now }
{
    runs.iter().any(|run| ends_past(*run, start))
}

fn holds_in(row: &Row, start: u64) -> bool
    ensures { (i : Item) → Means row.now i → result ≡ holds_from start i }
{
    any_past(row.here.runs(), start)
}

// Whether a byte of a file from a place on is here.
fn holds_from<S: Steps>(s: &S, id: ItemId, start: u64) -> bool
    ensures { ReadsAt S.sense id (holds_from start) s.now result }
{
    match s.rows().get(id) {
        Some(row) => holds_in(row, start),
        None => false,
    }
}

// The provider is asked.
fn ask_consent<S: Steps>(s: &mut S, id: ItemId, start: u64, len: u64) -> Result<Shown, CallError>
    ensures { (i : Item) → Answers S.sense (MayEmpty id start len i) (ask_consent (consent_need i start len)) s.old result s.new }
{
    let need = Need {
        kind: WaitKind::Dehydrate,
        item: id,
        handle: None,
        span: Span { start, len },
        background: false,
    };
    begin_limited(s, &need)
}

// No provider is there to be asked.
fn empty_now<S: Steps>(s: &mut S, id: ItemId, start: u64, len: u64) -> Result<Shown, CallError>
    ensures { (i : Item) → Answers S.sense (MayEmpty id start len i) (empty_now i start len) s.old result s.new }
{
    if lacks_place(s) {
        return Ok(Shown::Refused(Code::Exhausted));
    }
    let change = Change::Emptied {
        item: id,
        start,
        len,
    };
    s.change(change)?;
    Ok(Shown::Ended(End::Emptied))
}

fn empty_held<S: Steps>(s: &mut S, id: ItemId, start: u64, len: u64) -> Result<Shown, CallError>
    ensures { (i : Item) → Answers S.sense (MayEmpty id start len i) (held_emptied i start len) s.old result s.new }
{
    if s.is_connected() {
        ask_consent(s, id, start, len)
    } else {
        empty_now(s, id, start, len)
    }
}

// An allowed call. It is over at once where no byte of the range is here.
fn empty_range<S: Steps>(s: &mut S, id: ItemId, start: u64, len: u64) -> Result<Shown, CallError>
    ensures { (i : Item) → Answers S.sense (MayEmpty id start len i) (empty_range i start len) s.old result s.new }
{
    if holds_from(s, id, start) {
        empty_held(s, id, start, len)
    } else {
        Ok(Shown::Ended(End::Emptied))
    }
}

fn cut(len: u64, size: u64, start: u64) -> u64
    ensures { result ≡ min len (size - start) }
{
    len.min(size.saturating_sub(start))
}

fn dehydrate_item<S: Steps>(s: &mut S, id: ItemId, start: u64, len: u64) -> Result<Shown, CallError>
    ensures { (i : Item) → Answers S.sense (IsAt id i) (dehydrate_item i start len) s.old result s.new }
{
    let used = is_used(s, id);
    let size = size_at(s, id);
    match judge(s, id, start, len, used) {
        Some(code) => Ok(Shown::Refused(code)),
        None => empty_range(s, id, start, cut(len, size, start)),
    }
}

/// The bytes of the placeholder file with this id leave, as by `dehydrate`. Refused as that is, but for the look-up and IsDirectory.
pub fn dehydrate_range<S: Steps>(
    s: &mut S,
    id: ItemId,
    range: Option<(u64, u64)>,
) -> Result<Shown, CallError>
    ensures { (i : Item) → Answers S.sense (IsAt id i) (dehydrate_range range i) s.old result s.new }
{
    match range {
        Some(r) => dehydrate_item(s, id, r.0, r.1),
        None => {
            let size = size_at(s, id);
            dehydrate_item(s, id, 0, size)
        }
    }
}

fn dehydrate_file<S: Steps>(
    s: &mut S,
    id: ItemId,
    range: Option<(u64, u64)>,
) -> Result<Shown, CallError>
    ensures { (i : Item) → Answers S.sense (IsAt id i) (but_directory (dehydrate_range range) i) s.old result s.new }
{
    if is_directory(s, id) {
        Ok(Shown::Refused(Code::IsDirectory))
    } else {
        dehydrate_range(s, id, range)
    }
}

/// The bytes of a placeholder file leave from a block on (CfDehydratePlaceholder), where the provider consents; without one
/// at once. The range is a start and a length, in bytes, and the whole file where there is none. Refused as the look-up,
/// IsDirectory, by the verdict as BadRange, NotPlaceholder, PolicyDenied, Pinned, NotInSync, InUse, then as Exhausted.
pub fn dehydrate<S: Steps>(
    s: &mut S,
    path: &str,
    range: Option<(u64, u64)>,
) -> Result<Shown, CallError>
    ensures { Answers S.sense Any (dehydrate path.now range) s.old result s.new }
{
    match find_at(s, path) {
        Ok(id) => dehydrate_file(s, id, range),
        Err(code) => Ok(Shown::Refused(code)),
    }
}
