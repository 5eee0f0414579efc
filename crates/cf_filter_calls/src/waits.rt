//! Calls that may wait. Each answers at once where nothing is missing, and draws no number then.

ghost use Rattle.std.specs.Prelude.{◌≡◌};
ghost use Rattle.cf_base.specs.declared.answers.Shown.TheVariants as shown;
ghost use Rattle.cf_model.specs.Arrows.{ret, then_do};
ghost use Rattle.cf_model.specs.Items.{Item};
ghost use Rattle.cf_model.specs.Waits.{answer_now, begin, but_directory, get, get_item, hydrate, hydrate_item, is_progressive, list, list_item, need as missing, plain_need, read, read_item};
ghost use Rattle.cf_waits.specs.Steps.{limits_by};
ghost use Rattle.cf_waits.specs.declared.limits.Limits.TheVariants as limits;
ghost use Rattle.cf_filter_steps.specs.Answering.{Answers, Any, IsAt};
ghost use Rattle.cf_filter_steps.specs.Needing.{MayAnswer, ReadsFile, begin_limited, meant};
ghost use Rattle.cf_filter_steps.specs.Putting.{IsFile};
ghost use Rattle.cf_filter_steps.specs.Settled.{AreOnFiles, tell_moves};

use crate::items::{is_directory, is_placeholder, refused_by};
use cf_base::{CallError, Code, Handle, Hydration, ItemId, Shown, Span, WaitId, WaitKind};
use cf_filter_steps::{Need, Steps, find_at, tell};
use cf_waits::Moves;

/// The span of what has none.
const NO_SPAN: Span = Span { start: 0, len: 0 };

// Tells what came with a wait that began.
fn tell_begun<S: Steps>(s: &mut S, id: WaitId, moves: &Moves) -> Result<Shown, CallError>
    ensures { Answers S.sense (AreOnFiles moves.now.ended) (then_do (tell_moves moves.now.ended moves.now.cancelled moves.now.asks) (ret (shown.Pending id))) s.old result s.new }
{
    tell(s, moves)?;
    Ok(Shown::Pending(id))
}

// The wait begins as far as the limits of its kind allow.
pub(crate) fn begin_limited<S: Steps>(s: &mut S, need: &Need) -> Result<Shown, CallError>
    ensures { Answers S.sense (ReadsFile (meant need.now)) (begin_limited (meant need.now)) s.old result s.new }
{
    match s.start(need) {
        Ok(begun) => {
            let told = tell_begun(s, begun.0, &begun.1);
            drop(begun.1);
            told
        }
        Err(fail) => refused_by(fail),
    }
}

fn begin<S: Steps>(s: &mut S, need: &Need) -> Result<Shown, CallError>
    requires { limits_by need.now.kind ≡ limits.Begins }
    ensures { Answers S.sense (ReadsFile (meant need.now)) (begin (meant need.now)) s.old result s.new }
{
    if s.is_connected() {
        begin_limited(s, need)
    } else {
        Ok(Shown::Refused(Code::ProviderDown))
    }
}

fn answer_now<S: Steps>(s: &mut S, need: &Need) -> Result<Shown, CallError>
    ensures { Answers S.sense (MayAnswer (meant need.now)) (answer_now (meant need.now)) s.old result s.new }
{
    let end = s.answer(need)?;
    Ok(Shown::Ended(end))
}

// What a call needs of an item; consent to a dehydration is none of these.
fn meet<S: Steps>(s: &mut S, need: &Need) -> Result<Shown, CallError>
    requires { limits_by need.now.kind ≡ limits.Begins }
    ensures { Answers S.sense (ReadsFile (meant need.now)) (missing (meant need.now)) s.old result s.new }
{
    let met = s.is_met(need)?;
    if met {
        answer_now(s, need)
    } else {
        begin(s, need)
    }
}

// Whether a read wants the rest of the file too.
fn is_progressive(hydration: Hydration) -> bool
    ensures { result ≡ is_progressive hydration }
{
    match hydration {
        Hydration::Partial => false,
        Hydration::Progressive => true,
        Hydration::Full => false,
        Hydration::AlwaysFull => false,
    }
}

fn read_item<S: Steps>(
    s: &mut S,
    handle: Handle,
    span: Span,
    item: ItemId,
) -> Result<Shown, CallError>
    ensures { Answers S.sense (IsFile item) (read_item handle span item) s.old result s.new }
{
    let policy = s.policy();
    let background = is_progressive(policy.hydration);
    let need = Need {
        kind: WaitKind::Read,
        item,
        handle: Some(handle),
        span,
        background,
    };
    meet(s, &need)
}

/// A read of an open file: ends with its bytes, at once or later. Refused as NoHandle, where it has to wait also as
/// ProviderDown, TooManyWaits, TooManyAsks, Exhausted.
pub fn read<S: Steps>(s: &mut S, handle: Handle, span: Span) -> Result<Shown, CallError>
    ensures { Answers S.sense Any (read handle span) s.old result s.new }
{
    match s.opened(handle) {
        Some(item) => read_item(s, handle, span, item),
        None => Ok(Shown::Refused(Code::NoHandle)),
    }
}

fn meet_plain<S: Steps>(
    s: &mut S,
    kind: WaitKind,
    item: ItemId,
    span: Span,
) -> Result<Shown, CallError>
    requires { limits_by kind ≡ limits.Begins }
    ensures { Answers S.sense (ReadsFile (plain_need kind item span)) (missing (plain_need kind item span)) s.old result s.new }
{
    let need = Need {
        kind,
        item,
        handle: None,
        span,
        background: false,
    };
    meet(s, &need)
}

fn get_item<S: Steps>(s: &mut S, id: ItemId, span: Span) -> Result<Shown, CallError>
    ensures { (i : Item) → Answers S.sense (IsAt id i) (but_directory (get_item span) i) s.old result s.new }
{
    if is_directory(s, id) {
        Ok(Shown::Refused(Code::IsDirectory))
    } else {
        meet_plain(s, WaitKind::Read, id, span)
    }
}

/// A read of a file by path. Refused as the look-up, IsDirectory, else as `read` but NoHandle.
pub fn get<S: Steps>(s: &mut S, path: &str, span: Span) -> Result<Shown, CallError>
    ensures { Answers S.sense Any (get path.now span) s.old result s.new }
{
    match find_at(s, path) {
        Ok(id) => get_item(s, id, span),
        Err(code) => Ok(Shown::Refused(code)),
    }
}

fn list_item<S: Steps>(s: &mut S, id: ItemId) -> Result<Shown, CallError>
    ensures { (i : Item) → Answers S.sense (IsAt id i) (list_item i) s.old result s.new }
{
    if is_directory(s, id) {
        meet_plain(s, WaitKind::List, id, NO_SPAN)
    } else {
        Ok(Shown::Refused(Code::NotDirectory))
    }
}

/// The entries of a directory. Refused as the look-up, NotDirectory, else as `get`.
pub fn list<S: Steps>(s: &mut S, path: &str) -> Result<Shown, CallError>
    ensures { Answers S.sense Any (list path.now) s.old result s.new }
{
    match find_at(s, path) {
        Ok(id) => list_item(s, id),
        Err(code) => Ok(Shown::Refused(code)),
    }
}

/// The whole of a placeholder file comes here, of the file with this id. Refused as NotPlaceholder, else as `get`.
pub fn hydrate_file<S: Steps>(s: &mut S, id: ItemId) -> Result<Shown, CallError>
    ensures { (i : Item) → Answers S.sense (IsAt id i) (hydrate_item i) s.old result s.new }
{
    if is_placeholder(s, id) {
        meet_plain(s, WaitKind::Hydrate, id, NO_SPAN)
    } else {
        Ok(Shown::Refused(Code::NotPlaceholder))
    }
}

fn hydrate_item<S: Steps>(s: &mut S, id: ItemId) -> Result<Shown, CallError>
    ensures { (i : Item) → Answers S.sense (IsAt id i) (but_directory hydrate_item i) s.old result s.new }
{
    if is_directory(s, id) {
        Ok(Shown::Refused(Code::IsDirectory))
    } else {
        hydrate_file(s, id)
    }
}

/// The whole of a placeholder file comes here (CfHydratePlaceholder). Refused as the look-up, IsDirectory, NotPlaceholder,
/// else as `get`.
pub fn hydrate<S: Steps>(s: &mut S, path: &str) -> Result<Shown, CallError>
    ensures { Answers S.sense Any (hydrate path.now) s.old result s.new }
{
    match find_at(s, path) {
        Ok(id) => hydrate_item(s, id),
        Err(code) => Ok(Shown::Refused(code)),
    }
}
