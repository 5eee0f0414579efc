//! Whether a reply is stale.

ghost use Rattle.std.specs.Prelude.{◌≡◌, ◌||◌, IfOk, List, false, not};
ghost use Rattle.cf_model.specs.Words.{is_empty};
ghost use Rattle.cf_base.specs.declared.messages.Entry.{Entry};
ghost use Rattle.cf_base.specs.declared.messages.Reply.TheVariants as reply;
ghost use Rattle.cf_engine_messages.specs.Staleness.{fits_in, fits_with, has_entries, is_ended_in, is_feed_over, is_here, is_idle_in, is_new, is_old_now, is_unlisted_in, made_item, rid_under, settled_token};
ghost use Rattle.cf_engine_steps.specs.Answering.{Any, Reads};
ghost use Rattle.cf_engine_steps.specs.States.{whole};
ghost use Rattle.cf_model.specs.Messages.{is_stale};
ghost use Rattle.cf_filter_steps.specs.Answering.{Any as AnyFilter, Reads as FilterReads};

use cf_base::{Entry, Key, OutOfMemory, Reply, Request, Rid, Round, Sequence, Token};
use cf_engine_feed::walk_item;
use cf_engine_host::EngineHost;
use cf_engine_provider::locals_of;
use cf_engine_steps::{Engine, cursor, has_entries, has_new_entry, live_entry};
use cf_filter_steps::Steps;
use cf_remote::Remote;
use cf_wire::{NoItems, fits};

// The upload that a request asks how it went.
fn settled_token(request: &Request) -> Option<Token>
    ensures { result ≡ settled_token request.now }
{
    match request {
        Request::Settle { token } => Some(*token),
        _ => None,
    }
}

// The item of the remote that the upload with this token is about, 0 for a new one and for none.
fn rid_under<S: EngineHost>(s: &S, token: Option<Token>) -> Result<Rid, OutOfMemory>
    ensures { IfOk result (λ rid. FilterReads S.sense AnyFilter (rid_under token) s.now rid) }
{
    let Some(token) = token else {
        return Ok(Rid(0));
    };
    match live_entry(s, token)? {
        Some(entry) => Ok(entry.rid),
        None => Ok(Rid(0)),
    }
}

// Whether the item of the remote that an upload is about is a new one. True also of a request that is no upload.
fn is_new(request: &Request, settled: Rid) -> bool
    ensures { result ≡ is_new request.now settled }
{
    match request {
        Request::Put { rid, .. } => rid.0 == 0,
        Request::Move { rid, .. } => rid.0 == 0,
        Request::Remove { rid, .. } => rid.0 == 0,
        Request::Settle { .. } => settled.0 == 0,
        Request::Keep { .. } => false,
        _ => true,
    }
}

fn has_any(entries: &Sequence<Entry>) -> bool
    ensures { result ≡ not (is_empty entries.now) }
{
    !entries.as_slice().is_empty()
}

// Whether the reply has entries, which may be of items that are here.
fn has_reply_entries(reply: &Reply) -> bool
    ensures { result ≡ has_entries reply.now }
{
    match reply {
        Reply::Feed { entries, .. } => has_any(entries),
        Reply::Listing { entries, .. } => has_any(entries),
        _ => false,
    }
}

// The item that an upload made anew, by its reply.
fn made_item(request: &Request, settled: Rid, reply: &Reply) -> Option<Rid>
    ensures { result ≡ made_item request.now settled reply.now }
{
    match reply {
        Reply::Done { rid, .. } => {
            if is_new(request, settled) {
                Some(*rid)
            } else {
                None
            }
        }
        _ => None,
    }
}

// Whether a local item is this item of the remote, if there is one. It takes time by the items where it may not be later than each of their
// targets: a remote that counts its items gives a later one.
fn is_here<S: EngineHost>(s: &S, made: Option<Rid>) -> Result<bool, OutOfMemory>
    ensures { IfOk result (λ x. FilterReads S.sense AnyFilter (is_here made) s.now x) }
{
    let Some(rid) = made else {
        return Ok(false);
    };
    if s.rows().is_above_targets(rid) {
        return Ok(false);
    }
    let found = walk_item(s.rows().as_slice(), rid)?;
    Ok(found.is_some())
}

// Whether a reply with entries fits. It takes time by the items, as sorting does at most.
fn entries_fit<S: EngineHost>(
    s: &S,
    settled: Rid,
    request: &Request,
    reply: &Reply,
) -> Result<bool, OutOfMemory>
    ensures { IfOk result (λ x. FilterReads S.sense AnyFilter (fits_with settled request.now reply.now) s.now x) }
{
    let local = locals_of(s.alloc(), s.rows().as_slice())?;
    let fitting = fits(s.alloc(), &local, settled, request, reply)?;
    Ok(fitting)
}

// Whether a reply without entries fits: all that the items can tell is that an upload made none of those that are here.
fn other_fits<S: EngineHost>(
    s: &S,
    settled: Rid,
    request: &Request,
    reply: &Reply,
) -> Result<bool, OutOfMemory>
    requires { has_entries reply.now ≡ false }
    ensures { IfOk result (λ x. FilterReads S.sense AnyFilter (fits_with settled request.now reply.now) s.now x) }
{
    let fitting = fits(s.alloc(), &NoItems, settled, request, reply)?;
    if !fitting {
        return Ok(false);
    }
    let here = is_here(s, made_item(request, settled, reply))?;
    Ok(!here)
}

// Whether the reply fits the request.
fn reply_fits<S: EngineHost>(s: &S, request: &Request, reply: &Reply) -> Result<bool, OutOfMemory>
    ensures { IfOk result (λ x. FilterReads S.sense AnyFilter (fits_in request.now reply.now) s.now x) }
{
    let settled = rid_under(s, settled_token(request))?;
    if has_reply_entries(reply) {
        return entries_fit(s, settled, request, reply);
    }
    other_fits(s, settled, request, reply)
}

// Whether no ask with the key is live.
fn is_idle<S: Steps>(s: &S, key: Key) -> bool
    ensures { FilterReads S.sense AnyFilter (is_idle_in key) s.now result }
{
    s.requests().ask(key).is_none()
}

// Whether no entries are taken for the ask with the key.
fn is_unlisted<S: EngineHost>(s: &S, key: Key) -> Result<bool, OutOfMemory>
    ensures { IfOk result (λ x. FilterReads S.sense AnyFilter (is_unlisted_in key) s.now x) }
{
    if is_idle(s, key) {
        return Ok(true);
    }
    has_new_entry(s)
}

// Whether no upload has the token.
fn is_ended<S: EngineHost>(s: &S, token: Token) -> Result<bool, OutOfMemory>
    ensures { IfOk result (λ x. FilterReads S.sense AnyFilter (is_ended_in token) s.now x) }
{
    match live_entry(s, token)? {
        Some(_) => Ok(false),
        None => Ok(true),
    }
}

fn is_feed_over(round: Key, latest: Key, counts: bool, cursor: u64, clock: u64, none: bool) -> bool
    ensures { result ≡ is_feed_over round latest counts cursor clock none }
{
    let same = round.epoch == latest.epoch && round.number == latest.number;
    !(same && counts && cursor <= clock && none)
}

// Whether a feed of this round does not count any more.
fn is_feed_old<S: EngineHost, R: Remote>(
    s: &S,
    e: &Engine<R>,
    round: Round,
    clock: u64,
) -> Result<bool, OutOfMemory>
    ensures { (es : List Entry) → IfOk result (λ x. Reads (whole S.sense R.told) Any (is_old_now (reply.Feed round clock es)) (s.now, e.now) x) }
{
    let latest = Key {
        epoch: s.epoch(),
        number: e.volatile().rounds(),
    };
    let counts = e.volatile().is_round_open();
    let cursor = cursor(s)?;
    let none = !has_entries(s);
    Ok(is_feed_over(round.0, latest, counts, cursor, clock, none))
}

// Whether nothing waits for the reply any more.
fn is_old<S: EngineHost, R: Remote>(
    s: &S,
    e: &Engine<R>,
    reply: &Reply,
) -> Result<bool, OutOfMemory>
    ensures { IfOk result (λ x. Reads (whole S.sense R.told) Any (is_old_now reply.now) (s.now, e.now) x) }
{
    match reply {
        Reply::Feed { round, clock, .. } => is_feed_old(s, e, *round, *clock),
        Reply::Listing { key, .. } => is_unlisted(s, *key),
        Reply::Bytes { key, .. } => Ok(is_idle(s, *key)),
        Reply::Missing { key } => Ok(is_idle(s, *key)),
        Reply::Gone { key } => Ok(is_idle(s, *key)),
        Reply::Done { token, .. } => is_ended(s, *token),
        Reply::Void { token } => is_ended(s, *token),
        Reply::Refused { token, .. } => is_ended(s, *token),
    }
}

fn either(unfit: bool, old: bool) -> bool
    ensures { result ≡ (unfit || old) }
{
    unfit || old
}

/// Whether a reply does not fit the request that it answers, or nothing waits for it any more: its key or token is not live; it is a
/// listing while an item that is new to the remote is on its way there; or it is a feed that is not of the latest round, whose round was
/// closed, that is older than the cursor, or that came while an upload was on its way. It takes time by the entries of the reply as sorting
/// does at most; where it has entries also by the items so, and of the item that an upload made by the items.
pub fn is_stale<S: EngineHost, R: Remote>(
    s: &S,
    e: &Engine<R>,
    request: &Request,
    reply: &Reply,
) -> Result<bool, OutOfMemory>
    ensures { IfOk result (λ x. Reads (whole S.sense R.told) Any (is_stale request.now reply.now) (s.now, e.now) x) }
{
    let fitting = reply_fits(s, request, reply)?;
    let old = is_old(s, e, reply)?;
    Ok(either(!fitting, old))
}
