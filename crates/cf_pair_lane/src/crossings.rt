//! Tokens on their way from one side of a lane to the other.

ghost use Rattle.std.specs.Prelude.{◌≡◌};
ghost use Rattle.cf_pair_lane.specs.Lanes.{is_of_lane, token_of};
ghost use Rattle.cf_pair_model.specs.Crossed.{crossed, crossed_reply, crossed_request, exchanged};
ghost use Rattle.cf_pair_model.specs.declared.limits.TheConstants as limits;

use cf_base::{Key, Reply, Request, Token};
use cf_pair_model::LANE_EPOCHS;

/// The epoch on the other side. An epoch of one half of all epochs comes to the other half.
fn exchanged(epoch: u32) -> u32
    ensures { result ≡ exchanged limits.LANE_EPOCHS epoch }
{
    if epoch < LANE_EPOCHS {
        epoch + LANE_EPOCHS
    } else {
        epoch - LANE_EPOCHS
    }
}

fn crossed(token: Token) -> Token
    ensures { result ≡ crossed token }
{
    Token(Key {
        epoch: exchanged(token.0.epoch),
        number: token.0.number,
    })
}

/// The request with its token as it stands on the other side.
pub(crate) fn crossed_request(q: Request) -> Request
    ensures { result ≡ crossed_request q }
{
    match q {
        Request::Feed { .. } => q,
        Request::List { .. } => q,
        Request::Fetch { .. } => q,
        Request::Put {
            token,
            rid,
            expect,
            parent,
            name,
            bytes,
        } => Request::Put {
            token: crossed(token),
            rid,
            expect,
            parent,
            name,
            bytes,
        },
        Request::MakeDir {
            token,
            parent,
            name,
        } => Request::MakeDir {
            token: crossed(token),
            parent,
            name,
        },
        Request::Move {
            token,
            rid,
            parent,
            name,
        } => Request::Move {
            token: crossed(token),
            rid,
            parent,
            name,
        },
        Request::Remove { token, rid, expect } => Request::Remove {
            token: crossed(token),
            rid,
            expect,
        },
        Request::Settle { token } => Request::Settle {
            token: crossed(token),
        },
        Request::Keep { token, count } => Request::Keep {
            token: crossed(token),
            count,
        },
    }
}

/// The reply with its token as it stands on the other side.
pub(crate) fn crossed_reply(r: Reply) -> Reply
    ensures { result ≡ crossed_reply r }
{
    match r {
        Reply::Feed { .. } => r,
        Reply::Listing { .. } => r,
        Reply::Bytes { .. } => r,
        Reply::Missing { .. } => r,
        Reply::Gone { .. } => r,
        Reply::Done {
            token,
            rid,
            version,
        } => Reply::Done {
            token: crossed(token),
            rid,
            version,
        },
        Reply::Void { token } => Reply::Void {
            token: crossed(token),
        },
        Reply::Refused {
            token,
            why,
            version,
        } => Reply::Refused {
            token: crossed(token),
            why,
            version,
        },
    }
}

fn token_of(q: &Request) -> Option<Token>
    ensures { result ≡ token_of q.now }
{
    match q {
        Request::Feed { .. } => None,
        Request::List { .. } => None,
        Request::Fetch { .. } => None,
        Request::Put { token, .. } => Some(*token),
        Request::MakeDir { token, .. } => Some(*token),
        Request::Move { token, .. } => Some(*token),
        Request::Remove { token, .. } => Some(*token),
        Request::Settle { token } => Some(*token),
        Request::Keep { token, .. } => Some(*token),
    }
}

/// Whether the token of the request, where it has one, is one that a device gives on its own side.
pub(crate) fn is_of_lane(q: &Request) -> bool
    ensures { result ≡ is_of_lane q.now }
{
    match token_of(q) {
        None => true,
        Some(token) => token.0.epoch < LANE_EPOCHS,
    }
}
