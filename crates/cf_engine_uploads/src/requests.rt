//! Requests of uploads.

ghost use Rattle.std.specs.Prelude.{◌≡◌, ◌≤◌, ◌<◌, ◌^◌, IfOk, length, true};
ghost use Rattle.cf_engine_queue.specs.Books.{entry_value};
ghost use Rattle.cf_model.specs.Pushes.{request_of};
ghost use Rattle.cf_wire.specs.Spelled.{HasRoom};

use cf_base::{Blob, OutOfMemory, Request, Version, no_such_state};
use cf_engine_queue::{Action, QueueEntry};

/// No name of a request is longer.
const MOST_NAME_BYTES: usize = 255;

/// Texts of this length have no room in a request.
const TOO_MANY_BYTES: u64 = 4_294_967_296;

fn has_room(name: &[u8], bytes: &[u8]) -> bool
    ensures { result ≡ true → (length name.now ≤ 255) × (length bytes.now < 2 ^ 32) }
{
    name.len() <= MOST_NAME_BYTES && (bytes.len() as u64) < TOO_MANY_BYTES
}

fn spell(entry: &QueueEntry, expect: Version, bytes: Blob) -> Result<Request, OutOfMemory>
    ensures { IfOk result (λ q. q ≡ request_of (entry_value entry.now) expect bytes) }
{
    let name = entry.name.copy()?;
    let token = entry.token;
    let rid = entry.rid;
    let parent = entry.parent;
    match entry.action {
        Action::Put => Ok(Request::Put {
            token,
            rid,
            expect,
            parent,
            name,
            bytes,
        }),
        Action::MakeDir => Ok(Request::MakeDir {
            token,
            parent,
            name,
        }),
        Action::Move => Ok(Request::Move {
            token,
            rid,
            parent,
            name,
        }),
        Action::Remove => Ok(Request::Remove { token, rid, expect }),
    }
}

/// The request of an entry. A Put has the bytes; a Put and a Remove expect the version. A name of more than 255 bytes and
/// 4,294,967,296 bytes or more are never to be sent: then it is out of memory.
pub(crate) fn request_of(
    entry: &QueueEntry,
    expect: Version,
    bytes: Blob,
) -> Result<Request, OutOfMemory>
    ensures { IfOk result (λ q. (q ≡ request_of (entry_value entry.now) expect bytes) × HasRoom q) }
{
    if !has_room(entry.name.as_slice(), bytes.as_slice()) {
        return Err(no_such_state());
    }
    spell(entry, expect, bytes)
}
