//! A request, and its reply under an inline link.

ghost use Rattle.std.specs.Prelude.{IfOk};
ghost use Rattle.cf_engine_provider.specs.Parts.{Exchanges};
ghost use Rattle.cf_wire.specs.Spelled.{HasRoom};

use cf_base::{Notice, OutOfMemory, Reply, Request};
use cf_link::Link;
use cf_remote::Remote;

/// What became of a request.
#[derive(Drop)]
pub(crate) struct Exchange {
    /// Its line, where it got a number.
    pub(crate) first: Option<Notice>,
    /// The line of its reply or of a fault, where it came to the remote.
    pub(crate) second: Option<Notice>,
    /// The reply, if it is kept.
    pub(crate) reply: Option<Reply>,
}

/// Sends a request, which under an inline link comes to the remote at once.
pub(crate) fn speak<R: Remote>(
    link: &mut Link<R>,
    request: &Request,
) -> Result<Exchange, OutOfMemory>
    requires { HasRoom request.now }
    ensures { IfOk result (λ e. Exchanges R.told request.now link.old e link.new) }
{
    let posted = link.post(request.copy()?)?;
    if !posted.kept {
        return Ok(Exchange {
            first: posted.line,
            second: None,
            reply: None,
        });
    }
    if !link.is_inline() {
        return Ok(Exchange {
            first: posted.line,
            second: None,
            reply: None,
        });
    }
    let Ok(came) = link.come(posted.number, request) else {
        drop(posted);
        return Err(OutOfMemory);
    };
    Ok(Exchange {
        first: posted.line,
        second: came.line,
        reply: came.reply,
    })
}
