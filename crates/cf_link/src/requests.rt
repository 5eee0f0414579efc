//! Requests that come to the remote.

ghost use Rattle.std.specs.Prelude.{◌≡◌, IfErr, IfOk, OnErr};
ghost use Rattle.cf_link.specs.Linked.{Does, Rises, Stopped};
ghost use Rattle.cf_link.specs.Parts.{reply_if};
ghost use Rattle.cf_model.specs.Messages.{come};
ghost use Rattle.cf_wire.specs.Spelled.{HasRoom};

use crate::asks::ask;
use crate::links::Link;
use crate::posts::send;
use cf_base::{Frame, Notice, OutOfMemory, Reply, Request};
use cf_remote::Remote;

/// What became of a request that came to the remote.
#[derive(Drop)]
pub struct Came {
    /// The reply, if it is kept.
    pub reply: Option<Reply>,
    /// The reply's line, or that of a fault; none where no number was left for the reply.
    pub line: Option<Notice>,
}

fn if_kept(kept: bool, reply: Reply) -> Option<Reply>
    ensures { result ≡ reply_if kept reply }
{
    if kept { Some(reply) } else { None }
}

impl<R: Remote> Link<R> {
    /// Hands request `number` to the remote, which sends its reply, as a message of its own. The line tells of a fault where
    /// the remote failed, and then its count of faults rose. Without memory the remote was asked or not, and no message was
    /// sent.
    pub fn come(&mut self, number: u32, request: &Request) -> Result<Came, OutOfMemory>
        requires { HasRoom request.now }
        ensures does { IfOk result (λ c. Does R.told (come number request.now) self.old c.reply c.line self.new) }
        ensures rises { IfOk result (λ c. Rises c.line (R.told self.old.remote) (R.told self.new.remote)) }
        ensures inline { self.new.inline ≡ self.old.inline }
        ensures err { IfErr result (λ _. Stopped R.told (come number request.now) self.old self.new) }
        ensures err_net { OnErr result (self.new.net ≡ self.old.net) }
    {
        let Some(reply) = ask(&mut self.remote, request)? else {
            return Ok(Came {
                reply: None,
                line: Some(Notice::Fault { message: number }),
            });
        };
        let copied = reply.copy()?;
        let frame = Frame::Reply {
            answers: number,
            reply,
        };
        let posted = send(self.alloc, &mut self.net, frame)?;
        let reply = if_kept(posted.kept, copied);
        Ok(Came {
            reply,
            line: posted.line,
        })
    }
}
