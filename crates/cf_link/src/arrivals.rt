//! Requests that are handed to the remote by hand.

ghost use Rattle.std.specs.Prelude.{◌≡◌, ◌++◌, IfErr, IfOk, OnErr, OnOk};
ghost use Rattle.cf_base.specs.declared.answers.Shown.TheVariants as shown;
ghost use Rattle.cf_link.specs.Linked.{Arrives, Does, Grows, Rises, Stopped, lines_of};
ghost use Rattle.cf_model.specs.Arrows.{seq};
ghost use Rattle.cf_model.specs.Messages.{come};
ghost use Rattle.cf_model.specs.Passes.{was_sent};
ghost use Rattle.cf_wire.specs.Spelled.{HasRoom};

use crate::asks::ask;
use crate::links::Link;
use crate::posts::send;
use crate::replies::request_at;
use cf_base::{CallError, Code, Frame, Notes, Notice, OutOfMemory, Request};
use cf_remote::Remote;

fn note(notes: &mut Notes, line: Option<Notice>) -> Result<(), OutOfMemory>
    ensures ok { OnOk result (notes.new ≡ notes.old ++ lines_of line) }
    ensures err { OnErr result (notes.new ≡ notes.old) }
{
    match line {
        Some(line) => notes.push(line),
        None => Ok(()),
    }
}

impl<R: Remote> Link<R> {
    // The line of what became of the request, as `come` does it, without a copy of the reply.
    fn hand(&mut self, number: u32, request: &Request) -> Result<Option<Notice>, OutOfMemory>
        requires { HasRoom request.now }
        ensures does { IfOk result (λ line. Does R.told (seq (come number request.now) was_sent) self.old shown.Done line self.new) }
        ensures rises { IfOk result (λ line. Rises line (R.told self.old.remote) (R.told self.new.remote)) }
        ensures inline { self.new.inline ≡ self.old.inline }
        ensures grows { IfOk result (λ _. Grows self.old.net self.new.net) }
        ensures err { IfErr result (λ _. Stopped R.told (seq (come number request.now) was_sent) self.old self.new) }
        ensures err_net { OnErr result (self.new.net ≡ self.old.net) }
    {
        let Some(reply) = ask(&mut self.remote, request)? else {
            return Ok(Some(Notice::Fault { message: number }));
        };
        let frame = Frame::Reply {
            answers: number,
            reply,
        };
        let posted = send(self.alloc, &mut self.net, frame)?;
        Ok(posted.line)
    }

    /// Hands request `number` to the remote, which sends its reply, and notes the line of the reply or of a fault. It is
    /// refused as NoMessage, and nothing is changed, where the number names no request that is kept. Without memory the notes
    /// are as before.
    pub fn arrive(&mut self, number: u32, notes: &mut Notes) -> Result<(), CallError>
        ensures arrives { Arrives R.told number self.old notes.old result self.new notes.new }
        ensures inline { self.new.inline ≡ self.old.inline }
    {
        let Some(request) = request_at(self.alloc, &self.net, number)? else {
            return Err(CallError::No(Code::NoMessage));
        };
        let line = self.hand(number, &request)?;
        note(notes, line)?;
        Ok(())
    }
}
