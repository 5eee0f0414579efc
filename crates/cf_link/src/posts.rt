//! Messages that are sent, with their lines.

ghost use Rattle.std.specs.Prelude.{◌≡◌, IfOk, OnErr};
ghost use Rattle.cf_base.specs.declared.notices.Frame.TheVariants as frame;
ghost use Rattle.cf_link.specs.Linked.{Grows, Posts, posted_line};
ghost use Rattle.cf_link.specs.Parts.{FrameHasRoom, IsMessageLine, SendsFrame, posted_of};
ghost use Rattle.cf_wire.specs.Sending.{IsMessage};
ghost use Rattle.cf_wire.specs.Spelled.{HasRoom};

use crate::links::Link;
use cf_base::{Frame, Notice, OutOfMemory, Request, Sent};
use cf_remote::Remote;
use cf_wire::{Message, Net, spell_reply, spell_request};
use std::alloc::Global;

/// What became of a message that was sent.
#[derive(Drop)]
pub struct Posted {
    /// Its number, from 1, or 0 where none was left.
    pub number: u32,
    /// Whether it is kept.
    pub kept: bool,
    /// Its line, which stands wherever it got a number.
    pub line: Option<Notice>,
}

fn spell(alloc: Global, frame: &Frame) -> Result<Message, OutOfMemory>
    requires { FrameHasRoom frame.now }
    ensures { IfOk result (λ m. IsMessage m frame.now) }
{
    match frame {
        Frame::Request(request) => {
            let frame = spell_request(alloc, request)?;
            Ok(Message {
                answers: None,
                frame,
            })
        }
        Frame::Reply { answers, reply } => {
            let frame = spell_reply(alloc, reply)?;
            Ok(Message {
                answers: Some(*answers),
                frame,
            })
        }
    }
}

fn with_line(sent: cf_wire::Sent, frame: Frame) -> Posted
    ensures { result ≡ posted_of sent frame }
{
    let line = if sent.number == 0 {
        None
    } else {
        Some(Notice::Message(Sent {
            message: sent.number,
            frame,
            lost: sent.lost,
        }))
    };
    Posted {
        number: sent.number,
        kept: !sent.lost,
        line,
    }
}

/// Sends a frame as the next message. Without memory nothing is changed.
pub(crate) fn send(alloc: Global, net: &mut Net, frame: Frame) -> Result<Posted, OutOfMemory>
    requires { FrameHasRoom frame }
    ensures sends { IfOk result (λ p. SendsFrame frame net.old p net.new) }
    ensures line { IfOk result (λ p. p.line ≡ posted_line frame p) }
    ensures message { IfOk result (λ p. IsMessageLine p.line) }
    ensures grows { IfOk result (λ _. Grows net.old net.new) }
    ensures err { OnErr result (net.new ≡ net.old) }
{
    let message = spell(alloc, &frame)?;
    let sent = net.send(message)?;
    Ok(with_line(sent, frame))
}

impl<R: Remote> Link<R> {
    /// Sends a request, whose names need at most 255 bytes and whose bytes fewer than 4,294,967,296: it gets the next number,
    /// and is kept, unless the kept bytes would pass their limit. After the last number it gets none, and no line. It does not
    /// come to the remote, which stays as it is. Without memory nothing is changed.
    pub fn post(&mut self, request: Request) -> Result<Posted, OutOfMemory>
        requires { HasRoom request }
        ensures posts { IfOk result (λ p. Posts R.told (frame.Request request) self.old p self.new) }
        ensures line { IfOk result (λ p. p.line ≡ posted_line (frame.Request request) p) }
        ensures remote { self.new.remote ≡ self.old.remote }
        ensures inline { self.new.inline ≡ self.old.inline }
        ensures err { OnErr result (self.new ≡ self.old) }
    {
        send(self.alloc, &mut self.net, Frame::Request(request))
    }
}
