//! The messages that were sent, by number.

ghost use Rattle.std.specs.Prelude.{◌≡◌, IfOk, OnErr, option_copied};
ghost use Rattle.cf_base.specs.declared.notices.Frame.{Frame};
ghost use Rattle.cf_model.specs.Messages.{message_at};
ghost use Rattle.cf_model.specs.State.{State};
ghost use Rattle.cf_wire.specs.Sending.{IsKept, IsMessage, IsNet, Posts, message_of, no_messages, sending};

use crate::messages::{Message, Sent};
use cf_base::OutOfMemory;
use std::alloc::Global;
use std::marker::Model;

const MOST_MESSAGES: usize = 4_294_967_295;

const MOST_KEPT_BYTES: u64 = 268_435_456;

/// The messages that were sent, by number from 1. The frames that it keeps have at most 268,435,456 bytes together.
#[derive(Drop)]
pub struct Net {
    messages: Vec<Option<Message>>,
    kept_bytes: u64,
}

impl Model for Net {
    ghost use Rattle.std.specs.Prelude.{◌≤◌};
    ghost use Rattle.cf_wire.specs.Sending.{Kept};

    ghost Value = { Kept };

    ghost view = { λ n. record { messages = n.messages.items; bytes = n.kept_bytes } };

    ghost invariant = { λ n. n.kept_bytes ≤ 268435456 };
}

impl Net {
    /// A net without messages. Takes no memory.
    pub fn new(alloc: Global) -> Net
        ensures { result ≡ no_messages }
    {
        Net {
            messages: Vec::new(alloc),
            kept_bytes: 0,
        }
    }

    /// Gives the message the next number, and keeps it, unless the kept bytes would pass their limit: then it is lost. After
    /// the number 4,294,967,295 it is lost and its number is 0. Without memory nothing is changed.
    pub fn send(&mut self, message: Message) -> Result<Sent, OutOfMemory>
        ensures sent { IfOk result (λ sent. (sent ≡ (sending message self.old).0) × (self.new ≡ (sending message self.old).1)) }
        ensures posted { (s : State) (f : Frame) → IsNet self.old s.link → IsMessage message f → IfOk result (λ sent. Posts f s sent self.new) }
        ensures err { OnErr result (self.new ≡ self.old) }
    {
        self.add(message)
    }

    fn add(&mut self, message: Message) -> Result<Sent, OutOfMemory>
        ensures sent { IfOk result (λ sent. (sent ≡ (sending message self.old).0) × (self.new ≡ (sending message self.old).1)) }
        ensures err { OnErr result (self.new ≡ self.old) }
    {
        if self.messages.len() >= MOST_MESSAGES {
            return Ok(Sent {
                number: 0,
                lost: true,
            });
        }
        let number = self.messages.len() as u32 + 1;
        let bytes = message.frame.as_slice().len() as u64;
        if bytes > MOST_KEPT_BYTES - self.kept_bytes {
            self.messages.push(None)?;
            return Ok(Sent { number, lost: true });
        }
        self.messages.push(Some(message))?;
        self.kept_bytes += bytes;
        Ok(Sent {
            number,
            lost: false,
        })
    }

    /// The message with this number, where it was kept. Takes the same time for each number.
    #[tactic(auto, using(crate::proofs::Posting::kept))]
    pub fn get(&self, number: u32) -> Option<&Message>
        ensures message { option_copied result ≡ message_of self.now number }
        ensures kept { (s : State) → IsNet self.now s.link → IsKept (message_of self.now number) (message_at s number) }
    {
        if number == 0 {
            return None;
        }
        match self.messages.get(number as usize - 1) {
            Some(Some(message)) => Some(message),
            _ => None,
        }
    }
}
