//! What replies do, each by one operation on its ask.

ghost use Rattle.std.specs.Prelude.{[]};
ghost use Rattle.cf_engine_provider.specs.Agencies.{Any, Performs, Plays};
ghost use Rattle.cf_engine_provider.specs.Parts.{Skips};
ghost use Rattle.cf_base.specs.declared.answers.Shown.TheVariants as shown;
ghost use Rattle.cf_model.specs.Fetching.{after_transfer, do_op, refuse_for, take_bytes};
ghost use Rattle.cf_model.specs.Skips.{skip};

use crate::agents::Agent;
use crate::attempts::{Told, attempt};
use cf_base::{Blob, Code, Key, Notice, Operation, OutOfMemory, Span};
use cf_provider::Port;
use cf_remote::Remote;

impl<R: Remote> Agent<R> {
    /// A step is left out, with a line where such lines stand in the event.
    pub fn skip<P: Port>(&mut self, code: Code, port: &mut P) -> Result<(), OutOfMemory>
        ensures { Performs P.goes (λ acts. Skips code self.old acts self.new) port.old result port.new }
    {
        self.count_skip()?;
        if !self.shows_skips {
            return Ok(());
        }
        port.note(Notice::Skipped { code })
    }

    // An operation, whatever it is answered.
    pub(crate) fn do_op<P: Port>(&self, op: &Operation, port: &mut P) -> Result<(), OutOfMemory>
        ensures { Performs P.goes (λ acts. Plays R.told Any (do_op op.now) self.now acts self.now) port.old result port.new }
    {
        attempt(op, &[], port)?;
        Ok(())
    }

    fn refuse_for<P: Port>(
        &mut self,
        key: Key,
        span: Span,
        code: Code,
        port: &mut P,
    ) -> Result<(), OutOfMemory>
        ensures { Performs P.goes (λ acts. Plays R.told Any (refuse_for key span code) self.old acts self.new) port.old result port.new }
    {
        self.skip(code, port)?;
        let refuse = Operation::Refuse {
            key,
            span,
            status: code.number(),
        };
        self.do_op(&refuse, port)
    }

    fn after_transfer<P: Port>(
        &mut self,
        key: Key,
        span: Span,
        code: Code,
        port: &mut P,
    ) -> Result<(), OutOfMemory>
        ensures { Performs P.goes (λ acts. Plays R.told Any (after_transfer key span (shown.Refused code)) self.old acts self.new) port.old result port.new }
    {
        match code {
            Code::Full => self.refuse_for(key, span, code, port),
            Code::TableFull => self.refuse_for(key, span, code, port),
            Code::TooManyAsks => self.skip(code, port),
            Code::Exhausted => self.skip(code, port),
            _ => Ok(()),
        }
    }

    /// Bytes: a Transfer. One that finds no room is followed by a Refuse of the same span with that code's number.
    pub(crate) fn take_bytes<P: Port>(
        &mut self,
        key: Key,
        start: u32,
        bytes: Blob,
        port: &mut P,
    ) -> Result<(), OutOfMemory>
        ensures { Performs P.goes (λ acts. Plays R.told Any (take_bytes key start bytes) self.old acts self.new) port.old result port.new }
    {
        let at = start as u64;
        let span = Span {
            start: at,
            len: bytes.as_slice().len() as u64,
        };
        let transfer = Operation::Transfer { key, at, bytes };
        let told = attempt(&transfer, &[], port);
        drop(transfer);
        match told {
            Ok(Told::Refused(code)) => self.after_transfer(key, span, code, port),
            Ok(Told::Done) => Ok(()),
            Ok(Told::Device) => Ok(()),
            Err(_) => Err(OutOfMemory),
        }
    }
}
