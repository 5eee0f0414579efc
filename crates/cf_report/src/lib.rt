//! How an answer is written.
//!
//! `text` promises the bytes of the definition `text`: each notice on a line that begins with a minus, then the
//! result on a line that begins with an equals sign, byte 10 at the end of each.
#![tactic(auto)]

mod changes;
mod codes;
mod hexadecimal;
mod notices;
mod results;
mod words;

ghost use Rattle.std.specs.Prelude.{◌≡◌, IfOk};
ghost use Rattle.cf_report.specs.Texts.{text};

pub use crate::changes::{kind_word, pin_word};
use crate::notices::push_notices;
use crate::results::push_result;
pub use crate::words::push_name;
use cf_base::{Answer, Blob, OutOfMemory};
use std::alloc::Global;

/// The lines of an answer. Fails where there is no memory for them.
pub fn text(alloc: Global, answer: &Answer) -> Result<Blob, OutOfMemory>
    ensures { IfOk result (λ b. b ≡ text answer.now) }
{
    let mut out = Vec::new(alloc);
    push_notices(&mut out, answer.notes.as_slice())?;
    push_result(&mut out, &answer.shown)?;
    Ok(Blob::from_vec(out))
}
