//! Made scripts as they are written.

ghost use Rattle.std.specs.Prelude.{◌≡◌, IfOk, string_bytes};
ghost use Rattle.cf_script_words.specs.Texts.{line_of};
ghost use Rattle.cf_gen.specs.Lines.{repeated, text_of, words_of};
ghost use Rattle.cf_gen.specs.declared.lines.Line.TheVariants as meant;

use crate::lines::Line;
use cf_base::{Blob, Key, OutOfMemory};
use std::alloc::{AllocError, Global};

fn repeated(alloc: Global, byte: u8, count: u32) -> Result<String, AllocError>
    ensures { IfOk result (λ t. string_bytes t ≡ repeated byte count) }
{
    let digits = hex::encode(alloc, &[byte])?;
    format!(in alloc; "{digits}*{count}")
}

fn put_text(alloc: Global, file: u32, byte: u8, count: u32) -> Result<String, AllocError>
    ensures { IfOk result (λ t. string_bytes t ≡ line_of (words_of (meant.Put file byte count))) }
{
    let data = repeated(alloc, byte, count)?;
    format!(in alloc; "peer put /g{file} {data}")
}

fn open_text(alloc: Global, file: u32) -> Result<String, AllocError>
    ensures { IfOk result (λ t. string_bytes t ≡ line_of (words_of (meant.Open file))) }
{
    format!(in alloc; "open /g{file}")
}

fn close_text(alloc: Global, handle: Key) -> Result<String, AllocError>
    ensures { IfOk result (λ t. string_bytes t ≡ line_of (words_of (meant.Close handle))) }
{
    let Key { epoch, number } = handle;
    format!(in alloc; "close {epoch}.{number}")
}

fn read_text(alloc: Global, handle: Key, offset: u32, len: u32) -> Result<String, AllocError>
    ensures { IfOk result (λ t. string_bytes t ≡ line_of (words_of (meant.Read handle offset len))) }
{
    let Key { epoch, number } = handle;
    format!(in alloc; "read {epoch}.{number} {offset} {len}")
}

fn write_text(
    alloc: Global,
    handle: Key,
    offset: u32,
    byte: u8,
    count: u32,
) -> Result<String, AllocError>
    ensures { IfOk result (λ t. string_bytes t ≡ line_of (words_of (meant.Write handle offset byte count))) }
{
    let Key { epoch, number } = handle;
    let data = repeated(alloc, byte, count)?;
    format!(in alloc; "write {epoch}.{number} {offset} {data}")
}

fn size_text(alloc: Global, handle: Key, size: u32) -> Result<String, AllocError>
    ensures { IfOk result (λ t. string_bytes t ≡ line_of (words_of (meant.Size handle size))) }
{
    let Key { epoch, number } = handle;
    format!(in alloc; "size {epoch}.{number} {size}")
}

fn crash_text(alloc: Global, seed: u32) -> Result<String, AllocError>
    ensures { IfOk result (λ t. string_bytes t ≡ line_of (words_of (meant.Crash seed))) }
{
    format!(in alloc; "crash mix {seed}")
}

fn line_text(alloc: Global, line: Line) -> Result<String, AllocError>
    ensures { IfOk result (λ t. string_bytes t ≡ line_of (words_of line)) }
{
    match line {
        Line::Put { file, byte, count } => put_text(alloc, file, byte, count),
        Line::Sync => String::from_str(alloc, "sync"),
        Line::Flush => String::from_str(alloc, "flush"),
        Line::Open { file } => open_text(alloc, file),
        Line::Close { handle } => close_text(alloc, handle),
        Line::Read {
            handle,
            offset,
            len,
        } => read_text(alloc, handle, offset, len),
        Line::Write {
            handle,
            offset,
            byte,
            count,
        } => write_text(alloc, handle, offset, byte, count),
        Line::Size { handle, size } => size_text(alloc, handle, size),
        Line::Crash { seed } => crash_text(alloc, seed),
        Line::Restart => String::from_str(alloc, "restart"),
    }
}

/// The text of the lines, each with its end.
pub fn print(alloc: Global, lines: &[Line]) -> Result<Blob, OutOfMemory>
    ensures { IfOk result (λ text. text ≡ text_of lines.now) }
{
    let mut text = Vec::new(alloc);
    let mut rest = lines;
    while let [line, after @ ..] = rest {
        let line = line_text(alloc, *line)?;
        text.extend_from_slice(line.as_bytes())?;
        text.push(b'\n')?;
        rest = after;
    }
    Ok(Blob::from_vec(text))
}
