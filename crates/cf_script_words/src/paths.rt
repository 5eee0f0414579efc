//! Paths, in which a space and a percent sign are written as their codes.

ghost use Rattle.std.specs.Prelude.{◌≡◌, IfOk};
ghost use Rattle.cf_script_words.specs.Words.{Reads, IsPath, has_slash};

use crate::escapes::{Escapes, unescaped};
use cf_base::{OutOfMemory, Text};
use std::alloc::Global;

fn has_slash(path: &[u8]) -> bool
    ensures { result ≡ has_slash path.now }
{
    matches!(path, [b'/', ..])
}

/// A path, whose names are judged later.
pub fn path(alloc: Global, word: &str) -> Result<Option<Text>, OutOfMemory>
    ensures { IfOk result (Reads (IsPath word.now)) }
{
    let path = match unescaped(alloc, Escapes::Path, word.as_bytes()) {
        Ok(Some(path)) => path,
        Ok(None) => return Ok(None),
        Err(e) => return Err(e),
    };
    if !has_slash(path.as_slice()) {
        return Ok(None);
    }
    match str::from_utf8(path.as_slice()) {
        Ok(path) => Ok(Some(Text::from_str(alloc, path)?)),
        Err(_) => Ok(None),
    }
}
