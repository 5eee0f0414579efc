//! The names of a path.

ghost use Rattle.std.specs.Prelude.{◌≡◌, [], ◌∷◌, IfOk, MatchOption, true};
ghost use Rattle.cf_base.specs.Names as names;
ghost use Rattle.cf_base.specs.Names.{is_name_byte};
ghost use Rattle.cf_model.specs.LookUp.{bad_names, names_of};
ghost use Rattle.cf_model.specs.Texts.{is_name};
ghost use Rattle.cf_model.specs.Words.{is_empty};
ghost use Rattle.cf_tree.specs.Parts.{is_name_of_text};
ghost use Rattle.std.specs.List.{list_all};

use cf_base::{CallError, Code, Name, OutOfMemory};
use std::alloc::Global;
use std::marker::Model;

/// No path has more names.
pub const MOST_NAMES: usize = 32;

/// No name has more bytes.
pub(crate) const MOST_NAME_BYTES: usize = 255;

/// The names of a path that are left. Contracts see them as a list.
#[derive(Drop)]
pub struct Names<'a> {
    left: Option<&'a str>,
}

impl<'a> Model for Names<'a> {
    ghost use Rattle.std.specs.Prelude.{ℕ, List, option_copied};
    ghost use Rattle.cf_tree.specs.Parts.{names_in};

    ghost Value = { List (List ℕ) };

    ghost view = { λ n. names_in (option_copied n.left) };
}

impl<'a> Names<'a> {
    /// The names of a path.
    pub fn of(path: &'a str) -> Names<'a>
        ensures { result ≡ names_of path.now }
    {
        match path.strip_prefix('/') {
            None => Names { left: Some("") },
            Some(rest) if rest.is_empty() => Names { left: None },
            Some(rest) => Names { left: Some(rest) },
        }
    }

    /// Whether none is left.
    pub fn is_empty(&self) -> bool
        ensures { result ≡ is_empty self.now }
    {
        self.left.is_none()
    }

    /// Takes the first name out.
    pub fn next(&mut self) -> Option<&'a str>
        ensures { MatchOption result ((self.old ≡ []) × (self.new ≡ [])) (λ n. self.old ≡ n.now ∷ self.new) }
    {
        let text = self.left?;
        match text.split_once('/') {
            Some((name, rest)) => {
                self.left = Some(rest);
                Some(name)
            }
            None => {
                self.left = None;
                Some(text)
            }
        }
    }
}

fn is_name_byte(byte: u8) -> bool
    ensures { result ≡ is_name_byte byte }
{
    match byte {
        0..=31 | 127 => false,
        b'"' | b'*' | b'/' | b':' | b'<' | b'>' | b'?' | b'\\' | b'|' => false,
        _ => true,
    }
}

fn all_name_bytes(text: &[u8]) -> bool
    ensures { result ≡ list_all is_name_byte text.now }
{
    text.iter().all(|byte| is_name_byte(*byte))
}

fn is_name_of_text(text: &[u8]) -> bool
    ensures { result ≡ is_name_of_text text.now }
{
    !text.is_empty()
        && text.len() <= MOST_NAME_BYTES
        && all_name_bytes(text)
        && text != b".".as_slice()
        && text != b"..".as_slice()
}

/// Whether a text is a name, as `Name::read` tests it. Takes no memory.
fn is_name(text: &str) -> bool
    ensures { result ≡ is_name text.now }
{
    is_name_of_text(text.as_bytes())
}

/// Why the path is none: TooDeep where it has more than 32 names, else BadPath where one of them is no name.
pub fn bad_path(path: &str) -> Option<Code>
    ensures { result ≡ bad_names (names_of path.now) }
{
    let mut left = Names::of(path);
    let mut count = 0;
    let mut good = true;
    while let Some(name) = left.next() {
        if count == MOST_NAMES {
            return Some(Code::TooDeep);
        }
        if !is_name(name) {
            good = false;
        }
        count += 1;
    }
    if good { None } else { Some(Code::BadPath) }
}

/// The name that the bytes are.
pub(crate) fn name_of(alloc: Global, bytes: &[u8]) -> Result<Name, OutOfMemory>
    requires { names.is_name bytes.now ≡ true }
    ensures { IfOk result (λ n. n ≡ bytes.now) }
{
    match Name::read(alloc, bytes) {
        Ok(name) => Ok(name),
        Err(CallError::OutOfMemory) => Err(OutOfMemory),
        Err(CallError::No(_)) => unreachable!(),
    }
}
