//! Fields read from the front of some bytes.

ghost use Rattle.std.specs.Prelude.{◌≡◌, ◌+◌, ◌<◌, ◌^◌, ◌++◌, ◌∷◌, [], List, ℕ, length, IfOk, IfErr, MatchResult};
ghost use Rattle.std.specs.Int.{w16, w32, w64, to_be_bytes};
ghost use Rattle.cf_codec.specs.Left.{Left, Takes, Lacks};

use crate::failures::CodecError;
use std::marker::Model;

/// Reads fields from the front of some bytes. Contracts see it as the bytes that are left, and the place where they
/// begin, from 0. A call that fails leaves it unchanged.
#[derive(Drop)]
pub struct Reader<'a> {
    rest: &'a [u8],
    at: usize,
}

impl<'a> Model for Reader<'a> {
    ghost use Rattle.std.specs.Prelude.{◌+◌, ◌<◌, ◌^◌, length};
    ghost use Rattle.cf_codec.specs.Left.{Left};

    ghost Value = { Left };

    ghost view = { λ r. record { place = r.at; rest = r.rest.now } };

    ghost invariant = { λ r. r.at + length r.rest.now < 2 ^ 64 };
}

// The number that two bytes spell.
fn number_of_two(field: &[u8]) -> u16
    requires { length field.now ≡ 2 }
    ensures { to_be_bytes w16 result ≡ field.now }
{
    u16::from_be_bytes([field[0], field[1]])
}

// The same of four bytes.
fn number_of_four(field: &[u8]) -> u32
    requires { length field.now ≡ 4 }
    ensures { to_be_bytes w32 result ≡ field.now }
{
    u32::from_be_bytes([field[0], field[1], field[2], field[3]])
}

// The same of eight bytes.
fn number_of_eight(field: &[u8]) -> u64
    requires { length field.now ≡ 8 }
    ensures { to_be_bytes w64 result ≡ field.now }
{
    u64::from_be_bytes([
        field[0], field[1], field[2], field[3], field[4], field[5], field[6], field[7],
    ])
}

impl<'a> Reader<'a> {
    /// A reader at place 0.
    pub fn new(bytes: &'a [u8]) -> Reader<'a>
        ensures { result ≡ record { place = 0; rest = bytes.now } }
    {
        Reader { rest: bytes, at: 0 }
    }

    /// The place of the next byte.
    pub fn place(&self) -> usize
        ensures { result ≡ self.now.place }
    {
        self.at
    }

    /// The next `n` bytes. Short at the place of the first of them where fewer are left.
    pub fn bytes(&mut self, n: usize) -> Result<&'a [u8], CodecError>
        ensures took { IfOk result (λ b. Takes b.now self.old self.new) }
        ensures size { IfOk result (λ b. length b.now ≡ n) }
        ensures short { IfErr result (λ e. Lacks n e self.old self.new) }
    {
        if self.rest.len() < n {
            return Err(CodecError::Short(self.at));
        }
        let (field, rest) = self.rest.split_at(n);
        self.rest = rest;
        self.at += n;
        Ok(field)
    }

    /// The next byte. Short at its place where none is left.
    pub fn u8(&mut self) -> Result<u8, CodecError>
        ensures took { IfOk result (λ v. Takes (v ∷ []) self.old self.new) }
        ensures fits { IfOk result (λ v. v < 2 ^ 8) }
        ensures short { IfErr result (λ e. Lacks 1 e self.old self.new) }
    {
        let field = self.bytes(1)?;
        Ok(field[0])
    }

    /// The number of the next two bytes. Short at the place of the first of them where fewer are left.
    pub fn u16(&mut self) -> Result<u16, CodecError>
        ensures took { IfOk result (λ v. Takes (to_be_bytes w16 v) self.old self.new) }
        ensures fits { IfOk result (λ v. v < 2 ^ 16) }
        ensures short { IfErr result (λ e. Lacks 2 e self.old self.new) }
    {
        let field = self.bytes(2)?;
        Ok(number_of_two(field))
    }

    /// The number of the next four bytes. Short at the place of the first of them where fewer are left.
    pub fn u32(&mut self) -> Result<u32, CodecError>
        ensures took { IfOk result (λ v. Takes (to_be_bytes w32 v) self.old self.new) }
        ensures fits { IfOk result (λ v. v < 2 ^ 32) }
        ensures short { IfErr result (λ e. Lacks 4 e self.old self.new) }
    {
        let field = self.bytes(4)?;
        Ok(number_of_four(field))
    }

    /// The number of the next eight bytes. Short at the place of the first of them where fewer are left.
    pub fn u64(&mut self) -> Result<u64, CodecError>
        ensures took { IfOk result (λ v. Takes (to_be_bytes w64 v) self.old self.new) }
        ensures fits { IfOk result (λ v. v < 2 ^ 64) }
        ensures short { IfErr result (λ e. Lacks 8 e self.old self.new) }
    {
        let field = self.bytes(8)?;
        Ok(number_of_eight(field))
    }

    /// Whether all bytes are read: BadField at the place of the next one where they are not.
    pub fn end(&self) -> Result<(), CodecError>
        ensures { MatchResult result (λ _. self.now.rest ≡ []) (λ e. (e ≡ CodecError.BadField self.now.place) × (0 < length self.now.rest)) }
    {
        if self.rest.is_empty() {
            Ok(())
        } else {
            Err(CodecError::BadField(self.at))
        }
    }
}

/// A law: a number has one spelling of each width, no other number has it, and where it stands in front the rest is
/// one too. So what a writer put is what a reader gives.
pub fn one_number()
    ensures two { (m n : ℕ) (x y : List ℕ) → m < 2 ^ 16 → n < 2 ^ 16 → to_be_bytes w16 m ++ x ≡ to_be_bytes w16 n ++ y → (m ≡ n) × (x ≡ y) }
    ensures four { (m n : ℕ) (x y : List ℕ) → m < 2 ^ 32 → n < 2 ^ 32 → to_be_bytes w32 m ++ x ≡ to_be_bytes w32 n ++ y → (m ≡ n) × (x ≡ y) }
    ensures eight { (m n : ℕ) (x y : List ℕ) → m < 2 ^ 64 → n < 2 ^ 64 → to_be_bytes w64 m ++ x ≡ to_be_bytes w64 n ++ y → (m ≡ n) × (x ≡ y) }
{}
