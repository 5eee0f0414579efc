//! Fields written at the end of some bytes.

ghost use Rattle.std.specs.Prelude.{◌≡◌, ◌++◌, ◌∷◌, [], List, ℕ, OnOk, OnErr};
ghost use Rattle.std.specs.Int.{w16, w32, w64, to_be_bytes};

use byteorder::{BigEndian, ByteOrder};
use cf_base::{Blob, OutOfMemory};
use std::alloc::Global;
use std::marker::Model;

/// Writes fields, each at the end of those before it. Contracts see it as the bytes so far. A call that finds no memory
/// leaves it unchanged.
#[derive(Drop)]
pub struct Writer {
    out: Vec<u8>,
}

impl Model for Writer {
    ghost Value = { List ℕ };

    ghost view = { λ w. w.out.items };
}

impl Writer {
    /// A writer of no bytes, which keeps its allocator.
    pub fn new(alloc: Global) -> Writer
        ensures { result ≡ [] }
    {
        Writer {
            out: Vec::new(alloc),
        }
    }

    /// Puts one byte. OutOfMemory where there is none.
    pub fn put_u8(&mut self, v: u8) -> Result<(), OutOfMemory>
        ensures ok { OnOk result (self.new ≡ self.old ++ v ∷ []) }
        ensures err { OnErr result (self.new ≡ self.old) }
    {
        self.out.push(v)?;
        Ok(())
    }

    /// Puts a number as two bytes. OutOfMemory where there is none.
    pub fn put_u16(&mut self, v: u16) -> Result<(), OutOfMemory>
        ensures ok { OnOk result (self.new ≡ self.old ++ to_be_bytes w16 v) }
        ensures err { OnErr result (self.new ≡ self.old) }
    {
        let mut field = [0u8; 2];
        BigEndian::write_u16(&mut field, v);
        self.out.extend_from_slice(&field)?;
        Ok(())
    }

    /// Puts a number as four bytes. OutOfMemory where there is none.
    pub fn put_u32(&mut self, v: u32) -> Result<(), OutOfMemory>
        ensures ok { OnOk result (self.new ≡ self.old ++ to_be_bytes w32 v) }
        ensures err { OnErr result (self.new ≡ self.old) }
    {
        let mut field = [0u8; 4];
        BigEndian::write_u32(&mut field, v);
        self.out.extend_from_slice(&field)?;
        Ok(())
    }

    /// Puts a number as eight bytes. OutOfMemory where there is none.
    pub fn put_u64(&mut self, v: u64) -> Result<(), OutOfMemory>
        ensures ok { OnOk result (self.new ≡ self.old ++ to_be_bytes w64 v) }
        ensures err { OnErr result (self.new ≡ self.old) }
    {
        let mut field = [0u8; 8];
        BigEndian::write_u64(&mut field, v);
        self.out.extend_from_slice(&field)?;
        Ok(())
    }

    /// Puts the bytes as they are. OutOfMemory where there is none.
    pub fn put_bytes(&mut self, bytes: &[u8]) -> Result<(), OutOfMemory>
        ensures ok { OnOk result (self.new ≡ self.old ++ bytes.now) }
        ensures err { OnErr result (self.new ≡ self.old) }
    {
        self.out.extend_from_slice(bytes)?;
        Ok(())
    }

    /// The bytes so far. Takes no memory.
    pub fn into_blob(self) -> Blob
        ensures { result ≡ self }
    {
        let Writer { out } = self;
        Blob::from_vec(out)
    }
}
