//! Fields of frames, as they are spelled.

ghost use Rattle.std.specs.Prelude.{◌≡◌, ◌≤◌, ◌<◌, ◌^◌, ◌++◌, length, OnOk};
ghost use Rattle.cf_model.specs.Books.{key_bytes};
ghost use Rattle.cf_model.specs.Frames.{blob_bytes, name_bytes};
ghost use Rattle.cf_model.specs.Words.{in_bytes};
ghost use Rattle.cf_wire.specs.Spelled.{FitsBlob, FitsKey, FitsName};

use cf_base::{Key, OutOfMemory};
use cf_codec::Writer;

#[tactic(auto, using(crate::proofs::Bytes::four_bytes))]
pub(crate) fn put_4(out: &mut Writer, v: u32) -> Result<(), OutOfMemory>
    ensures ok { OnOk result (out.new ≡ out.old ++ in_bytes 4 v) }
    ensures fits { v < 2 ^ 32 }
{
    out.put_u32(v)
}

#[tactic(auto, using(crate::proofs::Bytes::eight_bytes))]
pub(crate) fn put_8(out: &mut Writer, v: u64) -> Result<(), OutOfMemory>
    ensures ok { OnOk result (out.new ≡ out.old ++ in_bytes 8 v) }
    ensures fits { v < 2 ^ 64 }
{
    out.put_u64(v)
}

#[tactic(auto, using(crate::proofs::Bytes::joined))]
pub(crate) fn put_key(out: &mut Writer, key: Key) -> Result<(), OutOfMemory>
    ensures ok { OnOk result (out.new ≡ out.old ++ key_bytes key) }
    ensures fits { FitsKey key }
{
    put_4(out, key.epoch)?;
    put_4(out, key.number)
}

/// The length in a byte, and the text.
pub(crate) fn put_name(out: &mut Writer, name: &[u8]) -> Result<(), OutOfMemory>
    requires { length name.now ≤ 255 }
    ensures ok { OnOk result (out.new ≡ out.old ++ name_bytes name.now) }
    ensures fits { FitsName name.now }
{
    out.put_u8(name.len() as u8)?;
    out.put_bytes(name)
}

/// The length in four bytes, and the bytes.
#[tactic(auto, using(crate::proofs::Bytes::joined))]
pub(crate) fn put_blob(out: &mut Writer, bytes: &[u8]) -> Result<(), OutOfMemory>
    requires { length bytes.now < 2 ^ 32 }
    ensures ok { OnOk result (out.new ≡ out.old ++ blob_bytes bytes.now) }
    ensures fits { FitsBlob bytes.now }
{
    put_4(out, bytes.len() as u32)?;
    out.put_bytes(bytes)
}
