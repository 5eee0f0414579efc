//! What no clause says: that the calls succeed where there is memory, and some bytes from outside.

use cf_base::OutOfMemory;
use cf_codec::*;
use std::alloc::Global;
use std::process::Abort;
use std::test::Fail;

fn put(writer: &mut Writer) -> Result<(), OutOfMemory> {
    writer.put_u8(1)?;
    writer.put_u16(0x0203)?;
    writer.put_u32(0x0405_0607)?;
    writer.put_u64(8)?;
    writer.put_bytes(b"hi")
}

const WRITTEN: [u8; 17] = [1, 2, 3, 4, 5, 6, 7, 0, 0, 0, 0, 0, 0, 0, 8, 104, 105];

// Whether this is written.
fn is_written(alloc: Global) -> Result<bool, OutOfMemory> {
    let mut writer = Writer::new(alloc);
    let put = put(&mut writer);
    let blob = writer.into_blob();
    let same = blob.as_slice() == WRITTEN.as_slice();
    drop(blob);
    put?;
    Ok(same)
}

fn reads(rt: &impl Abort, reader: &mut Reader) {
    assert!(rt; reader.u8() == Ok(1));
    assert!(rt; reader.u16() == Ok(0x0203));
    assert!(rt; reader.u32() == Ok(0x0405_0607));
    assert!(rt; reader.u64() == Ok(8));
    assert!(rt; reader.end() == Err(CodecError::BadField(15)));
    assert!(rt; reader.bytes(2) == Ok(b"hi".as_slice()));
    assert!(rt; reader.end() == Ok(()));
}

#[test]
fn what_is_written_is_read_again(rt: HostRuntime) -> Result<(), Fail> {
    assert!(rt; is_written(rt.alloc())?);
    let mut reader = Reader::new(&WRITTEN);
    reads(&rt, &mut reader);
    Ok(())
}

#[test]
fn a_field_that_lacks_bytes_names_its_first_place(rt: HostRuntime) -> Result<(), Fail> {
    let mut reader = Reader::new(b"ab");
    assert!(rt; reader.u32() == Err(CodecError::Short(0)));
    assert!(rt; reader.u8() == Ok(97));
    assert!(rt; reader.u16() == Err(CodecError::Short(1)));
    assert!(rt; reader.u64() == Err(CodecError::Short(1)));
    assert!(rt; reader.bytes(2) == Err(CodecError::Short(1)));
    Ok(())
}
