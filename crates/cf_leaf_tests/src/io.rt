//! That calls succeed with ample memory, that the listed calls fail, and that the system's bytes come through.

use cf_base::OutOfMemory;
use cf_io::{
    IoError, MemSink, MemSource, ReadError, Sink, Source, StdSink, StdSource, read_all, read_up_to,
    write_all,
};
use std::alloc::Global;
use std::process::Abort;
use std::test::Fail;

// Whether this is what was read.
fn is_text(read: Result<Vec<u8>, ReadError>, wanted: &[u8]) -> Result<bool, ReadError> {
    let text = read?;
    let same = text.as_slice() == wanted;
    drop(text);
    Ok(same)
}

// Whether `sync` and a line end are read whole within so many bytes.
fn is_read(
    alloc: Global,
    most: u16,
    fails: &[u64],
) -> Result<Result<bool, ReadError>, OutOfMemory> {
    let mut source = MemSource::new(alloc, b"sync\n", fails)?;
    let read = read_all(alloc, &mut source, most as usize);
    drop(source);
    Ok(is_text(read, b"sync\n"))
}

#[test]
fn reads_a_whole_source(rt: HostRuntime) -> Result<(), Fail> {
    assert!(rt; is_read(rt.alloc(), 5, &[])? == Ok(true));
    assert!(rt; is_read(rt.alloc(), 4, &[])? == Err(ReadError::TooLong));
    assert!(rt; is_read(rt.alloc(), 5, &[2])? == Err(ReadError::Fault));
    Ok(())
}

fn reads_fronts(rt: &impl Abort, alloc: Global, source: &mut MemSource) {
    assert!(rt; is_text(read_up_to(alloc, source, 2), b"ab") == Ok(true));
    assert!(rt; is_text(read_up_to(alloc, source, 2), b"cd") == Ok(true));
    assert!(rt; is_text(read_up_to(alloc, source, 2), b"") == Err(ReadError::Fault));
    assert!(rt; is_text(read_up_to(alloc, source, 2), b"e") == Ok(true));
}

#[test]
fn reads_the_front_of_a_source(rt: HostRuntime) -> Result<(), Fail> {
    let mut source = MemSource::new(rt.alloc(), b"abcde", &[3])?;
    reads_fronts(&rt, rt.alloc(), &mut source);
    drop(source);
    Ok(())
}

fn reads_fail(rt: &impl Abort, source: &mut MemSource) {
    let mut out = [0u8; 2];
    assert!(rt; source.read(&mut out) == Err(IoError));
    assert!(rt; source.read(&mut out) == Ok(2));
    assert!(rt; out == *b"ab");
    assert!(rt; source.read(&mut out) == Err(IoError));
    assert!(rt; source.read(&mut out) == Ok(1));
    assert!(rt; source.read(&mut out) == Ok(0));
}

#[test]
fn listed_reads_fail(rt: HostRuntime) -> Result<(), Fail> {
    let mut source = MemSource::new(rt.alloc(), b"abc", &[1, 3])?;
    reads_fail(&rt, &mut source);
    drop(source);
    Ok(())
}

fn writes_fail(rt: &impl Abort, sink: &mut MemSink) {
    assert!(rt; write_all(sink, b"ab") == Ok(()));
    assert!(rt; sink.write(b"cd") == Err(IoError));
    assert!(rt; write_all(sink, b"efgh") == Err(IoError));
    assert!(rt; sink.bytes() == b"abefg".as_slice());
}

#[test]
fn listed_writes_fail(rt: HostRuntime) -> Result<(), Fail> {
    let mut sink = MemSink::new(rt.alloc(), 5, &[2])?;
    writes_fail(&rt, &mut sink);
    drop(sink);
    Ok(())
}

#[test]
fn bytes_of_the_system_come_through(rt: HostRuntime) -> Result<(), Fail> {
    let mut source = StdSource::new(b"some bytes".as_slice());
    let text = read_all(rt.alloc(), &mut source, 100);
    assert!(rt; is_text(text, b"some bytes") == Ok(true));
    let mut room = [0u8; 4];
    let mut sink = StdSink::new(room.as_mut_slice());
    assert!(rt; write_all(&mut sink, b"bytes") == Err(IoError));
    Ok(())
}
