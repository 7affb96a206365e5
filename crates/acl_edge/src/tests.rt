//! The ends at work.

use crate::{Failed, MemSink, MemSource, Sink, Source, StdSink, StdSource};
use std::io::Cursor;
use std::test::Fail;

#[test]
fn a_source_in_memory_gives_pieces_and_fails_where_told(rt: HostRuntime) -> Result<(), Fail> {
    let bytes = b"abcde".to_vec(rt.alloc())?;
    let fail = vec![in rt.alloc(); 2u64]?;
    let mut source = MemSource::new(bytes, 3, fail);
    let mut buf = [0u8; 4];
    assert_eq!(rt; source.read(&mut buf), Ok(3));
    assert_eq!(rt; buf, *b"abc\0");
    assert_eq!(rt; source.read(&mut buf), Err(Failed));
    assert_eq!(rt; source.read(&mut buf), Ok(2));
    assert_eq!(rt; buf, *b"dec\0");
    assert_eq!(rt; source.read(&mut buf), Ok(0));
    Ok(())
}

#[test]
fn a_sink_in_memory_takes_what_fits_and_fails_where_told(rt: HostRuntime) -> Result<(), Fail> {
    let fail = vec![in rt.alloc(); 2u64]?;
    let mut sink = MemSink::new(rt.alloc(), 5, fail)?;
    assert_eq!(rt; sink.write(b"abc"), Ok(3));
    assert_eq!(rt; sink.write(b"d"), Err(Failed));
    assert_eq!(rt; sink.write(b"def"), Ok(2));
    assert_eq!(rt; sink.write(b""), Ok(0));
    assert_eq!(rt; sink.write(b"g"), Err(Failed));
    assert_eq!(rt; sink.bytes(), b"abcde".as_slice());
    Ok(())
}

#[test]
fn a_real_source_gives_what_its_reader_gives(rt: HostRuntime) {
    let mut source = StdSource::new(Cursor::new(b"xyz".as_slice()));
    let mut buf = [0u8; 2];
    assert_eq!(rt; source.read(&mut buf), Ok(2));
    assert_eq!(rt; buf, *b"xy");
    assert_eq!(rt; source.read(&mut buf), Ok(1));
    assert_eq!(rt; source.read(&mut buf), Ok(0));
}

#[test]
fn a_real_sink_hands_its_writer_the_bytes(rt: HostRuntime) -> Result<(), Fail> {
    let mut bytes: Vec<u8> = Vec::new(rt.alloc());
    let mut sink = StdSink::new(&mut bytes);
    assert_eq!(rt; sink.write(b"pq"), Ok(2));
    assert_eq!(rt; sink.write(b"r"), Ok(1));
    drop(sink);
    assert_eq!(rt; bytes.as_slice(), b"pqr".as_slice());
    Ok(())
}
