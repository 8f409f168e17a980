// What no clause says: the happy path of each call that takes memory, and the streams over readers and writers.
ghost use Rattle.std.specs.Prelude.{◌≤◌};

use crate::{
    MAX_INPUT, MemSink, MemSource, Pull, Push, ReadStop, Sink, Source, StdSink, StdSource,
    SureSink, SureSource, read_all, write_all, write_pieces,
};
use std::alloc::Global;
use std::io;
use std::io::{Read, Write};
use std::test::Fail;

/// A reader and a writer that fail at each read and at each write.
#[derive(Drop)]
struct Broken;

impl Read for Broken {
    fn read(&mut self, _into: &mut [u8]) -> io::Result<usize> {
        Err(io::Error::other("broken"))
    }
}

impl Write for Broken {
    fn write(&mut self, _from: &[u8]) -> io::Result<usize> {
        Err(io::Error::other("broken"))
    }

    fn flush(&mut self) -> io::Result<()> {
        Ok(())
    }
}

/// A writer that takes no byte.
#[derive(Drop)]
struct Full;

impl Write for Full {
    fn write(&mut self, _from: &[u8]) -> io::Result<usize> {
        Ok(0)
    }

    fn flush(&mut self) -> io::Result<()> {
        Ok(())
    }
}

/// A writer that takes all bytes, and fails at each flush.
#[derive(Drop)]
struct Stuck;

impl Write for Stuck {
    fn write(&mut self, from: &[u8]) -> io::Result<usize> {
        Ok(from.len())
    }

    fn flush(&mut self) -> io::Result<()> {
        Err(io::Error::other("stuck"))
    }
}

/// What is read of five bytes where the call `at` fails.
fn read_five(alloc: Global, most: usize, at: u64) -> Result<Vec<u8>, ReadStop>
    requires { 1 ≤ most }
{
    let fails = [at];
    let mut source = MemSource::new(b"abcde", most, &fails);
    read_all(alloc, &mut source)
}

#[test]
fn reads_whole_unless_a_call_fails(rt: HostRuntime) -> Result<(), Fail> {
    let alloc = rt.alloc();
    // Five calls give one byte each, and the call 5 finds the end.
    for at in [0, 4, 5] {
        assert!(rt; matches!(read_five(alloc, 1, at), Err(ReadStop::ReadFault)));
    }
    let read = read_five(alloc, 1, 6).expect(&rt, "no call fails");
    assert_eq!(rt; read.as_slice(), b"abcde".as_slice());
    // The call 0 gives all the bytes, and the call 1 finds the end.
    for at in [0, 1] {
        assert!(rt; matches!(read_five(alloc, 10, at), Err(ReadStop::ReadFault)));
    }
    let read = read_five(alloc, 10, 2).expect(&rt, "no call fails");
    assert_eq!(rt; read.as_slice(), b"abcde".as_slice());
    Ok(())
}

#[test]
fn reads_and_writes_whole(rt: HostRuntime) -> Result<(), Fail> {
    let alloc = rt.alloc();
    let bytes = vec![in alloc; b' '; MAX_INPUT]?;
    let mut source = SureSource::new(&bytes, 1000);
    let read = read_all(alloc, &mut source).expect(&rt, "the bytes fit");
    assert_eq!(rt; read.len(), MAX_INPUT);
    let mut sink = MemSink::new(alloc, 5, 3, &[2]).expect(&rt, "five bytes");
    assert!(rt; write_all(&mut sink, b"abcde"));
    assert!(rt; !write_all(&mut sink, b"f"));
    assert_eq!(rt; sink.written(), b"abcde".as_slice());
    let mut sink = MemSink::new(alloc, 5, 2, &[]).expect(&rt, "five bytes");
    assert!(rt; write_pieces(&mut sink, &[b"abc".as_slice(), b"", b"de"]));
    assert_eq!(rt; sink.written(), b"abcde".as_slice());
    let mut sink = SureSink::new();
    assert!(rt; write_all(&mut sink, b"abcde"));
    Ok(())
}

#[test]
fn streams_over_readers_and_writers(rt: HostRuntime) -> Result<(), Fail> {
    let alloc = rt.alloc();
    let mut into = [0u8; 4];
    let mut source = StdSource::new(b"abc".as_slice());
    assert_eq!(rt; source.pull(&mut into), Pull::Got(3));
    assert_eq!(rt; source.pull(&mut into), Pull::End);
    assert_eq!(rt; into.as_slice(), b"abc\0".as_slice());
    assert_eq!(rt; StdSource::new(Broken).pull(&mut into), Pull::Failed);
    let mut written = Vec::new(alloc);
    assert_eq!(rt; StdSink::new(&mut written).push(b"abc"), Push::Took(3));
    assert_eq!(rt; written.as_slice(), b"abc".as_slice());
    // A failing write, a write of 0 bytes and a failing flush.
    assert_eq!(rt; StdSink::new(Broken).push(b"abc"), Push::Failed);
    assert_eq!(rt; StdSink::new(Full).push(b"abc"), Push::Failed);
    assert_eq!(rt; StdSink::new(Stuck).push(b"abc"), Push::Failed);
    Ok(())
}
