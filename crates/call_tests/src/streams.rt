//! Reading and writing over memory, over failing ends, and over std's readers and writers.
use fare_io::{
    FailSink, FailSource, InFault, MemSink, MemSource, OutFault, StdSink, StdSource, read_all,
    write_all,
};
use fare_law::{List, Mem};
use std::alloc::{AllocError, Global};
use std::io;
use std::io::{ErrorKind, Read, Write};
use std::test::Fail;

fn hello(alloc: Global) -> Result<List<u8>, AllocError> {
    Ok(List::from_vec(b"hello".to_vec(alloc)?))
}

// The list of this one call.
fn only_call(alloc: Global, number: u32) -> Result<List<u32>, AllocError> {
    Ok(List::from_vec(vec![in alloc; number]?))
}

// A reader and writer that fails each call.
#[derive(Drop)]
struct Broken;

impl Read for Broken {
    fn read(&mut self, _buf: &mut [u8]) -> io::Result<usize> {
        Err(io::Error::from(ErrorKind::BrokenPipe))
    }
}

impl Write for Broken {
    fn write(&mut self, _buf: &[u8]) -> io::Result<usize> {
        Err(io::Error::from(ErrorKind::BrokenPipe))
    }

    fn flush(&mut self) -> io::Result<()> {
        Ok(())
    }
}

// Whether this comes of reading "hello" with this limit.
fn reads(alloc: Global, limit: usize, want: Result<&str, InFault>) -> Result<bool, AllocError> {
    let mut source = MemSource::new(hello(alloc)?);
    let found = read_all(alloc, &mut source, limit);
    let came = found.as_ref().map(List::as_slice).map_err(|fault| *fault);
    Ok(came == want.map(str::as_bytes))
}

#[test]
fn reads_to_the_end(rt: HostRuntime) -> Result<(), Fail> {
    let cases = [
        ("below the limit", 9, Ok("hello")),
        ("at the limit", 5, Ok("hello")),
        ("past the limit", 4, Err(InFault::TooLong)),
    ];
    for (name, limit, want) in cases {
        assert!(rt; reads(rt.alloc(), limit, want)?, "{name}");
    }
    Ok(())
}

// Whether a read of "hello" fails of which this call does.
fn fails_with(alloc: Global, call: u32) -> Result<bool, AllocError> {
    let mut source = FailSource::new(hello(alloc)?, only_call(alloc, call)?);
    let read = read_all(alloc, &mut source, 9);
    Ok(matches!(&read, Err(InFault::ReadFault)))
}

#[test]
fn tells_a_failed_read(rt: HostRuntime) -> Result<(), Fail> {
    let cases = [
        ("the first call", 1, true),
        ("the call at the end", 2, true),
        ("a call that isn't made", 3, false),
        ("no call", 0, false),
    ];
    for (name, call, fails) in cases {
        assert!(rt; fails_with(rt.alloc(), call)? == fails, "{name}");
    }
    Ok(())
}

// What a write has to come to, and what the sink then holds.
type Wanted = (Result<(), OutFault>, &'static str);

// Whether this comes of writing "hello" into this room.
fn writes(alloc: Global, room: u32, (want, held): Wanted) -> Result<bool, Mem> {
    let mut sink = MemSink::new(alloc, room)?;
    let came = write_all(&mut sink, b"hello");
    Ok(came == want && sink.as_slice() == held.as_bytes())
}

#[test]
fn writes_what_fits(rt: HostRuntime) -> Result<(), Fail> {
    let cases = [
        ("all fits", 5, (Ok(()), "hello")),
        ("some fits", 3, (Err(OutFault::Stuck), "hel")),
        ("nothing fits", 0, (Err(OutFault::Stuck), "")),
    ];
    for (name, room, want) in cases {
        assert!(rt; writes(rt.alloc(), room, want)?, "{name}");
    }
    Ok(())
}

// Whether this comes of writing "version 1" by so many bytes a call, of which this one fails.
fn writes_by(alloc: Global, step: u32, call: u32, (want, held): Wanted) -> Result<bool, Mem> {
    let mut sink = FailSink::new(alloc, 100, step, only_call(alloc, call)?)?;
    let came = write_all(&mut sink, b"version 1");
    Ok(came == want && sink.as_slice() == held.as_bytes())
}

#[test]
fn tells_a_failed_write(rt: HostRuntime) -> Result<(), Fail> {
    let cases = [
        ("the first call", 4, 1, (Err(OutFault::Failed), "")),
        ("the second call", 4, 2, (Err(OutFault::Failed), "vers")),
        ("the last call", 1, 9, (Err(OutFault::Failed), "version ")),
        ("no call", 4, 0, (Ok(()), "version 1")),
        ("no byte a call", 0, 2, (Err(OutFault::Stuck), "")),
    ];
    for (name, step, call, want) in cases {
        assert!(rt; writes_by(rt.alloc(), step, call, want)?, "{name}");
    }
    Ok(())
}

// Whether std's reader and writer give and take these bytes.
fn passes_on(alloc: Global, text: &[u8]) -> Result<[bool; 2], Fail> {
    let read = read_all(alloc, &mut StdSource::new(text), 9)?;
    let mut held = Vec::new(alloc);
    let wrote = write_all(&mut StdSink::new(&mut held), text);
    Ok([
        read.as_slice() == text,
        wrote == Ok(()) && held.as_slice() == text,
    ])
}

#[test]
fn passes_on_the_bytes_of_std(rt: HostRuntime) -> Result<(), Fail> {
    assert!(rt; passes_on(rt.alloc(), b"version 1".as_slice())? == [true; 2]);
    Ok(())
}

// What comes of writing into std's writers of which one fails each call and one has room for four bytes.
fn faults() -> [Result<(), OutFault>; 2] {
    let mut room = [0; 4];
    let mut full = StdSink::new(room.as_mut_slice());
    let stuck = write_all(&mut full, b"version 1");
    [write_all(&mut StdSink::new(Broken), b"version 1"), stuck]
}

#[test]
fn passes_on_the_faults_of_std(rt: HostRuntime) {
    let read = read_all(rt.alloc(), &mut StdSource::new(Broken), 9);
    assert!(rt; matches!(&read, Err(InFault::ReadFault)));
    assert_eq!(rt; faults(), [Err(OutFault::Failed), Err(OutFault::Stuck)]);
}
