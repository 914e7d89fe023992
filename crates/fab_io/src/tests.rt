//! Shelves and sinks in memory once each, real files, and readers and writers that fail in mid-stream.
ghost use Rattle.std.specs.Prelude.{◌≤◌};

use super::*;
use crate::files::fetch_from;
use std::alloc::{AllocError, Global};
use std::io;
use std::io::{ErrorKind, Read, Write};
use std::test::Fail;

/// Gives and takes one byte at a time, and fails once so many calls are done. What it took reaches it only
/// at a flush.
#[derive(Drop)]
struct Halting {
    calls: u32,
    waiting: Vec<u8>,
    taken: Vec<u8>,
}

impl Halting {
    fn new(alloc: Global, calls: u32) -> Halting {
        Halting {
            calls,
            waiting: Vec::new(alloc),
            taken: Vec::new(alloc),
        }
    }

    fn count(&mut self) -> io::Result<()> {
        if self.calls == 0 {
            return Err(io::Error::from(ErrorKind::Other));
        }
        self.calls -= 1;
        Ok(())
    }
}

impl Read for Halting {
    fn read(&mut self, buf: &mut [u8]) -> io::Result<usize> {
        self.count()?;
        if buf.is_empty() {
            return Ok(0);
        }
        buf[0] = b'x';
        Ok(1)
    }
}

impl Write for Halting {
    fn write(&mut self, buf: &[u8]) -> io::Result<usize> {
        self.count()?;
        if buf.is_empty() {
            return Ok(0);
        }
        self.waiting.push(buf[0]).map_err(AllocError::from)?;
        Ok(1)
    }

    fn flush(&mut self) -> io::Result<()> {
        self.count()?;
        self.taken.extend_from_slice(&self.waiting)?;
        self.waiting.clear();
        Ok(())
    }
}

fn fetched<F: Shelf>(
    shelf: &mut F,
    name: &str,
    limit: usize,
    into: &mut Vec<u8>,
) -> Result<bool, FetchFault>
    requires { limit ≤ 536870912 }
{
    shelf.fetch(name, limit, into)
}

fn put_words<S: Sink>(sink: &mut S) -> Result<(), PutFault> {
    sink.put(b"one ")?;
    sink.put(b"")?;
    sink.put(b"two")
}

#[test]
fn fetches_from_memory(rt: HostRuntime) -> Result<(), Fail> {
    let mut shelf = MemoryShelf::new(rt.alloc());
    shelf.add("a", b"old")?;
    shelf.add("a", b"newer")?;
    shelf.fail(3)?;
    let mut into = b"rest".to_vec(rt.alloc())?;
    assert!(rt; fetched(&mut shelf, "a", 5, &mut into)?);
    assert_eq!(rt; into.as_slice(), b"newer".as_slice());
    assert!(rt; !fetched(&mut shelf, "a", 4, &mut into)?);
    for name in ["a", "c"] {
        let fetch = fetched(&mut shelf, name, 5, &mut into);
        assert!(rt; matches!(fetch, Err(FetchFault::Failed)), "{name}");
    }
    Ok(())
}

#[test]
fn puts_to_memory(rt: HostRuntime) -> Result<(), Fail> {
    let mut sink = MemorySink::new(rt.alloc());
    sink.fail(2, 1)?;
    assert!(rt; matches!(put_words(&mut sink), Err(PutFault::Failed)));
    put_words(&mut sink)?;
    assert_eq!(rt; sink.bytes(), b"one tone two".as_slice());
    Ok(())
}

#[test]
fn fetches_from_files(rt: HostRuntime) -> Result<(), Fail> {
    let mut shelf = FileShelf::new(&rt);
    let mut into = b"rest".to_vec(rt.alloc())?;
    assert!(rt; fetched(&mut shelf, "/dev/null", 0, &mut into)?);
    assert!(rt; into.is_empty());
    assert!(rt; !fetched(&mut shelf, "/dev/zero", 9000, &mut into)?);
    assert!(rt; into.is_empty());
    for name in ["", "/", "/dev/null/none"] {
        into.push(b'x')?;
        let fetch = fetched(&mut shelf, name, 9, &mut into);
        assert!(rt; matches!(fetch, Err(FetchFault::Failed)), "{name}");
        assert!(rt; into.is_empty());
    }
    Ok(())
}

#[test]
fn fetches_from_readers(rt: HostRuntime) -> Result<(), Fail> {
    let mut whole = Vec::new(rt.alloc());
    for number in 0..9000u16 {
        whole.push((number % 251) as u8)?;
    }
    let mut into = Vec::new(rt.alloc());
    assert!(rt; fetch_from(&mut whole.as_slice(), 9000, &mut into)?);
    assert_eq!(rt; into, whole);
    let mut long = Halting::new(rt.alloc(), 3);
    assert!(rt; !fetch_from(&mut long, 2, &mut into)?);
    assert_eq!(rt; long.calls, 0);
    let mut halting = Halting::new(rt.alloc(), 3);
    let fetch = fetch_from(&mut halting, 9, &mut into);
    assert!(rt; matches!(fetch, Err(FetchFault::Failed)));
    assert!(rt; into.is_empty());
    Ok(())
}

#[test]
fn puts_to_streams(rt: HostRuntime) -> Result<(), Fail> {
    // four bytes and a flush for `one `, then four calls for `two`
    for (calls, taken) in [(9, "one two"), (8, "one "), (5, "one "), (4, ""), (2, "")] {
        let mut stream = Halting::new(rt.alloc(), calls);
        let mut sink = StreamSink::new(&mut stream);
        let put = put_words(&mut sink);
        assert_eq!(rt; put.is_ok(), calls == 9, "{calls}");
        drop(sink);
        assert_eq!(rt; stream.taken.as_slice(), taken.as_bytes(), "{calls}");
    }
    StreamSink::new(rt.stdout()).put(b"")?;
    Ok(())
}
