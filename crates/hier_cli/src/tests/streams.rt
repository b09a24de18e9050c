// The real streams' and files' adapters, over bytes in memory.
ghost use Rattle.std.specs.Prelude.{[], ◌∷◌, Some};

use crate::adapters::{FileShelf, Opener, StreamSink, StreamSource};
use hier_types::{Failed, Shelf, ShelfFault, Sink, Source};
use std::io::{self, Read};
use std::test::Fail;

/// Gives at most two bytes at a time, and fails in its second call.
#[derive(Drop)]
struct Halting<R: Read> {
    stream: R,
    calls: u8,
}

impl<R: Read> Read for Halting<R> {
    ghost remaining = { λ s. R.remaining s.stream };

    fn read(&mut self, buf: &mut [u8]) -> io::Result<usize> {
        self.calls = self.calls.saturating_add(1);
        if self.calls == 2 {
            return Err(io::Error::from(io::ErrorKind::Other));
        }
        let len = buf.len().min(2);
        self.stream.read(&mut buf[..len])
    }
}

#[test]
fn failed_reads_lose_nothing(rt: HostRuntime) {
    let (stream, calls) = (b"abcdefg".as_slice(), 0);
    let mut source = StreamSource::new(Halting { stream, calls });
    let mut five = [0; 5];
    assert_eq!(rt; source.read(&mut five), Err(Failed));
    assert_eq!(rt; source.read(&mut five), Ok(5));
    assert_eq!(rt; five, *b"abcde");
    assert_eq!(rt; source.read(&mut five), Ok(2));
    let mut source = StreamSource::new([7; 66].as_slice());
    assert_eq!(rt; source.read(&mut [0; 65]), Err(Failed));
    assert_eq!(rt; source.read(&mut [0; 64]), Ok(64));
    assert_eq!(rt; source.read(&mut [0; 65]), Ok(2));
}

#[test]
fn streams_carry_bytes(rt: HostRuntime) {
    let mut source = StreamSource::new(b"abc".as_slice());
    let mut two = [0; 2];
    assert_eq!(rt; source.read(&mut two), Ok(2));
    assert_eq!(rt; two, *b"ab");
    assert_eq!(rt; source.read(&mut two), Ok(1));
    assert_eq!(rt; source.read(&mut two), Ok(0));
    let mut room = [0; 4];
    let mut sink = StreamSink::new(room.as_mut_slice());
    assert_eq!(rt; sink.write(b"ab"), Ok(()));
    assert_eq!(rt; sink.write(b"cde"), Err(Failed));
    assert_eq!(rt; room, *b"abcd");
}

/// One file in memory, which it tells.
#[derive(Drop)]
struct OneFile<'a> {
    name: &'a str,
    bytes: &'a [u8],
}

impl<'a> Opener for OneFile<'a> {
    type File = &'a [u8];

    ghost files = { λ s. Some ((s.name.now, s.bytes.now) ∷ []) };

    fn open(&self, name: &str) -> Result<&'a [u8], Failed> {
        if name != self.name {
            return Err(Failed);
        }
        Ok(self.bytes)
    }
}

#[test]
fn a_shelf_gives_whole_files(rt: HostRuntime) -> Result<(), Fail> {
    let alloc = rt.alloc();
    let file = OneFile {
        name: "a",
        bytes: b"abc",
    };
    let mut shelf = FileShelf::new(file);
    for limit in [3, 4, u64::MAX] {
        let file = shelf.load(alloc, "a", limit).ok().ok_or("no file")?;
        assert_eq!(rt; file.as_slice(), b"abc".as_slice());
    }
    for (name, limit, fault) in [
        ("a", 2, ShelfFault::TooLong),
        ("a", 0, ShelfFault::TooLong),
        ("b", 3, ShelfFault::Failed),
    ] {
        assert_eq!(rt; shelf.load(alloc, name, limit).err(), Some(fault));
    }
    Ok(())
}
