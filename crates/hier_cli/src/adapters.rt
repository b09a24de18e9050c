// The real file and streams. A source and a sink tell what their streams tell. The streams and files of the system
// tell none of their bytes: what the system gives or takes no contract can say.
ghost use Rattle.std.specs.Prelude.{◌≡◌, ◌<◌, ◌≤◌, ℕ, List, Option, [], None, IfOk, IfSome, IsErrOf, IsOk, OnOk, OnErr, length, min, take, drop};
ghost use Rattle.std.specs.Io.KnownBytes.{Appends, IsAtEnd, Keeps, prepend_known};
ghost use Rattle.hier_types.specs.Causes.{HasCause};
ghost use Rattle.hier_types.specs.Outside.{AppendsFront, Takes};
ghost use Rattle.hier_cli.specs.Files.{IsFile, IsLongerThan, Opens};

use arrayvec::ArrayVec;
use hier_types::{Failed, Shelf, ShelfFault, Sink, Source};
use std::alloc::Global;
use std::io::{Read, Write};
use std::rt::Files;
use std::{fs, io};

/// The most bytes that a stream's source holds back.
const ROOM: usize = 64;

/// A stream that is read, such as standard input. What it gave before it failed is held back for the next read. A read
/// into more than 64 bytes fails too where the stream has so many, since no more can be held back.
#[derive(Drop)]
pub struct StreamSource<R: Read> {
    stream: R,
    // Taken from the stream, and given to no read yet.
    held: ArrayVec<u8, ROOM>,
    faults: u64,
}

impl<R: Read> StreamSource<R> {
    /// A source that has not failed.
    pub fn new(stream: R) -> Self
        ensures stream { result.stream ≡ stream }
        ensures held { result.held.items ≡ [] }
        ensures faults { result.faults ≡ 0 }
    {
        StreamSource {
            stream,
            held: ArrayVec::new(),
            faults: 0,
        }
    }
}

impl<R: Read> Source for StreamSource<R> {
    ghost left = { λ s. prepend_known s.held.items (R.remaining s.stream) };

    ghost faults = { λ s. s.faults };

    fn read(&mut self, into: &mut [u8]) -> Result<usize, Failed>
        ensures bound { IfOk result (λ count. count ≤ length into.new) }
        ensures bytes { Takes (prepend_known self.old.held.items (R.remaining self.old.stream)) (prepend_known self.new.held.items (R.remaining self.new.stream)) result into.new }
        ensures cause { HasCause self.old.faults self.new.faults result }
        ensures held { length into.new ≤ length self.old.held.items → IsOk result }
    {
        if let Err(failed) = hold(&mut self.held, &mut self.stream, into.len()) {
            self.faults = self.faults.saturating_add(1);
            return Err(failed);
        }
        Ok(give(&mut self.held, into))
    }
}

/// Takes bytes from the stream until so many are held, or it ends. None is lost where it fails.
fn hold<R: Read>(held: &mut ArrayVec<u8, ROOM>, stream: &mut R, count: usize) -> Result<(), Failed>
    ensures kept { Keeps (prepend_known held.old.items (R.remaining stream.old)) (prepend_known held.new.items (R.remaining stream.new)) }
    ensures enough { OnOk result (length held.new.items < count → IsAtEnd (R.remaining stream.new)) }
    ensures held { count ≤ length held.old.items → IsOk result }
{
    while held.len() < count {
        let room = held.remaining_capacity().min(count - held.len());
        if room == 0 {
            return Err(Failed);
        }
        let mut chunk = [0; ROOM];
        let part = &mut chunk[..room];
        match stream.read(part) {
            Ok(0) => return Ok(()),
            Ok(more) => {
                if held.try_extend_from_slice(&part[..more]).is_err() {
                    unreachable!();
                }
            }
            Err(_) => return Err(Failed),
        }
    }
    Ok(())
}

/// Moves bytes that are held to the beginning of `into`, as many as it takes, and answers their number.
fn give(held: &mut ArrayVec<u8, ROOM>, into: &mut [u8]) -> usize
    ensures count { result ≡ min (length into.new) (length held.old.items) }
    ensures given { take result into.new ≡ take result held.old.items }
    ensures rest { held.new.items ≡ drop result held.old.items }
{
    let count = into.len().min(held.len());
    into[..count].copy_from_slice(&held[..count]);
    let mut rest = ArrayVec::new();
    if rest.try_extend_from_slice(&held[count..]).is_err() {
        unreachable!();
    }
    *held = rest;
    count
}

/// A stream that is written, such as standard output. Each write is flushed.
#[derive(Drop)]
pub struct StreamSink<W: Write> {
    stream: W,
    faults: u64,
}

impl<W: Write> StreamSink<W> {
    /// A sink that has not failed.
    pub fn new(stream: W) -> Self
        ensures stream { result.stream ≡ stream }
        ensures faults { result.faults ≡ 0 }
    {
        StreamSink { stream, faults: 0 }
    }
}

impl<W: Write> Sink for StreamSink<W> {
    ghost written = { λ s. W.contents s.stream };

    ghost faults = { λ s. s.faults };

    fn write(&mut self, bytes: &[u8]) -> Result<(), Failed> {
        let result = write_and_flush(&mut self.stream, bytes);
        if result.is_err() {
            self.faults = self.faults.saturating_add(1);
        }
        result
    }
}

/// Writes all the bytes, or a front of them where the stream fails.
fn write_and_flush<W: Write>(stream: &mut W, bytes: &[u8]) -> Result<(), Failed>
    ensures ok { OnOk result (Appends (W.contents stream.old) (W.contents stream.new) bytes.now) }
    ensures err { OnErr result (AppendsFront (W.contents stream.old) (W.contents stream.new) bytes.now) }
{
    let mut count = 0;
    while count < bytes.len() {
        match stream.write(&bytes[count..]) {
            Ok(0) => return Err(Failed),
            Ok(more) => count += more,
            Err(_) => return Err(Failed),
        }
    }
    match stream.flush() {
        Ok(()) => Ok(()),
        Err(_) => Err(Failed),
    }
}

/// What opens files by their names. It tells them, or it does not.
pub trait Opener {
    /// A file that is read.
    type File: Read + Drop;

    /// The names and bytes of its files, where it tells them.
    ghost files: { Self → Option (List (List ℕ × List ℕ)) } = { λ _. None };

    /// The file of a name, from its beginning.
    fn open(&self, name: &str) -> Result<Self::File, Failed>
        ensures opened { IfOk result (λ file. Opens (files self.now) name.now (Self.File.remaining file)) };
}

/// The files of the system.
#[derive(Drop)]
pub struct SystemFiles<R: Files> {
    files: R,
}

impl<R: Files> SystemFiles<R> {
    /// What opens the files that the runtime names.
    pub fn new(files: R) -> Self
        ensures { result.files ≡ files }
    {
        SystemFiles { files }
    }
}

impl<R: Files> Opener for SystemFiles<R> {
    type File = R::File;

    fn open(&self, name: &str) -> Result<R::File, Failed> {
        match fs::open(&self.files, name) {
            Ok(file) => Ok(file),
            Err(_) => Err(Failed),
        }
    }
}

/// Files that are opened and read when they are asked for.
#[derive(Drop)]
pub struct FileShelf<O: Opener> {
    opener: O,
    faults: u64,
}

impl<O: Opener> FileShelf<O> {
    /// A shelf that has not failed.
    pub fn new(opener: O) -> Self
        ensures opener { result.opener ≡ opener }
        ensures faults { result.faults ≡ 0 }
    {
        FileShelf { opener, faults: 0 }
    }
}

impl<O: Opener> Shelf for FileShelf<O> {
    ghost files = { λ s. O.files s.opener };

    ghost faults = { λ s. s.faults };

    fn load(&mut self, alloc: Global, name: &str, limit: u64) -> Result<Vec<u8>, ShelfFault> {
        let result = load_from(alloc, &self.opener, name, limit);
        if matches!(&result, Err(ShelfFault::Failed)) {
            self.faults = self.faults.saturating_add(1);
        }
        result
    }
}

/// All bytes of the file of a name, if there are at most so many.
fn load_from<O: Opener>(
    alloc: Global,
    opener: &O,
    name: &str,
    limit: u64,
) -> Result<Vec<u8>, ShelfFault>
    ensures bounded { IfOk result (λ file. length file.items ≤ limit) }
    ensures found { IfOk result (λ file. IsFile (O.files opener.now) name.now file.items) }
    ensures too_long { IsErrOf result ShelfFault.TooLong → IsLongerThan limit (O.files opener.now) name.now }
{
    let file = match opener.open(name) {
        Ok(file) => file,
        Err(Failed) => return Err(ShelfFault::Failed),
    };
    read_up_to(alloc, file, limit)
}

/// All bytes that a reader gives, if there are at most so many.
fn read_up_to<R: Read + Drop>(alloc: Global, reader: R, limit: u64) -> Result<Vec<u8>, ShelfFault>
    ensures bounded { IfOk result (λ file. length file.items ≤ limit) }
    ensures whole { IfOk result (λ file. IfSome (R.remaining reader) (λ all. file.items ≡ all)) }
    ensures too_long { IsErrOf result ShelfFault.TooLong → IfSome (R.remaining reader) (λ all. limit < length all) }
{
    let mut bytes = Vec::new(alloc);
    match reader.take(limit.saturating_add(1)).read_to_end(&mut bytes) {
        Ok(_) if bytes.len() as u64 > limit => Err(ShelfFault::TooLong),
        Ok(_) => Ok(bytes),
        Err(error) if error.kind() == io::ErrorKind::OutOfMemory => Err(ShelfFault::NoMemory),
        Err(_) => Err(ShelfFault::Failed),
    }
}
