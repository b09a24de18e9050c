use super::*;
use hier_types::{BytesSink, BytesSource, ListShelf};
use rv_asm::write_elf;
use std::alloc::Global;
use std::process::Abort;
use std::test::Fail;
use std::thread::Threads;

mod commands;
mod files;
mod instructions;
mod room;
mod runs;
mod same_machine;
mod streams;
mod traces;

const ECALL: u32 = 0x0000_0073;

/// `addi x10, x0, 3`, `addi x17, x0, 93`, `ecall`.
const EXIT_THREE: [u32; 3] = [0x0030_0513, 0x05d0_0893, ECALL];

/// Stores `abc` across the border of two lines at 00010FFE, writes it twice, and exits with 0.
const WRITE_ABC_TWICE: [u32; 17] = [
    0x0001_15b7, // lui x11, 0x11
    0xffe5_8593, // addi x11, x11, -2
    0x0610_0293, // addi x5, x0, 'a'
    0x0055_8023, // sb x5, 0(x11)
    0x0620_0293, // addi x5, x0, 'b'
    0x0055_80a3, // sb x5, 1(x11)
    0x0630_0293, // addi x5, x0, 'c'
    0x0055_8123, // sb x5, 2(x11)
    0x0010_0513, // addi x10, x0, 1
    0x0030_0613, // addi x12, x0, 3
    0x0400_0893, // addi x17, x0, 64
    ECALL,
    0x0020_0513, // addi x10, x0, 2
    ECALL,
    0x0000_0513, // addi x10, x0, 0
    0x05d0_0893, // addi x17, x0, 93
    ECALL,
];

/// The calls of the input, the output and the note that fail.
#[derive(Drop)]
struct Failing {
    input: Vec<u64>,
    output: Vec<(u64, usize)>,
    note: Vec<(u64, usize)>,
}

impl Failing {
    fn nowhere(alloc: Global) -> Self {
        Failing {
            input: Vec::new(alloc),
            output: Vec::new(alloc),
            note: Vec::new(alloc),
        }
    }
}

/// The bytes that an output and a note in memory take.
const ROOM: usize = 262_144;

/// What the program left, run on the words with the file `a`.
#[derive(Drop)]
struct Left {
    status: Status,
    input: Vec<u8>,
    output: Vec<u8>,
    note: Vec<u8>,
}

impl Left {
    /// Checks how the program ended, what it printed, and how its note begins.
    fn check<R: Abort>(&self, rt: &R, end: End, output: &[u8], note: &[u8]) {
        assert_eq!(*rt; self.status.end, end);
        assert_eq!(*rt; self.output.as_slice(), output);
        assert!(*rt; self.note.starts_with(note));
    }
}

/// Runs the program on words and a file named `a`, with an input of two bytes.
fn run_on<R: Threads + Sync>(
    rt: &R,
    alloc: Global,
    words: &[&str],
    file: Vec<u8>,
    failing: Failing,
) -> Result<Left, Fail> {
    let mut owned = Vec::new(alloc);
    for word in words {
        owned.push(String::from_str(alloc, word)?)?;
    }
    let mut files = Vec::new(alloc);
    files.push((String::from_str(alloc, "a")?, file))?;
    let mut shelf = ListShelf::new(files, Vec::new(alloc));
    let mut input = BytesSource::new(Vec::from_slice(alloc, &[1, 2])?, failing.input);
    let mut out = BytesSink::new(alloc, ROOM, failing.output)
        .ok()
        .ok_or("no memory")?;
    let mut note = BytesSink::new(alloc, ROOM, failing.note)
        .ok()
        .ok_or("no memory")?;
    let status = hiersim(
        rt, alloc, &owned, &mut shelf, &mut input, &mut out, &mut note,
    );
    Ok(Left {
        status,
        input: Vec::from_slice(alloc, input.left())?,
        output: Vec::from_slice(alloc, out.bytes())?,
        note: Vec::from_slice(alloc, note.bytes())?,
    })
}

/// Runs the program on words and a program of these instructions named `a`, with failures.
fn run_words<R: Threads + Sync>(
    rt: &R,
    alloc: Global,
    words: &[&str],
    program: &[u32],
    failing: Failing,
) -> Result<Left, Fail> {
    if program.len() > 1000 {
        return Err("the program is too long".into());
    }
    let file = write_elf(alloc, program).ok().ok_or("no memory")?;
    run_on(rt, alloc, words, file, failing)
}

/// `run a` on a program, with failures.
fn run_program<R: Threads + Sync>(
    rt: &R,
    alloc: Global,
    program: &[u32],
    failing: Failing,
) -> Result<Left, Fail> {
    run_words(rt, alloc, &["run", "a"], program, failing)
}

/// The end of `run a` on a program, with no failure.
fn end_of<R: Threads + Sync>(rt: &R, alloc: Global, program: &[u32]) -> Result<End, Fail> {
    let left = run_program(rt, alloc, program, Failing::nowhere(alloc))?;
    Ok(left.status.end)
}
