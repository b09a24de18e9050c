// Programs that run, over the memory hierarchy and over flat memory.
use super::*;
use rv_core::Trap;

/// Reads at most 64 bytes, writes them, and exits with their number.
const COPY_A_LINE: [u32; 10] = [
    0x0002_05b7, // lui x11, 0x20
    0x0400_0613, // addi x12, x0, 64
    0x03f0_0893, // addi x17, x0, 63
    ECALL,
    0x0005_0613, // addi x12, x10, 0
    0x0010_0513, // addi x10, x0, 1
    0x0400_0893, // addi x17, x0, 64
    ECALL,
    0x05d0_0893, // addi x17, x0, 93
    ECALL,
];

/// What is told of the program that writes `abc` twice, where its second write fails.
const NOTE_OF_FAILED_WRITE: &str =
    "end output failed\nretired 13\nl1 18 3 0\nl2 3 0 0 0\npages 3 0\nmeta 1 1\nturns 1 0\ntidy 0\n\
settle done\nclasses 2 0 0 0\nexceptions 4\nencoded 504\nblocks 1024\nratio 800\n";

#[test]
fn input_reaches_the_output(rt: HostRuntime) -> Result<(), Fail> {
    let alloc = rt.alloc();
    let left = run_program(&rt, alloc, &COPY_A_LINE, Failing::nowhere(alloc))?;
    left.check(&rt, End::Exit { status: 2 }, &[1, 2], b"end exit 2\n");
    assert!(rt; left.input.is_empty());
    Ok(())
}

#[test]
fn streams_that_fail(rt: HostRuntime) -> Result<(), Fail> {
    let alloc = rt.alloc();
    let mut failing = Failing::nowhere(alloc);
    failing.input.push(0)?;
    let left = run_program(&rt, alloc, &COPY_A_LINE, failing)?;
    left.check(&rt, End::InFault, &[], b"end input failed\nretired 3\n");
    assert_eq!(rt; (left.status.code, left.input.len()), (210, 2));
    let mut failing = Failing::nowhere(alloc);
    failing.output.push((1, 2))?;
    let left = run_program(&rt, alloc, &WRITE_ABC_TWICE, failing)?;
    left.check(
        &rt,
        End::OutFault,
        b"abcab",
        NOTE_OF_FAILED_WRITE.as_bytes(),
    );
    assert_eq!(rt;
        (left.status.code, left.note.len()),
        (211, NOTE_OF_FAILED_WRITE.len())
    );
    Ok(())
}

#[test]
fn ends_by_the_program(rt: HostRuntime) -> Result<(), Fail> {
    let alloc = rt.alloc();
    let trap = Trap {
        cause: 0,
        pc: 0x1_0000,
        value: 0x1_0006,
    };
    let cases: [(&[u32], End); 2] = [
        (&[0x0060_006f], End::Trap(trap)),
        (&[0x05e0_0893, ECALL], End::Exit { status: 0 }),
    ];
    for (program, end) in cases {
        assert_eq!(rt; end_of(&rt, alloc, program)?, end);
    }
    Ok(())
}

/// Flat memory gives the same output, end and number of instructions.
#[test]
fn flat_memory_gives_the_same(rt: HostRuntime) -> Result<(), Fail> {
    let alloc = rt.alloc();
    let programs: [(&[u32], u32, &[u8]); 3] = [
        (&EXIT_THREE, 3, b"end exit 3\nretired 3\n"),
        (&COPY_A_LINE, 2, b"end exit 2\nretired 10\n"),
        (&WRITE_ABC_TWICE, 0, b"end exit 0\nretired 17\n"),
    ];
    for (program, status, note) in programs {
        let flat = run_words(&rt, alloc, &["flat", "a"], program, Failing::nowhere(alloc))?;
        let left = run_program(&rt, alloc, program, Failing::nowhere(alloc))?;
        left.check(&rt, End::Exit { status }, &flat.output, note);
        flat.check(&rt, End::Exit { status }, &left.output, note);
        assert_eq!(rt; flat.note.len(), note.len());
    }
    Ok(())
}

/// The budget is tested before each instruction.
#[test]
fn budgets_end_runs(rt: HostRuntime) -> Result<(), Fail> {
    let alloc = rt.alloc();
    for (budget, end, note) in [
        ("0", End::Budget, b"end budget\nretired 0\n"),
        ("2", End::Budget, b"end budget\nretired 2\n"),
        ("3", End::Exit { status: 3 }, b"end exit 3\nretired 3\n"),
    ] {
        let words = ["run", "a", "--budget", budget];
        let left = run_words(&rt, alloc, &words, &EXIT_THREE, Failing::nowhere(alloc))?;
        left.check(&rt, end, &[], note);
    }
    Ok(())
}
