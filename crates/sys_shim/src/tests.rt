use super::*;
use hier_types::{BytesSink, BytesSource, Geometry};
use rv_core::Regs;
use rv_flat::FlatMemory;
use std::alloc::Global;
use std::test::Fail;

/// One page at 00010000.
const SPAN: Geometry = Geometry { base: 16, pages: 1 };

const BREAK: Brk = Brk {
    low: 0x1_0100,
    top: 0x1_0200,
    high: 0x1_0fc0,
};

/// What a call did, its result, and what it left of the break, the input and the output; and the byte at 0001003C,
/// as a second call writes it.
#[derive(Drop)]
struct Made {
    called: Called,
    result: u32,
    pc: u32,
    top: u32,
    left: usize,
    output: usize,
    byte: Option<u8>,
}

/// Makes a call with its number and arguments over a page of zeros. The input has the bytes 1, 2 and 3, and the first
/// calls of both streams fail where that is asked for.
fn make(alloc: Global, number: u32, arguments: [u32; 3], fails: bool) -> Result<Made, Fail> {
    let mut x = [0; 32];
    x[17] = number;
    [x[10], x[11], x[12]] = arguments;
    let mut regs = Regs { pc: 0x1_0000, x };
    let mut memory = FlatMemory::new(alloc, SPAN).ok().ok_or("no memory")?;
    let mut input_fails = Vec::new(alloc);
    let mut out_fails = Vec::new(alloc);
    if fails {
        input_fails.push(0)?;
        out_fails.push((0, 1))?;
    }
    let mut input = BytesSource::new(Vec::from_slice(alloc, &[1, 2, 3])?, input_fails);
    let mut out = BytesSink::new(alloc, 5000, out_fails)
        .ok()
        .ok_or("no memory")?;
    let mut brk = BREAK;
    let called = call(&mut regs, &mut memory, &mut input, &mut out, &mut brk);
    let (result, pc, output) = (regs.x[10], regs.pc, out.bytes().len());
    regs.x[17] = 64;
    [regs.x[10], regs.x[11], regs.x[12]] = [1, 0x1_003c, 1];
    call(&mut regs, &mut memory, &mut input, &mut out, &mut brk);
    Ok(Made {
        called,
        result,
        pc,
        top: brk.top,
        left: input.left().len(),
        output,
        byte: out.bytes().last().copied(),
    })
}

#[test]
fn calls_are_answered(rt: HostRuntime) -> Result<(), Fail> {
    const EBADF: u32 = 0xffff_fff7;
    const EFAULT: u32 = 0xffff_fff2;
    // Number and arguments, then the result, the break, and how much is left of the input and stands on the output.
    for (number, arguments, result, top, left, output) in [
        (57, [2, 0, 0], 0, 0x1_0200, 3, 0),
        (57, [3, 0, 0], EBADF, 0x1_0200, 3, 0),
        (63, [0, 0x1_003c, 100], 3, 0x1_0200, 0, 0),
        (63, [0, 0x1_003f, 100], 1, 0x1_0200, 2, 0),
        (63, [0, 0, 0], 0, 0x1_0200, 3, 0),
        (63, [0, 0x1_1000, 1], EFAULT, 0x1_0200, 3, 0),
        (63, [5, 0x1_003c, 1], EBADF, 0x1_0200, 3, 0),
        (64, [1, 0x1_003c, 100], 100, 0x1_0200, 3, 100),
        (64, [2, 0x1_0000, 5000], 4096, 0x1_0200, 3, 4096),
        (64, [1, 0x1_0001, 5000], EFAULT, 0x1_0200, 3, 0),
        (64, [1, 0, 1], EFAULT, 0x1_0200, 3, 0),
        (64, [1, 0, 0], 0, 0x1_0200, 3, 0),
        (64, [0, 0x1_0000, 1], EBADF, 0x1_0200, 3, 0),
        (214, [0, 0, 0], 0x1_0200, 0x1_0200, 3, 0),
        (214, [0x1_0100, 0, 0], 0x1_0100, 0x1_0100, 3, 0),
        (214, [0x1_0fc0, 0, 0], 0x1_0fc0, 0x1_0fc0, 3, 0),
        (214, [0x1_0fc1, 0, 0], 0x1_0200, 0x1_0200, 3, 0),
        (80, [0, 0, 0], 0xffff_ffda, 0x1_0200, 3, 0),
    ] {
        let made = make(rt.alloc(), number, arguments, false)?;
        assert_eq!(rt; made.called, Called::Done, "call {number}");
        assert_eq!(rt; made.result, result, "call {number}");
        assert_eq!(rt; made.pc, 0x1_0004);
        assert_eq!(rt;
            (made.top, made.left, made.output),
            (top, left, output),
            "call {number}"
        );
    }
    Ok(())
}

#[test]
fn what_is_read_stands_in_memory(rt: HostRuntime) -> Result<(), Fail> {
    assert_eq!(rt;
        make(rt.alloc(), 63, [0, 0x1_003c, 100], false)?.byte,
        Some(1)
    );
    assert_eq!(rt;
        make(rt.alloc(), 63, [0, 0x1_003b, 2], false)?.byte,
        Some(2)
    );
    Ok(())
}

#[test]
fn runs_end_and_streams_fail(rt: HostRuntime) -> Result<(), Fail> {
    for (number, arguments, called, output) in [
        (93, [7, 0, 0], Called::Exit(7), 0),
        (94, [0xffff_ffff, 0, 0], Called::Exit(0xffff_ffff), 0),
        (63, [0, 0x1_003c, 100], Called::InFault, 0),
        (64, [1, 0x1_003c, 100], Called::OutFault, 1),
    ] {
        let made = make(rt.alloc(), number, arguments, true)?;
        assert_eq!(rt; made.called, called);
        assert_eq!(rt; (made.result, made.pc), (arguments[0], 0x1_0000));
        assert_eq!(rt; (made.left, made.output, made.byte), (3, output, Some(0)));
    }
    Ok(())
}
