// The demonstration: a program of 32 instructions, made from a number.

ghost use Rattle.std.specs.Prelude.{◌≡◌, ◌<◌, ◌+◌, ◌*◌, ◌%◌, ◌^◌, ◌++◌, map, All, IfOk, OnOk};
ghost use Rattle.std.specs.Int.{w32, cast_unsigned};
ghost use Rattle.rv_decode.specs.Ranges.{Fits};
ghost use Rattle.rv_decode.specs.declared.instruction.Instr.{Instr};
ghost use Rattle.rv_asm.specs.Demo.{demo_instructions, end, fill, hi, lo, lui, middle, start, sum};
ghost use Rattle.rv_asm.specs.ElfFile.{elf_file};
ghost use Rattle.rv_asm.specs.Encoding.{word_of};

use crate::elf::write_elf;
use crate::words::encode;
use hier_types::NoMemory;
use rv_decode::{BranchOp, ImmOp, Instr, LoadOp, RegOp, ShiftOp, StoreOp};
use std::alloc::Global;

const X0: u8 = 0;

const X5: u8 = 5;

const X6: u8 = 6;

const X7: u8 = 7;

const X8: u8 = 8;

const X9: u8 = 9;

const X10: u8 = 10;

const X11: u8 = 11;

const X12: u8 = 12;

const X17: u8 = 17;

const X28: u8 = 28;

const X29: u8 = 29;

const X30: u8 = 30;

/// The file of a program that fills the 256 KiB at the address 00100000 with words made from the number, folds them
/// to one word, and writes its four bytes to output 1. It retires 851,987 instructions and exits with status 0.
/// A word is the state of the generator `state = 1664525 * state + 1013904223`, shifted right by the low five bits
/// of its page's number; the fold goes `fold = 1664525 * fold + word`. `NoMemory` comes where the allocator has none.
#[tactic(auto, unfolding(crate::specs::Demo::demo_instructions))]
pub fn demo_program(alloc: Global, number: u32) -> Result<Vec<u8>, NoMemory>
    ensures { IfOk result (λ file. file.items ≡ elf_file (map word_of (demo_instructions number))) }
{
    let mut words = Vec::with_capacity(alloc, 32)?;
    put_encoded(&mut words, &start(number))?;
    put_encoded(&mut words, &fill())?;
    put_encoded(&mut words, &middle())?;
    put_encoded(&mut words, &sum())?;
    put_encoded(&mut words, &end())?;
    write_elf(alloc, &words)
}

fn put_encoded(words: &mut Vec<u32>, instructions: &[Instr]) -> Result<(), NoMemory>
    requires { All Fits instructions.now }
    ensures { OnOk result (words.new.items ≡ words.old.items ++ map word_of instructions.now) }
{
    for instr in instructions {
        words.push(encode(instr))?;
    }
    Ok(())
}

// The memory's first byte and the one behind it, the number, and the factor and the summand of the generator.
#[tactic(auto, unfolding(crate::specs::Demo::start))]
fn start(number: u32) -> [Instr; 8]
    ensures listing { result ≡ start number }
    ensures fits { All Fits result }
{
    [
        lui(X8, 0x00100),
        lui(X9, 0x00140),
        lui(X5, hi(number)),
        imm(ImmOp::Addi, X5, X5, lo(number)),
        lui(X6, 0x00196),
        imm(ImmOp::Addi, X6, X6, 1549),
        lui(X7, 0x3c6ef),
        imm(ImmOp::Addi, X7, X7, 863),
    ]
}

// Each word gets the next state, shifted.
#[tactic(auto, unfolding(crate::specs::Demo::fill))]
fn fill() -> [Instr; 8]
    ensures listing { result ≡ fill }
    ensures fits { All Fits result }
{
    [
        reg(RegOp::Mul, X5, X5, X6),
        reg(RegOp::Add, X5, X5, X7),
        shift(ShiftOp::Srli, X28, X8, 12),
        imm(ImmOp::Andi, X28, X28, 31),
        reg(RegOp::Srl, X29, X5, X28),
        store(StoreOp::Sw, X8, X29, 0),
        imm(ImmOp::Addi, X8, X8, 4),
        branch(BranchOp::Bne, X8, X9, -28),
    ]
}

// Back to the first word, and the fold is 0.
#[tactic(auto, unfolding(crate::specs::Demo::middle))]
fn middle() -> [Instr; 2]
    ensures listing { result ≡ middle }
    ensures fits { All Fits result }
{
    [lui(X8, 0x00100), imm(ImmOp::Addi, X30, X0, 0)]
}

// Each word goes into the fold.
#[tactic(auto, unfolding(crate::specs::Demo::sum))]
fn sum() -> [Instr; 5]
    ensures listing { result ≡ sum }
    ensures fits { All Fits result }
{
    [
        load(LoadOp::Lw, X28, X8, 0),
        reg(RegOp::Mul, X30, X30, X6),
        reg(RegOp::Add, X30, X30, X28),
        imm(ImmOp::Addi, X8, X8, 4),
        branch(BranchOp::Bne, X8, X9, -16),
    ]
}

// The fold goes behind the words and from there to output 1, by call 64; the exit is call 93.
#[tactic(auto, unfolding(crate::specs::Demo::end))]
fn end() -> [Instr; 9]
    ensures listing { result ≡ end }
    ensures fits { All Fits result }
{
    [
        store(StoreOp::Sw, X9, X30, 0),
        imm(ImmOp::Addi, X10, X0, 1),
        imm(ImmOp::Addi, X11, X9, 0),
        imm(ImmOp::Addi, X12, X0, 4),
        imm(ImmOp::Addi, X17, X0, 64),
        Instr::Ecall,
        imm(ImmOp::Addi, X10, X0, 0),
        imm(ImmOp::Addi, X17, X0, 93),
        Instr::Ecall,
    ]
}

// The upper 20 bits for LUI, of which an ADDI makes the number: it adds at most 2,047 or takes away at most 2,048.
fn hi(number: u32) -> u32
    ensures { result ≡ hi number }
{
    number.wrapping_add(2048) >> 12
}

// What the ADDI adds.
fn lo(number: u32) -> i16
    ensures value { result ≡ lo number }
    ensures completes { (hi number * 2 ^ 12 + cast_unsigned w32 result) % 2 ^ 32 ≡ number }
{
    number.wrapping_sub(hi(number) << 12).cast_signed() as i16
}

fn lui(rd: u8, upper: u32) -> Instr
    requires { upper < 2 ^ 20 }
    ensures { result ≡ lui rd upper }
{
    Instr::Lui {
        rd,
        imm: upper << 12,
    }
}

fn imm(op: ImmOp, rd: u8, rs1: u8, imm: i16) -> Instr
    ensures { result ≡ Instr.Imm op rd rs1 imm }
{
    Instr::Imm { op, rd, rs1, imm }
}

fn shift(op: ShiftOp, rd: u8, rs1: u8, by: u8) -> Instr
    ensures { result ≡ Instr.Shift op rd rs1 by }
{
    Instr::Shift { op, rd, rs1, by }
}

fn reg(op: RegOp, rd: u8, rs1: u8, rs2: u8) -> Instr
    ensures { result ≡ Instr.Reg op rd rs1 rs2 }
{
    Instr::Reg { op, rd, rs1, rs2 }
}

fn load(op: LoadOp, rd: u8, rs1: u8, imm: i16) -> Instr
    ensures { result ≡ Instr.Load op rd rs1 imm }
{
    Instr::Load { op, rd, rs1, imm }
}

fn store(op: StoreOp, rs1: u8, rs2: u8, imm: i16) -> Instr
    ensures { result ≡ Instr.Store op rs1 rs2 imm }
{
    Instr::Store { op, rs1, rs2, imm }
}

fn branch(op: BranchOp, rs1: u8, rs2: u8, off: i16) -> Instr
    ensures { result ≡ Instr.Branch op rs1 rs2 off }
{
    Instr::Branch { op, rs1, rs2, off }
}
