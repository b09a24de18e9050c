// A program of every instruction.
use super::*;
use rv_asm::encode;
use rv_decode::{BranchOp, ImmOp, Instr, LoadOp, RegOp, ShiftOp, StoreOp};

/// Appends the words of instructions, each of which has to fit.
fn put(words: &mut Vec<u32>, instructions: &[Instr]) -> Result<(), Fail> {
    for instr in instructions {
        if !instr.fits() {
            return Err("an instruction does not fit".into());
        }
        words.push(encode(instr))?;
    }
    Ok(())
}

fn addi(rd: u8, rs1: u8, imm: i16) -> Instr {
    Instr::Imm {
        op: ImmOp::Addi,
        rd,
        rs1,
        imm,
    }
}

/// The sum that the program of every instruction comes to.
const SUM: u32 = 0x2f8f_9349;

/// Adds x7 to the sum in x31.
const ADD_TO_SUM: Instr = Instr::Reg {
    op: RegOp::Add,
    rd: 31,
    rs1: 31,
    rs2: 7,
};

/// Every operation on registers and immediates, with x5 and x6 as operands; each result is added to the sum.
fn put_operations(words: &mut Vec<u32>) -> Result<(), Fail> {
    for op in [
        RegOp::Add,
        RegOp::Sub,
        RegOp::Sll,
        RegOp::Slt,
        RegOp::Sltu,
        RegOp::Xor,
        RegOp::Srl,
        RegOp::Sra,
        RegOp::Or,
        RegOp::And,
        RegOp::Mul,
        RegOp::Mulh,
        RegOp::Mulhsu,
        RegOp::Mulhu,
        RegOp::Div,
        RegOp::Divu,
        RegOp::Rem,
        RegOp::Remu,
    ] {
        let (rd, rs1, rs2) = (7, 5, 6);
        put(words, &[Instr::Reg { op, rd, rs1, rs2 }, ADD_TO_SUM])?;
    }
    for op in [
        ImmOp::Addi,
        ImmOp::Slti,
        ImmOp::Sltiu,
        ImmOp::Xori,
        ImmOp::Ori,
        ImmOp::Andi,
    ] {
        let (rd, rs1, imm) = (7, 5, -5);
        put(words, &[Instr::Imm { op, rd, rs1, imm }, ADD_TO_SUM])?;
    }
    for op in [ShiftOp::Slli, ShiftOp::Srli, ShiftOp::Srai] {
        let (rd, rs1, by) = (7, 6, 7);
        put(words, &[Instr::Shift { op, rd, rs1, by }, ADD_TO_SUM])?;
    }
    Ok(())
}

/// Stores of each width to the words at x8, and loads of each kind from there, which are added to the sum.
fn put_memory(words: &mut Vec<u32>) -> Result<(), Fail> {
    for (op, imm) in [(StoreOp::Sw, 0), (StoreOp::Sh, 4), (StoreOp::Sb, 7)] {
        let (rs1, rs2) = (8, 6);
        put(words, &[Instr::Store { op, rs1, rs2, imm }])?;
    }
    for (op, imm) in [
        (LoadOp::Lw, 4),
        (LoadOp::Lh, 4),
        (LoadOp::Lhu, 4),
        (LoadOp::Lb, 7),
        (LoadOp::Lbu, 7),
    ] {
        let (rd, rs1) = (7, 8);
        put(words, &[Instr::Load { op, rd, rs1, imm }, ADD_TO_SUM])?;
    }
    Ok(())
}

/// Each branch, taken, and each jump, over an EBREAK; the links are added to the sum.
fn put_jumps(words: &mut Vec<u32>) -> Result<(), Fail> {
    let off = 8;
    for (op, rs1, rs2) in [
        (BranchOp::Beq, 5, 5),
        (BranchOp::Bne, 5, 6),
        (BranchOp::Blt, 6, 5),
        (BranchOp::Bge, 5, 6),
        (BranchOp::Bltu, 5, 6),
        (BranchOp::Bgeu, 6, 5),
    ] {
        put(words, &[Instr::Branch { op, rs1, rs2, off }, Instr::Ebreak])?;
    }
    let jal = Instr::Jal { rd: 7, off: 8 };
    put(words, &[jal, Instr::Ebreak, ADD_TO_SUM])?;
    let auipc = Instr::Auipc { rd: 9, imm: 0 };
    let jalr = Instr::Jalr {
        rd: 7,
        rs1: 9,
        imm: 13,
    };
    put(words, &[auipc, jalr, Instr::Ebreak, ADD_TO_SUM])
}

// Its status is the sum, which was worked out apart from this code by the manual's tables.
#[test]
fn every_instruction(rt: HostRuntime) -> Result<(), Fail> {
    let alloc = rt.alloc();
    let mut words = Vec::new(alloc);
    let first = Instr::Lui {
        rd: 5,
        imm: 0x1234_5000,
    };
    let table = Instr::Lui {
        rd: 8,
        imm: 0x0002_0000,
    };
    put(
        &mut words,
        &[first, addi(5, 5, 0x678), addi(6, 0, -3), table],
    )?;
    put_operations(&mut words)?;
    put_memory(&mut words)?;
    put_jumps(&mut words)?;
    put(&mut words, &[Instr::Fence, Instr::FenceI, addi(10, 31, 0)])?;
    put(&mut words, &[addi(17, 0, 93), Instr::Ecall])?;
    assert_eq!(rt; end_of(&rt, alloc, &words)?, End::Exit { status: SUM });
    Ok(())
}
