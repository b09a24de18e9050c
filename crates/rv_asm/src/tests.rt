use super::*;
use rv_decode::{BranchOp, ImmOp, Instr, LoadOp, RegOp, ShiftOp, StoreOp};
use std::process::Abort;
use std::test::Fail;

// The words are an assembler's, for the text beside them.

fn assert_encodes(rt: &impl Abort, instr: Instr, word: u32) {
    assert!(rt; instr.fits());
    assert_eq!(rt; encode(&instr), word);
    assert_eq!(rt; decode_encoded(&instr), Some(instr));
}

#[test]
fn encodes_upper_immediates_and_jumps(rt: HostRuntime) {
    let (rd, imm) = (31, 0x1234_5000);
    assert_encodes(&rt, Instr::Lui { rd, imm }, 0x1234_5fb7); // lui x31, 0x12345
    assert_encodes(&rt, Instr::Auipc { rd, imm }, 0x1234_5f97); // auipc x31, 0x12345
    let rd = 1;
    for (off, word) in [(-1_048_576, 0x8000_00ef), (2048, 0x0010_00ef)] {
        assert_encodes(&rt, Instr::Jal { rd, off }, word); // jal x1, -1048576 and the like
    }
    let (rd, rs1, imm) = (2, 3, -2048);
    assert_encodes(&rt, Instr::Jalr { rd, rs1, imm }, 0x8001_8167); // jalr x2, -2048(x3)
}

// beq x8, x9, -4096 and the like
#[test]
fn encodes_branches(rt: HostRuntime) {
    let (rs1, rs2) = (8, 9);
    for (op, off, word) in [
        (BranchOp::Beq, -4096, 0x8094_0063),
        (BranchOp::Bne, -28, 0xfe94_12e3),
        (BranchOp::Bgeu, 4094, 0x7e94_7fe3),
    ] {
        assert_encodes(&rt, Instr::Branch { op, rs1, rs2, off }, word);
    }
}

// lhu x6, -1(x7), and sb x8, -31(x9) and the like
#[test]
fn encodes_loads_and_stores(rt: HostRuntime) {
    let (rd, rs1, imm) = (6, 7, -1);
    let op = LoadOp::Lhu;
    assert_encodes(&rt, Instr::Load { op, rd, rs1, imm }, 0xfff3_d303);
    let (rs1, rs2) = (9, 8);
    for (op, imm, word) in [
        (StoreOp::Sb, -31, 0xfe84_80a3),
        (StoreOp::Sh, -2048, 0x8084_9023),
        (StoreOp::Sw, 2047, 0x7e84_afa3),
    ] {
        assert_encodes(&rt, Instr::Store { op, rs1, rs2, imm }, word);
    }
}

#[test]
fn encodes_operations(rt: HostRuntime) {
    let (rd, rs1, imm) = (10, 11, 31);
    let op = ImmOp::Andi;
    assert_encodes(&rt, Instr::Imm { op, rd, rs1, imm }, 0x01f5_f513); // andi x10, x11, 31
    let (rd, rs1, by) = (12, 13, 31);
    let op = ShiftOp::Srai;
    assert_encodes(&rt, Instr::Shift { op, rd, rs1, by }, 0x41f6_d613); // srai x12, x13, 31
    let (rd, rs1, rs2) = (17, 18, 31);
    let op = RegOp::Remu;
    assert_encodes(&rt, Instr::Reg { op, rd, rs1, rs2 }, 0x03f9_78b3); // remu x17, x18, x31
}

#[test]
fn encodes_fences_and_calls(rt: HostRuntime) {
    for (instr, word) in [
        (Instr::Fence, 0x0ff0_000f), // fence iorw, iorw
        (Instr::FenceI, 0x0000_100f), // fence.i
        (Instr::Ecall, 0x0000_0073), // ecall
        (Instr::Ebreak, 0x0010_0073), // ebreak
    ] {
        assert_encodes(&rt, instr, word);
    }
}

// addi x10, x0, 3; addi x17, x0, 93; ecall
#[test]
fn writes_a_file_of_three_words(rt: HostRuntime) -> Result<(), Fail> {
    let file = write_elf(rt.alloc(), &[0x0030_0513, 0x05d0_0893, 0x0000_0073])?;
    let bytes = [
        0x7f, 0x45, 0x4c, 0x46, 1, 1, 1, 0, 0, 0, 0, 0, 0, 0, 0, 0, // e_ident
        2, 0, 0xf3, 0, 1, 0, 0, 0, // e_type, e_machine, e_version
        0, 0, 1, 0, 0x34, 0, 0, 0, 0, 0, 0, 0, 0, 0, 0, 0, // e_entry, e_phoff, e_shoff, e_flags
        0x34, 0, 0x20, 0, 1, 0, 0, 0, 0, 0, 0, 0, // the sizes and counts
        1, 0, 0, 0, 0x54, 0, 0, 0, 0, 0, 1, 0, 0, 0, 1, 0, // p_type, p_offset, p_vaddr, p_paddr
        12, 0, 0, 0, 12, 0, 0, 0, 5, 0, 0, 0, 4, 0, 0, 0, // p_filesz, p_memsz, p_flags, p_align
        0x13, 5, 0x30, 0, 0x93, 8, 0xd0, 5, 0x73, 0, 0, 0,
    ];
    assert_eq!(rt; file.as_slice(), bytes.as_slice());
    Ok(())
}

#[test]
fn makes_the_program_of_seven(rt: HostRuntime) -> Result<(), Fail> {
    let file = demo_program(rt.alloc(), 7)?;
    assert_eq!(rt; file.len(), 212);
    let sizes = [0x80, 0, 0, 0, 0x80, 0, 0, 0];
    assert_eq!(rt; &file[68..76], sizes.as_slice());
    let first = [
        0x37, 0x04, 0x10, 0x00, // lui x8, 0x100
        0xb7, 0x04, 0x14, 0x00, // lui x9, 0x140
        0xb7, 0x02, 0x00, 0x00, // lui x5, 0
        0x93, 0x82, 0x72, 0x00, // addi x5, x5, 7
    ];
    assert_eq!(rt; &file[84..100], first.as_slice());
    let last = [
        0x73, 0x00, 0x00, 0x00, // ecall
        0x13, 0x05, 0x00, 0x00, // addi x10, x0, 0
        0x93, 0x08, 0xd0, 0x05, // addi x17, x0, 93
        0x73, 0x00, 0x00, 0x00, // ecall
    ];
    assert_eq!(rt; &file[196..], last.as_slice());
    Ok(())
}

// lui x5, 0x12346; addi x5, x5, -1 and the like
#[test]
fn loads_numbers_by_two_instructions(rt: HostRuntime) -> Result<(), Fail> {
    for (number, words) in [
        (
            0x1234_5fff,
            [0xb7, 0x62, 0x34, 0x12, 0x93, 0x82, 0xf2, 0xff],
        ),
        (
            0x0000_0800,
            [0xb7, 0x12, 0x00, 0x00, 0x93, 0x82, 0x02, 0x80],
        ),
        (
            0xffff_ffff,
            [0xb7, 0x02, 0x00, 0x00, 0x93, 0x82, 0xf2, 0xff],
        ),
    ] {
        let file = demo_program(rt.alloc(), number)?;
        assert_eq!(rt; file.len(), 212);
        assert_eq!(rt; &file[92..100], words.as_slice(), "of {number}");
    }
    Ok(())
}
