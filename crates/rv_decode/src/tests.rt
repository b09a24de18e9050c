use super::*;

// The words are an assembler's, for the text beside them.

#[test]
fn decodes_upper_immediates_jumps_and_fences(rt: HostRuntime) {
    for (word, instr) in [
        (
            0xffff_f2b7,
            Instr::Lui {
                rd: 5,
                imm: 0xffff_f000,
            },
        ), // lui x5, 0xfffff
        (
            0x1234_5f97,
            Instr::Auipc {
                rd: 31,
                imm: 0x1234_5000,
            },
        ), // auipc x31, 0x12345
        (
            0x8000_00ef,
            Instr::Jal {
                rd: 1,
                off: -1_048_576,
            },
        ), // jal x1, -1048576
        (
            0x8001_8167,
            Instr::Jalr {
                rd: 2,
                rs1: 3,
                imm: -2048,
            },
        ), // jalr x2, -2048(x3)
        (0x0ff0_000f, Instr::Fence), // fence
        (0x0000_0073, Instr::Ecall), // ecall
        (0x0010_0073, Instr::Ebreak), // ebreak
        (0x0000_100f, Instr::FenceI), // fence.i
    ] {
        assert_eq!(rt; decode(word), Some(instr));
    }
}

// beq x4, x5, -4096 and the like
#[test]
fn decodes_branches(rt: HostRuntime) {
    for (word, op, off) in [
        (0x8052_0063, BranchOp::Beq, -4096),
        (0x7e52_1fe3, BranchOp::Bne, 4094),
        (0x0052_40e3, BranchOp::Blt, 2048),
        (0xfe52_5fe3, BranchOp::Bge, -2),
        (0x0052_6f63, BranchOp::Bltu, 30),
        (0x4052_7063, BranchOp::Bgeu, 1024),
    ] {
        let instr = Instr::Branch {
            op,
            rs1: 4,
            rs2: 5,
            off,
        };
        assert_eq!(rt; decode(word), Some(instr));
    }
}

// lb x6, 2047(x7) and the like
#[test]
fn decodes_loads(rt: HostRuntime) {
    for (word, op, imm) in [
        (0x7ff3_8303, LoadOp::Lb, 2047),
        (0xfff3_9303, LoadOp::Lh, -1),
        (0x0043_a303, LoadOp::Lw, 4),
        (0x8003_c303, LoadOp::Lbu, -2048),
        (0x3e83_d303, LoadOp::Lhu, 1000),
    ] {
        let instr = Instr::Load {
            op,
            rd: 6,
            rs1: 7,
            imm,
        };
        assert_eq!(rt; decode(word), Some(instr));
    }
}

// sb x8, 2047(x9) and the like
#[test]
fn decodes_stores(rt: HostRuntime) {
    for (word, op, imm) in [
        (0x7e84_8fa3, StoreOp::Sb, 2047),
        (0x8084_9023, StoreOp::Sh, -2048),
        (0xfe84_a0a3, StoreOp::Sw, -31),
    ] {
        let instr = Instr::Store {
            op,
            rs1: 9,
            rs2: 8,
            imm,
        };
        assert_eq!(rt; decode(word), Some(instr));
    }
}

// addi x10, x11, -1 and the like
#[test]
fn decodes_operations_with_an_immediate(rt: HostRuntime) {
    for (word, op, imm) in [
        (0xfff5_8513, ImmOp::Addi, -1),
        (0x0055_a513, ImmOp::Slti, 5),
        (0xff95_b513, ImmOp::Sltiu, -7),
        (0x7ff5_c513, ImmOp::Xori, 2047),
        (0x8005_e513, ImmOp::Ori, -2048),
        (0x0ff5_f513, ImmOp::Andi, 255),
    ] {
        let instr = Instr::Imm {
            op,
            rd: 10,
            rs1: 11,
            imm,
        };
        assert_eq!(rt; decode(word), Some(instr));
    }
}

// slli x12, x13, 31 and the like
#[test]
fn decodes_shifts_by_a_constant(rt: HostRuntime) {
    for (word, op, by) in [
        (0x01f6_9613, ShiftOp::Slli, 31),
        (0x0016_d613, ShiftOp::Srli, 1),
        (0x4106_d613, ShiftOp::Srai, 16),
    ] {
        let instr = Instr::Shift {
            op,
            rd: 12,
            rs1: 13,
            by,
        };
        assert_eq!(rt; decode(word), Some(instr));
    }
}

// add x14, x15, x16 and the like
#[test]
fn decodes_operations_of_registers(rt: HostRuntime) {
    for (word, op) in [
        (0x0107_8733, RegOp::Add),
        (0x4107_8733, RegOp::Sub),
        (0x0107_9733, RegOp::Sll),
        (0x0107_a733, RegOp::Slt),
        (0x0107_b733, RegOp::Sltu),
        (0x0107_c733, RegOp::Xor),
        (0x0107_d733, RegOp::Srl),
        (0x4107_d733, RegOp::Sra),
        (0x0107_e733, RegOp::Or),
        (0x0107_f733, RegOp::And),
    ] {
        let instr = Instr::Reg {
            op,
            rd: 14,
            rs1: 15,
            rs2: 16,
        };
        assert_eq!(rt; decode(word), Some(instr));
    }
}

// mul x17, x18, x31 and the like
#[test]
fn decodes_multiplication_and_division(rt: HostRuntime) {
    for (word, op) in [
        (0x03f9_08b3, RegOp::Mul),
        (0x03f9_18b3, RegOp::Mulh),
        (0x03f9_28b3, RegOp::Mulhsu),
        (0x03f9_38b3, RegOp::Mulhu),
        (0x03f9_48b3, RegOp::Div),
        (0x03f9_58b3, RegOp::Divu),
        (0x03f9_68b3, RegOp::Rem),
        (0x03f9_78b3, RegOp::Remu),
    ] {
        let instr = Instr::Reg {
            op,
            rd: 17,
            rs1: 18,
            rs2: 31,
        };
        assert_eq!(rt; decode(word), Some(instr));
    }
}

#[test]
fn decodes_words_at_the_edges_of_rows(rt: HostRuntime) {
    for (word, instr) in [
        (
            0xfff0_0293,
            Some(Instr::Imm {
                op: ImmOp::Addi,
                rd: 5,
                rs1: 0,
                imm: -1,
            }),
        ),
        (
            0x4055_5293,
            Some(Instr::Shift {
                op: ShiftOp::Srai,
                rd: 5,
                rs1: 10,
                by: 5,
            }),
        ),
        (
            0xfe00_0ee3,
            Some(Instr::Branch {
                op: BranchOp::Beq,
                rs1: 0,
                rs2: 0,
                off: -4,
            }),
        ),
        (0x8330_000f, Some(Instr::Fence)), // FENCE.TSO
        (0x0255_5293, None), // a shift by 37
        (0x0020_0073, None), // URET
        (0x0000_00f3, None), // ECALL with a register to write
        (0x0000_200f, None), // a fence of funct3 2
        (0x0403_02b3, None), // an operation of funct7 2
        (0x0000_0000, None),
        (0xffff_ffff, None),
    ] {
        assert_eq!(rt; decode(word), instr);
    }
}

#[test]
fn fits_where_a_word_has_room(rt: HostRuntime) {
    for (instr, fits) in [
        (
            Instr::Lui {
                rd: 31,
                imm: 0xffff_f000,
            },
            true,
        ),
        (Instr::Lui { rd: 0, imm: 0x800 }, false),
        (
            Instr::Jal {
                rd: 0,
                off: 1_048_574,
            },
            true,
        ),
        (
            Instr::Jal {
                rd: 0,
                off: 1_048_576,
            },
            false,
        ),
        (Instr::Jal { rd: 0, off: -3 }, false),
        (
            Instr::Jalr {
                rd: 0,
                rs1: 32,
                imm: 0,
            },
            false,
        ),
        (
            Instr::Jalr {
                rd: 0,
                rs1: 1,
                imm: -2048,
            },
            true,
        ),
        (
            Instr::Jalr {
                rd: 0,
                rs1: 1,
                imm: 2048,
            },
            false,
        ),
        (
            Instr::Shift {
                op: ShiftOp::Slli,
                rd: 0,
                rs1: 1,
                by: 32,
            },
            false,
        ),
        (Instr::Ebreak, true),
    ] {
        assert_eq!(rt; instr.fits(), fits);
    }
}
