// The operation that a word chooses among those of its opcode, by funct3 and funct7.
#![tactic(auto, unfolding(crate::specs::Table::decoded))]

ghost use Rattle.std.specs.Prelude.{◌≡◌, ◌≢◌, ◌%◌};
ghost use Rattle.std.specs.Option.{option_map};
ghost use Rattle.rv_decode.specs.Word.{opcode_of, rd_of, funct3_of, rs1_of, rs2_of, imm_i_of, imm_s_of, imm_b_of};
ghost use Rattle.rv_decode.specs.Table.{decoded};
ghost use Rattle.rv_decode.specs.declared.instruction.Instr.{Instr};

use crate::fields::{funct3, funct7};
use crate::instruction::{BranchOp, ImmOp, LoadOp, RegOp, ShiftOp, StoreOp};
use crate::opcodes::{BRANCH, LOAD, OP, OP_IMM, STORE};

pub fn branch_op(word: u32) -> Option<BranchOp>
    requires { opcode_of word ≡ BRANCH }
    ensures { decoded word ≡ option_map (λ op. Instr.Branch op (rs1_of word) (rs2_of word) (imm_b_of word)) result }
{
    match funct3(word) {
        0 => Some(BranchOp::Beq),
        1 => Some(BranchOp::Bne),
        4 => Some(BranchOp::Blt),
        5 => Some(BranchOp::Bge),
        6 => Some(BranchOp::Bltu),
        7 => Some(BranchOp::Bgeu),
        _ => None,
    }
}

pub fn load_op(word: u32) -> Option<LoadOp>
    requires { opcode_of word ≡ LOAD }
    ensures { decoded word ≡ option_map (λ op. Instr.Load op (rd_of word) (rs1_of word) (imm_i_of word)) result }
{
    match funct3(word) {
        0 => Some(LoadOp::Lb),
        1 => Some(LoadOp::Lh),
        2 => Some(LoadOp::Lw),
        4 => Some(LoadOp::Lbu),
        5 => Some(LoadOp::Lhu),
        _ => None,
    }
}

pub fn store_op(word: u32) -> Option<StoreOp>
    requires { opcode_of word ≡ STORE }
    ensures { decoded word ≡ option_map (λ op. Instr.Store op (rs1_of word) (rs2_of word) (imm_s_of word)) result }
{
    match funct3(word) {
        0 => Some(StoreOp::Sb),
        1 => Some(StoreOp::Sh),
        2 => Some(StoreOp::Sw),
        _ => None,
    }
}

// A funct3 of 1 or 5 is that of a shift, and each other one that of an operation with an immediate.
pub fn imm_op(word: u32) -> ImmOp
    requires of_opcode { opcode_of word ≡ OP_IMM }
    requires no_shift { funct3_of word % 4 ≢ 1 }
    ensures { decoded word ≡ Some (Instr.Imm result (rd_of word) (rs1_of word) (imm_i_of word)) }
{
    match funct3(word) {
        0 => ImmOp::Addi,
        2 => ImmOp::Slti,
        3 => ImmOp::Sltiu,
        4 => ImmOp::Xori,
        6 => ImmOp::Ori,
        7 => ImmOp::Andi,
        _ => unreachable!(),
    }
}

pub fn shift_op(word: u32) -> Option<ShiftOp>
    requires of_opcode { opcode_of word ≡ OP_IMM }
    requires shift { funct3_of word % 4 ≡ 1 }
    ensures { decoded word ≡ option_map (λ op. Instr.Shift op (rd_of word) (rs1_of word) (rs2_of word)) result }
{
    match (funct7(word), funct3(word)) {
        (0x00, 1) => Some(ShiftOp::Slli),
        (0x00, 5) => Some(ShiftOp::Srli),
        (0x20, 5) => Some(ShiftOp::Srai),
        _ => None,
    }
}

pub fn reg_op(word: u32) -> Option<RegOp>
    requires { opcode_of word ≡ OP }
    ensures { decoded word ≡ option_map (λ op. Instr.Reg op (rd_of word) (rs1_of word) (rs2_of word)) result }
{
    match (funct7(word), funct3(word)) {
        (0x00, 0) => Some(RegOp::Add),
        (0x20, 0) => Some(RegOp::Sub),
        (0x00, 1) => Some(RegOp::Sll),
        (0x00, 2) => Some(RegOp::Slt),
        (0x00, 3) => Some(RegOp::Sltu),
        (0x00, 4) => Some(RegOp::Xor),
        (0x00, 5) => Some(RegOp::Srl),
        (0x20, 5) => Some(RegOp::Sra),
        (0x00, 6) => Some(RegOp::Or),
        (0x00, 7) => Some(RegOp::And),
        (0x01, 0) => Some(RegOp::Mul),
        (0x01, 1) => Some(RegOp::Mulh),
        (0x01, 2) => Some(RegOp::Mulhsu),
        (0x01, 3) => Some(RegOp::Mulhu),
        (0x01, 4) => Some(RegOp::Div),
        (0x01, 5) => Some(RegOp::Divu),
        (0x01, 6) => Some(RegOp::Rem),
        (0x01, 7) => Some(RegOp::Remu),
        _ => None,
    }
}
