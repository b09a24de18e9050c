// From an instruction to its word, and back.
#![tactic(auto, unfolding(crate::specs::Encoding::word_of))]

ghost use Rattle.std.specs.Prelude.{◌≡◌, Some};
ghost use Rattle.rv_decode.specs.Ranges.{Fits};
ghost use Rattle.rv_decode.specs.Table.{Encodes};
ghost use Rattle.rv_asm.specs.Encoding.{word_of};

use crate::formats::{b_word, i_word, j_word, r_word, s_word, u_word};
use crate::operations::{branch_row, imm_row, load_row, reg_row, shift_row, store_row};
use rv_decode::{Instr, decode};

/// The word of an instruction that fits (RISC-V unprivileged manual, "RV32/64G Instruction Set Listings").
/// FENCE is the one that orders all accesses, 0FF0000F, and FENCE.I is 0000100F; each other instruction has
/// no second word.
pub fn encode(instr: &Instr) -> u32
    requires { Fits instr.now }
    ensures value { result ≡ word_of instr.now }
    ensures row { Encodes result instr.now }
{
    match *instr {
        Instr::Lui { rd, imm } => u_word(0x37, rd, imm),
        Instr::Auipc { rd, imm } => u_word(0x17, rd, imm),
        Instr::Jal { rd, off } => j_word(0x6f, rd, off),
        Instr::Jalr { rd, rs1, imm } => i_word(0x67, rd, rs1, imm),
        Instr::Branch { op, rs1, rs2, off } => b_word(branch_row(op), rs1, rs2, off),
        Instr::Load { op, rd, rs1, imm } => i_word(load_row(op), rd, rs1, imm),
        Instr::Store { op, rs1, rs2, imm } => s_word(store_row(op), rs1, rs2, imm),
        Instr::Imm { op, rd, rs1, imm } => i_word(imm_row(op), rd, rs1, imm),
        Instr::Shift { op, rd, rs1, by } => r_word(shift_row(op), rd, rs1, by),
        Instr::Reg { op, rd, rs1, rs2 } => r_word(reg_row(op), rd, rs1, rs2),
        Instr::Fence => 0x0ff0_000f,
        Instr::FenceI => 0x0000_100f,
        Instr::Ecall => 0x0000_0073,
        Instr::Ebreak => 0x0010_0073,
    }
}

/// What the word of an instruction decodes to: that instruction.
pub fn decode_encoded(instr: &Instr) -> Option<Instr>
    requires { Fits instr.now }
    ensures { result ≡ Some instr.now }
{
    decode(encode(instr))
}
