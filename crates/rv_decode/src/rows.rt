// The rows of the listing: from the fields that choose the operation to the instruction.
#![tactic(auto, unfolding(crate::specs::Table::decoded))]

ghost use Rattle.std.specs.Prelude.{◌≡◌, ◌≢◌, Some, IfSome, MatchOption};
ghost use Rattle.rv_decode.specs.Word.{opcode_of};
ghost use Rattle.rv_decode.specs.Ranges.{Fits};
ghost use Rattle.rv_decode.specs.Table.{Encodes, decoded};
ghost use Rattle.rv_decode.specs.declared.instruction.Instr.{Instr};

use crate::fields::{funct3, imm_b, imm_i, imm_j, imm_s, imm_u, opcode, rd, rs1, rs2};
use crate::instruction::Instr;
use crate::opcodes::{AUIPC, BRANCH, JAL, JALR, LOAD, LUI, MISC_MEM, OP, OP_IMM, STORE};
use crate::operations::{branch_op, imm_op, load_op, reg_op, shift_op, store_op};

/// The instruction that the word encodes, or `None` where no row of the listing has the word (RISC-V
/// unprivileged manual, "RV32/64G Instruction Set Listings", RV32I, Zifencei and RV32M).
/// Of FENCE and FENCE.I the bits beside opcode and funct3 are ignored. It costs a few tests of fields.
pub fn decode(word: u32) -> Option<Instr>
    ensures value { result ≡ decoded word }
    ensures row { MatchOption result ((instr : Instr) → ¬ Encodes word instr) (λ instr. Encodes word instr) }
    ensures only { (instr : Instr) → Encodes word instr → result ≡ Some instr }
    ensures fits { IfSome result Fits }
{
    match word {
        0x0000_0073 => Some(Instr::Ecall),
        0x0010_0073 => Some(Instr::Ebreak),
        _ => by_fields(word),
    }
}

// The instruction of a word that is no ECALL or EBREAK.
fn by_fields(word: u32) -> Option<Instr>
    requires no_ecall { word ≢ 0x0000_0073 }
    requires no_ebreak { word ≢ 0x0010_0073 }
    ensures { result ≡ decoded word }
{
    match opcode(word) {
        LUI => Some(Instr::Lui {
            rd: rd(word),
            imm: imm_u(word),
        }),
        AUIPC => Some(Instr::Auipc {
            rd: rd(word),
            imm: imm_u(word),
        }),
        JAL => Some(Instr::Jal {
            rd: rd(word),
            off: imm_j(word),
        }),
        JALR if funct3(word) == 0 => Some(Instr::Jalr {
            rd: rd(word),
            rs1: rs1(word),
            imm: imm_i(word),
        }),
        BRANCH => branch(word),
        LOAD => load(word),
        STORE => store(word),
        OP_IMM => with_immediate(word),
        OP => with_registers(word),
        MISC_MEM if funct3(word) == 0 => Some(Instr::Fence),
        MISC_MEM if funct3(word) == 1 => Some(Instr::FenceI),
        _ => None,
    }
}

fn branch(word: u32) -> Option<Instr>
    requires { opcode_of word ≡ BRANCH }
    ensures { result ≡ decoded word }
{
    let (rs1, rs2, off) = (rs1(word), rs2(word), imm_b(word));
    branch_op(word).map(|op| Instr::Branch { op, rs1, rs2, off })
}

fn load(word: u32) -> Option<Instr>
    requires { opcode_of word ≡ LOAD }
    ensures { result ≡ decoded word }
{
    let (rd, rs1, imm) = (rd(word), rs1(word), imm_i(word));
    load_op(word).map(|op| Instr::Load { op, rd, rs1, imm })
}

fn store(word: u32) -> Option<Instr>
    requires { opcode_of word ≡ STORE }
    ensures { result ≡ decoded word }
{
    let (rs1, rs2, imm) = (rs1(word), rs2(word), imm_s(word));
    store_op(word).map(|op| Instr::Store { op, rs1, rs2, imm })
}

fn with_immediate(word: u32) -> Option<Instr>
    requires { opcode_of word ≡ OP_IMM }
    ensures { result ≡ decoded word }
{
    let (rd, rs1) = (rd(word), rs1(word));
    match funct3(word) {
        1 | 5 => {
            let by = rs2(word);
            shift_op(word).map(|op| Instr::Shift { op, rd, rs1, by })
        }
        _ => {
            let (op, imm) = (imm_op(word), imm_i(word));
            Some(Instr::Imm { op, rd, rs1, imm })
        }
    }
}

fn with_registers(word: u32) -> Option<Instr>
    requires { opcode_of word ≡ OP }
    ensures { result ≡ decoded word }
{
    let (rd, rs1, rs2) = (rd(word), rs1(word), rs2(word));
    reg_op(word).map(|op| Instr::Reg { op, rd, rs1, rs2 })
}
