// The rows of the operations that share an opcode: their words with all fields 0.

ghost use Rattle.std.specs.Prelude.{◌≡◌, ◌≤◌, ℕ, ℤ};
ghost use Rattle.rv_decode.specs.Table.{row_of};
ghost use Rattle.rv_decode.specs.declared.instruction.Instr.{Instr};
ghost use Rattle.rv_asm.specs.Encoding.{row_bits};

use rv_decode::{BranchOp, ImmOp, LoadOp, RegOp, ShiftOp, StoreOp};

pub fn branch_row(op: BranchOp) -> u32
    ensures value { (rs1 rs2 : ℕ) (off : ℤ) → row_bits (row_of (Instr.Branch op rs1 rs2 off)) ≡ result }
    ensures room { result ≤ 0x707f }
{
    match op {
        BranchOp::Beq => 0x0063,
        BranchOp::Bne => 0x1063,
        BranchOp::Blt => 0x4063,
        BranchOp::Bge => 0x5063,
        BranchOp::Bltu => 0x6063,
        BranchOp::Bgeu => 0x7063,
    }
}

pub fn load_row(op: LoadOp) -> u32
    ensures value { (rd rs1 : ℕ) (imm : ℤ) → row_bits (row_of (Instr.Load op rd rs1 imm)) ≡ result }
    ensures room { result ≤ 0x707f }
{
    match op {
        LoadOp::Lb => 0x0003,
        LoadOp::Lh => 0x1003,
        LoadOp::Lw => 0x2003,
        LoadOp::Lbu => 0x4003,
        LoadOp::Lhu => 0x5003,
    }
}

pub fn store_row(op: StoreOp) -> u32
    ensures value { (rs1 rs2 : ℕ) (imm : ℤ) → row_bits (row_of (Instr.Store op rs1 rs2 imm)) ≡ result }
    ensures room { result ≤ 0x707f }
{
    match op {
        StoreOp::Sb => 0x0023,
        StoreOp::Sh => 0x1023,
        StoreOp::Sw => 0x2023,
    }
}

pub fn imm_row(op: ImmOp) -> u32
    ensures value { (rd rs1 : ℕ) (imm : ℤ) → row_bits (row_of (Instr.Imm op rd rs1 imm)) ≡ result }
    ensures room { result ≤ 0x707f }
{
    match op {
        ImmOp::Addi => 0x0013,
        ImmOp::Slti => 0x2013,
        ImmOp::Sltiu => 0x3013,
        ImmOp::Xori => 0x4013,
        ImmOp::Ori => 0x6013,
        ImmOp::Andi => 0x7013,
    }
}

pub fn shift_row(op: ShiftOp) -> u32
    ensures value { (rd rs1 by : ℕ) → row_bits (row_of (Instr.Shift op rd rs1 by)) ≡ result }
    ensures room { result ≤ 0xfe00_707f }
{
    match op {
        ShiftOp::Slli => 0x0000_1013,
        ShiftOp::Srli => 0x0000_5013,
        ShiftOp::Srai => 0x4000_5013,
    }
}

pub fn reg_row(op: RegOp) -> u32
    ensures value { (rd rs1 rs2 : ℕ) → row_bits (row_of (Instr.Reg op rd rs1 rs2)) ≡ result }
    ensures room { result ≤ 0xfe00_707f }
{
    match op {
        RegOp::Add => 0x0000_0033,
        RegOp::Sub => 0x4000_0033,
        RegOp::Sll => 0x0000_1033,
        RegOp::Slt => 0x0000_2033,
        RegOp::Sltu => 0x0000_3033,
        RegOp::Xor => 0x0000_4033,
        RegOp::Srl => 0x0000_5033,
        RegOp::Sra => 0x4000_5033,
        RegOp::Or => 0x0000_6033,
        RegOp::And => 0x0000_7033,
        RegOp::Mul => 0x0200_0033,
        RegOp::Mulh => 0x0200_1033,
        RegOp::Mulhsu => 0x0200_2033,
        RegOp::Mulhu => 0x0200_3033,
        RegOp::Div => 0x0200_4033,
        RegOp::Divu => 0x0200_5033,
        RegOp::Rem => 0x0200_6033,
        RegOp::Remu => 0x0200_7033,
    }
}
