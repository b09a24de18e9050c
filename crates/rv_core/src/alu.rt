// What the operations on registers compute.
ghost use Rattle.std.specs.Prelude.{◌≡◌};
ghost use Rattle.rv_core.specs.Hart.{bits_of};
ghost use Rattle.rv_core.specs.Operations.{high_half, imm_value, is_taken, quotient, reg_value, remainder, shift_value};

use rv_decode::{BranchOp, ImmOp, RegOp, ShiftOp};

/// An immediate of 12 or 13 bits as 32 bits.
pub fn extended(imm: i16) -> u32
    ensures { result ≡ bits_of imm }
{
    i32::from(imm).cast_unsigned()
}

/// Whether a branch is taken.
pub fn is_branch_taken(op: BranchOp, a: u32, b: u32) -> bool
    ensures { result ≡ is_taken op a b }
{
    match op {
        BranchOp::Beq => a == b,
        BranchOp::Bne => a != b,
        BranchOp::Blt => a.cast_signed() < b.cast_signed(),
        BranchOp::Bge => a.cast_signed() >= b.cast_signed(),
        BranchOp::Bltu => a < b,
        BranchOp::Bgeu => a >= b,
    }
}

/// An operation on a register and an immediate of 32 bits.
pub fn with_immediate(op: ImmOp, a: u32, imm: u32) -> u32
    ensures { result ≡ imm_value op a imm }
{
    match op {
        ImmOp::Addi => a.wrapping_add(imm),
        ImmOp::Slti => u32::from(a.cast_signed() < imm.cast_signed()),
        ImmOp::Sltiu => u32::from(a < imm),
        ImmOp::Xori => a ^ imm,
        ImmOp::Ori => a | imm,
        ImmOp::Andi => a & imm,
    }
}

/// A register shifted by the low five bits of an amount.
pub fn shifted(op: ShiftOp, a: u32, by: u32) -> u32
    ensures { result ≡ shift_value op a by }
{
    match op {
        ShiftOp::Slli => a.wrapping_shl(by),
        ShiftOp::Srli => a.wrapping_shr(by),
        ShiftOp::Srai => a.cast_signed().wrapping_shr(by).cast_unsigned(),
    }
}

/// An operation on two registers.
pub fn with_register(op: RegOp, a: u32, b: u32) -> u32
    ensures { result ≡ reg_value op a b }
{
    match op {
        RegOp::Add => a.wrapping_add(b),
        RegOp::Sub => a.wrapping_sub(b),
        RegOp::Sll => shifted(ShiftOp::Slli, a, b),
        RegOp::Slt => u32::from(a.cast_signed() < b.cast_signed()),
        RegOp::Sltu => u32::from(a < b),
        RegOp::Xor => a ^ b,
        RegOp::Srl => shifted(ShiftOp::Srli, a, b),
        RegOp::Sra => shifted(ShiftOp::Srai, a, b),
        RegOp::Or => a | b,
        RegOp::And => a & b,
        RegOp::Mul => a.wrapping_mul(b),
        RegOp::Mulh => high_bits(i64::from(a.cast_signed()) * i64::from(b.cast_signed())),
        RegOp::Mulhsu => high_bits(i64::from(a.cast_signed()) * i64::from(b)),
        RegOp::Mulhu => ((u64::from(a) * u64::from(b)) >> 32) as u32,
        RegOp::Div => divided(a, b),
        RegOp::Divu => a.checked_div(b).unwrap_or(u32::MAX),
        RegOp::Rem => remaining(a, b),
        RegOp::Remu => a.checked_rem(b).unwrap_or(a),
    }
}

/// The high 32 bits of a product.
fn high_bits(product: i64) -> u32
    ensures { result ≡ high_half product }
{
    (product.cast_unsigned() >> 32) as u32
}

/// The signed quotient, rounded towards zero.
fn divided(a: u32, b: u32) -> u32
    ensures { result ≡ quotient a b }
{
    if b == 0 {
        return u32::MAX;
    }
    a.cast_signed()
        .wrapping_div(b.cast_signed())
        .cast_unsigned()
}

/// The signed remainder, with the sign of the dividend.
fn remaining(a: u32, b: u32) -> u32
    ensures { result ≡ remainder a b }
{
    if b == 0 {
        return a;
    }
    a.cast_signed()
        .wrapping_rem(b.cast_signed())
        .cast_unsigned()
}
