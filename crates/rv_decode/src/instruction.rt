// An instruction with its fields, and the ranges in which a word has room for them.

ghost use Rattle.std.specs.Prelude.{◌↔◌, ◌<◌, ◌^◌, IsTrue};
ghost use Rattle.rv_decode.specs.Ranges.{Fits, IsWithin, IsOffset};

/// The branches, of opcode BRANCH (RISC-V unprivileged manual, "RV32I Base Integer Instruction Set").
#[derive(Debug, Clone, Copy, PartialEq, Eq)]
pub enum BranchOp {
    Beq,
    Bne,
    Blt,
    Bge,
    Bltu,
    Bgeu,
}

/// The loads, of opcode LOAD.
#[derive(Debug, Clone, Copy, PartialEq, Eq)]
pub enum LoadOp {
    Lb,
    Lh,
    Lw,
    Lbu,
    Lhu,
}

/// The stores, of opcode STORE.
#[derive(Debug, Clone, Copy, PartialEq, Eq)]
pub enum StoreOp {
    Sb,
    Sh,
    Sw,
}

/// The operations of a register and a 12-bit immediate, of opcode OP-IMM.
#[derive(Debug, Clone, Copy, PartialEq, Eq)]
pub enum ImmOp {
    Addi,
    Slti,
    Sltiu,
    Xori,
    Ori,
    Andi,
}

/// The shifts by a constant, of opcode OP-IMM.
#[derive(Debug, Clone, Copy, PartialEq, Eq)]
pub enum ShiftOp {
    Slli,
    Srli,
    Srai,
}

/// The operations of two registers, of opcode OP: those of RV32I and then those of RV32M.
#[derive(Debug, Clone, Copy, PartialEq, Eq)]
pub enum RegOp {
    Add,
    Sub,
    Sll,
    Slt,
    Sltu,
    Xor,
    Srl,
    Sra,
    Or,
    And,
    Mul,
    Mulh,
    Mulhsu,
    Mulhu,
    Div,
    Divu,
    Rem,
    Remu,
}

/// An instruction of RV32I, M or Zifencei with its fields. `rd`, `rs1` and `rs2` are numbers of registers.
/// `imm` and `off` are immediates as the instruction uses them: sign-extended, an offset in bytes, and for
/// `Lui` and `Auipc` with the low twelve bits 0. `by` is a number of bits.
#[derive(Debug, Clone, Copy, PartialEq, Eq)]
pub enum Instr {
    Lui {
        rd: u8,
        imm: u32,
    },
    Auipc {
        rd: u8,
        imm: u32,
    },
    Jal {
        rd: u8,
        off: i32,
    },
    Jalr {
        rd: u8,
        rs1: u8,
        imm: i16,
    },
    Branch {
        op: BranchOp,
        rs1: u8,
        rs2: u8,
        off: i16,
    },
    Load {
        op: LoadOp,
        rd: u8,
        rs1: u8,
        imm: i16,
    },
    Store {
        op: StoreOp,
        rs1: u8,
        rs2: u8,
        imm: i16,
    },
    Imm {
        op: ImmOp,
        rd: u8,
        rs1: u8,
        imm: i16,
    },
    Shift {
        op: ShiftOp,
        rd: u8,
        rs1: u8,
        by: u8,
    },
    Reg {
        op: RegOp,
        rd: u8,
        rs1: u8,
        rs2: u8,
    },
    Fence,
    FenceI,
    Ecall,
    Ebreak,
}

impl Instr {
    /// Whether a word has room for each field: registers and `by` are below 32, a 12-bit immediate is
    /// -2,048 to 2,047, an offset is even and within its format, and the low twelve bits of an upper
    /// immediate are 0.
    pub fn fits(&self) -> bool
        ensures { IsTrue result ↔ Fits self.now }
    {
        match *self {
            Instr::Lui { rd, imm } => is_register(rd) && imm % (1 << 12) == 0,
            Instr::Auipc { rd, imm } => is_register(rd) && imm % (1 << 12) == 0,
            Instr::Jal { rd, off } => is_register(rd) && is_offset(off, 1 << 20),
            Instr::Jalr { rd, rs1, imm } => is_register(rd) && is_register(rs1) && is_imm(imm),
            Instr::Branch { rs1, rs2, off, .. } => {
                is_register(rs1) && is_register(rs2) && is_offset(off as i32, 1 << 12)
            }
            Instr::Load { rd, rs1, imm, .. } => is_register(rd) && is_register(rs1) && is_imm(imm),
            Instr::Store { rs1, rs2, imm, .. } => is_register(rs1)
                && is_register(rs2)
                && is_imm(imm),
            Instr::Imm { rd, rs1, imm, .. } => is_register(rd) && is_register(rs1) && is_imm(imm),
            Instr::Shift { rd, rs1, by, .. } => is_register(rd) && is_register(rs1) && by < 32,
            Instr::Reg { rd, rs1, rs2, .. } => is_register(rd)
                && is_register(rs1)
                && is_register(rs2),
            Instr::Fence | Instr::FenceI | Instr::Ecall | Instr::Ebreak => true,
        }
    }
}

fn is_register(register: u8) -> bool
    ensures { IsTrue result ↔ (register < 32) }
{
    register < 32
}

fn is_imm(imm: i16) -> bool
    ensures { IsTrue result ↔ IsWithin (2 ^ 11) imm }
{
    -(1 << 11) <= imm && imm < 1 << 11
}

fn is_offset(off: i32, bound: u32) -> bool
    requires { bound < 2 ^ 31 }
    ensures { IsTrue result ↔ IsOffset bound off }
{
    -(bound as i32) <= off && off < bound as i32 && off % 2 == 0
}
