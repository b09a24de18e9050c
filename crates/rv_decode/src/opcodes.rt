// The opcodes by their names in the manual (RISC-V unprivileged manual, "RISC-V base opcode map").

pub const LOAD: u8 = 0x03;

pub const MISC_MEM: u8 = 0x0f;

pub const OP_IMM: u8 = 0x13;

pub const AUIPC: u8 = 0x17;

pub const STORE: u8 = 0x23;

pub const OP: u8 = 0x33;

pub const LUI: u8 = 0x37;

pub const BRANCH: u8 = 0x63;

pub const JALR: u8 = 0x67;

pub const JAL: u8 = 0x6f;
