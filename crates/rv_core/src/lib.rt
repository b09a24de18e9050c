//! One instruction of RV32IM and Zifencei, or one access of a trace, over any port. Contracts see the registers and the
//! port's bytes as one state, and say the effect by one row per instruction, with the lines that are touched and the bytes
//! that are poked. It never sees what the port stands on, and makes no call of the guest.
#![tactic(auto)]

mod accesses;
mod alu;
mod data;
mod hart;
mod regs;
#[cfg(test)]
mod tests;
mod traps;

pub use accesses::access;
pub use hart::{Did, Ended, step};
pub use regs::Regs;
pub use traps::Trap;
