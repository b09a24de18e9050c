//! The instructions of RV32I, M and Zifencei, and the one that a word encodes, if any.
//! Contracts see a word as a number and read its fields by their bits, row by row of the manual's listing.
//! Nothing here executes an instruction, reads memory or allocates.
#![tactic(auto)]

mod fields;
mod instruction;
mod opcodes;
mod operations;
mod rows;

pub use instruction::{BranchOp, ImmOp, Instr, LoadOp, RegOp, ShiftOp, StoreOp};
pub use rows::decode;

#[cfg(test)]
mod tests;
