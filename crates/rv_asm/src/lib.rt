//! Words of RV32I, M and Zifencei from instructions, files that load them, and a program made from a number.
//! Contracts see a word by its bits, a file by its bytes, and a program by its list of instructions.
//! Nothing here reads text, relocates or links.
#![tactic(auto)]

mod demo;
mod elf;
mod formats;
mod operations;
mod words;

pub use demo::demo_program;
pub use elf::write_elf;
pub use words::{decode_encoded, encode};

#[cfg(test)]
mod tests;
