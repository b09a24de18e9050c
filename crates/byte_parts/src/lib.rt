//! Parts of a row of bytes, which are written, moved within the row, and read.
//! Contracts see a part as a list of bytes, and say of a write that no byte outside of its part changes.
//! It never looks into a byte, never takes memory, and leaves each row as long as it was.
#![tactic(auto)]

mod parts;
#[cfg(test)]
mod tests;

pub use parts::{move_part, read_part, write_part};
