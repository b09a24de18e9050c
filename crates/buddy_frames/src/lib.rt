//! Blocks of 1, 2, 4 or 8 units of 512 bytes, in frames of eight units, by the buddy rule.
//! Contracts see a byte for each frame, whose bits are its units in use, and speak of places and free blocks.
//! It never scans the frames, never moves a block, and never frees the units of a block that was only dropped.
#![tactic(auto)]

mod block;
mod frame_byte;
mod frames;
mod free_index;
#[cfg(test)]
mod tests;

pub use block::Block;
pub use frames::Frames;
