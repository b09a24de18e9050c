//! Flat memory: the guest's bytes as one list, behind the port that instructions use. It stands for the memory that
//! every other one is compared with. It has no lines below it, and refuses no touch.
#![tactic(auto)]

mod memory;
#[cfg(test)]
mod tests;

pub use memory::FlatMemory;
