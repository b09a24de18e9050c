//! The guest: a hart with its calls and its break, over any port. Contracts see its registers, bytes, break and count
//! of instructions, and say each instruction and each run by the same instructions over flat memory. It never sees
//! what the port, the source and the sink stand on.
#![tactic(auto)]

mod ends;
mod guest;
mod program;
#[cfg(test)]
mod tests;

pub use ends::MachineEnd;
pub use guest::Guest;
pub use program::Program;
