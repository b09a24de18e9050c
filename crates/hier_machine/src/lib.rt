//! The machine: the guest over two cache levels and a memory of pages, beat by beat, with the program in a file or with
//! the accesses of a trace. Contracts see the guest's state, what both levels keep and how the pages lie, and say each beat
//! and each run by the same instructions over flat memory. It knows nothing of words and shelves, and takes no memory
//! once it is open.
#![tactic(auto)]

mod ends;
mod errands;
mod file_runs;
mod machine;
mod opening;
mod page_view;
#[cfg(test)]
mod tests;

pub use ends::{NotOpened, OpenFault, TraceEnd, end_of};
pub use errands::{FlushSecond, Placing, Through};
pub use file_runs::open_file;
pub use machine::{Machine, counts_are_alike, runs_are_one};
pub use rv_guest::MachineEnd;
