//! Traces of loads and stores, as text. Contracts see a trace as its numbered rows, each with the access that it
//! writes or the first fault that it has, and a reader as the rows that are left. It makes no access, allocates
//! nothing and changes no byte.
#![tactic(auto)]

mod access_row;
mod fault;
mod numbers;
mod parts;
mod rows;
#[cfg(test)]
mod tests;
mod trace_rows;

pub use fault::{TraceFault, TraceKind};
pub use trace_rows::{TraceRows, check};
