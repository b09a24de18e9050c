//! The calls that the guest makes of its environment, over any port, source and sink. Contracts see the guest as its
//! registers, bytes and break, and say each call by its row: what it asks for, answers and leaves. No cache, page or
//! file is known.
#![tactic(auto)]

mod brk;
mod calls;
mod copies;
#[cfg(test)]
mod tests;

pub use brk::Brk;
pub use calls::{Called, call};
