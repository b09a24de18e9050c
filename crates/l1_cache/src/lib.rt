//! The first cache level: sets of whole lines over any layer, written back when they leave.
//! Contracts see the lines that each set keeps, the most recent first, the counts, the held line and the layer below.
//! It never looks behind the layer below, and never writes a line there that is clean.
#![tactic(auto)]

mod l1;
#[cfg(test)]
mod tests;

pub use l1::L1;
