//! Lines for the tests of other crates: words that rise by a step, and a line that no codec shortens.
//! Contracts see of a line its bytes, by their numbers.
//! Nothing of the program stands on it.
#![tactic(auto)]

mod lines;
#[cfg(test)]
mod tests;

pub use lines::{plain, rising};
