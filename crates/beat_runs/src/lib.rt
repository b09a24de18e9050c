//! Runs of beats: a word of beats, made over and over by whatever goes from beat to beat, up to an end. Contracts see a
//! run as a list of points, each a state with what the input and the output have come to by then, and say how each
//! beat leads from one point to the next. It knows nothing of what a beat does.
#![tactic(auto)]

mod runner;
#[cfg(test)]
mod tests;

pub use runner::{Runner, run};
