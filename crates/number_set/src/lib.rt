//! A set of numbers below 65,536 that finds its least number in a few words.
//! Contracts see the words of 64 bits in which the set stands, and ask of each number whether the set has it.
//! It never takes memory once it is made, and never goes over its numbers one by one.
#![tactic(auto)]

mod set;
#[cfg(test)]
mod tests;

pub use set::NumberSet;
