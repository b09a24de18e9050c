//! Strings of 1 to 64 bytes under tags, in the room of a set of whole lines, which is cut into segments of 8 bytes.
//! Contracts see the strings with their tags, in the order in which they were put there, and how many segments are free.
//! It never looks into a string, never allocates once it is made, and never refuses a string for which enough segments are free.
#![tactic(auto)]

mod held;
mod segments;
mod slide;
#[cfg(test)]
mod tests;

pub use segments::Segments;
