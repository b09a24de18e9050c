//! The second cache level: sets of lines, each packed under a codec into the bounded room of its set, over any layer.
//! Contracts see the lines that each set keeps, the most recent first, the counts, the cleaner's set and the layer below.
//! It never looks behind the layer below, and never lets a dirty line go that was not written there.
#![tactic(auto)]

mod clean;
mod l2;
mod packed_lines;
mod packed_set;
mod room_sets;
#[cfg(test)]
mod tests;

pub use clean::Clean;
pub use l2::L2;
