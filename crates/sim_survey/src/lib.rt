//! The sizes of a file of bytes, taken as a memory: what its pages would take at their plans.
//! Contracts see the bytes as lines and the totals as those of the pages' plans, however the work is divided.
//! Nothing here keeps a page, or says how many threads measured them.
#![tactic(auto)]

mod measure;
mod page_bytes;
#[cfg(test)]
mod tests;
mod totals;

pub use totals::survey;
