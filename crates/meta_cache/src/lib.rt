//! Copies of the metadata of the pages that were looked up last, a chunk of 64 bytes a page.
//! Contracts see the entries, the most recent first: the number of a page and its chunk in each.
//! It never asks a memory for a chunk, and never writes one: whoever looks a page up brings its chunk along.
#![tactic(auto)]

mod cache;
#[cfg(test)]
mod tests;

pub use cache::MetaCache;
