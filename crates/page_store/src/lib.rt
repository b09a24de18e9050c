//! A memory of pages: each page that is not zero stands in a block, packed or with its lines one after another.
//! Contracts see the lines, how each page is kept, the bytes of its block and where they lie, the units in use, the
//! metadata that a cache holds, counts and refusals. It never moves a block for another page's sake.
#![tactic(auto)]

mod blocks;
mod page_block;
mod page_lines;
mod pages;
mod room;
#[cfg(test)]
mod tests;
mod totals;

pub use pages::{Pages, sound_stores_are_laid_out, sure_writes_are_one, unwritten_pages_settle};
