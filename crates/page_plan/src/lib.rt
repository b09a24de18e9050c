//! The least layout of a page: the smallest block that holds its lines compressed, and how that block is parted
//! into slots and exceptions. Contracts see a page as a list of lines, its layout as one value, and what its lines
//! take in a slot as a list of bytes. Nothing here makes an encoding, or knows where a block lies.
#![tactic(auto)]

mod layout;
mod least;
mod page_sizes;
#[cfg(test)]
mod tests;

pub use layout::TARGETS;
pub use least::{PagePlan, plan};
pub use page_sizes::PageSizes;
